//! Keeping what was made.

ghost use Rattle.std.specs.Prelude.{◌≡◌, ℕ, ◌≤◌, IfOk, List, length};
ghost use Rattle.flow_data.specs.declared.data.FlowsData.{FlowsData};
ghost use Rattle.flow_list.specs.Tokens.{Token as Place};
ghost use Rattle.flow_list.specs.declared.book.SizeEntry.{SizeEntry};
ghost use Rattle.frag_pool.specs.Nodes.{IsLive, SameTrial, back_to};
ghost use Rattle.inner_rows.specs.Keeping.{IsKeptFill};
ghost use Rattle.kept_fills.specs.Keeping as stated;
ghost use Rattle.kept_fills.specs.Keeping.{AreKept, IsMade, kept_at};

use crate::copying::copy_of;
use crate::store::KeptFills;
use frag_pool::{Mark, Pool};
use inner_rows::Filled;
use mc_base::{FragId, NoMemory, Token, Units};
use std::alloc::Global;

/// A fill with this fragment in place of its own.
fn with_frag(fill: Filled, frag: FragId) -> Filled
    ensures { result ≡ stated.with_frag fill frag }
{
    Filled {
        end: fill.end,
        at_end: fill.at_end,
        level: fill.level,
        overflow: fill.overflow,
        short: fill.short,
        lines: fill.lines,
        frag,
    }
}

/// Keeps a fill of a row, from a place on and at a height in units, that was made after a mark of the region: the same fill with
/// a kept fragment. Other fills that are kept stay, and none is added where as many are kept as may be. All trial nodes after
/// the mark are given up, also when out of memory.
pub fn keep_made(
    alloc: Global,
    fills: &mut KeptFills,
    row: u32,
    from: &Token,
    height: Units,
    fill: Filled,
    mark: &Mark,
    pool: &mut Pool,
) -> Result<Filled, NoMemory>
    requires mark { mark.now.trial ≤ length pool.old.trial }
    requires live { IsLive pool.old fill.frag }
    ensures given_up { SameTrial (back_to pool.old mark.now.trial) pool.new }
    ensures fill { (d : FlowsData) (b : List SizeEntry) → IsMade d b pool.old row from.now height fill →
        IfOk result (IsKeptFill d b pool.new row from.now height) }
    ensures others { (r : ℕ) (q : Place) (h : ℕ) → ¬ ((r ≡ row) × (q ≡ from.now) × (h ≡ height)) →
        kept_at fills.new r q h ≡ kept_at fills.old r q h }
    ensures full { 1024 ≤ length fills.old.fills.entries → fills.new ≡ fills.old }
    ensures kept { (d : FlowsData) (b : List SizeEntry) → AreKept d b pool.old fills.old →
        IsMade d b pool.old row from.now height fill → AreKept d b pool.new fills.new }
{
    let promoted = pool.promote(fill.frag);
    // Each node of a region names nodes that there are.
    let _all = pool.mark();
    pool.release(mark);
    let frag = promoted?;
    let fill = with_frag(fill, frag);
    let copy = copy_of(alloc, &fill)?;
    fills.keep(row, from, height, fill)?;
    Ok(copy)
}
