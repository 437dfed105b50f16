//! The search for the least height of a row: one height after another, each where the range before it ended.

ghost use Rattle.std.specs.Prelude.{◌≡◌, ◌+◌, ◌^◌, ◌<◌, ◌≤◌, IfOk, OnOk, OnErr, IfSome, All, length, None};
ghost use Rattle.flow_data.specs.Flows.{flow_in, rows_in, row_of};
ghost use Rattle.flow_data.specs.Soundness.{NestsAtMost};
ghost use Rattle.flow_list.specs.Book.{after_uses};
ghost use Rattle.flow_list.specs.Entries.{uses_in};
ghost use Rattle.flow_list.specs.Ranges.{is_past, judged, top_of};
ghost use Rattle.flow_list.specs.Rows.{all_rows};
ghost use Rattle.flow_list.specs.Tokens.{IsPlace};
ghost use Rattle.frag_pool.specs.Growing.{Grows};
ghost use Rattle.frag_pool.specs.Nodes.{SameTrial};
ghost use Rattle.frag_pool.specs.Standing.{StandsFor};
ghost use Rattle.inner_rows.specs.Filling.{row_tree};
ghost use Rattle.inner_rows.specs.TrueBook.{AreTrue, BookAfter};
ghost use Rattle.balancer.specs.Cost.{fragment_cost, fragment_folds, ranges_cost};
ghost use Rattle.balancer.specs.Finding.{IsFound, found_uses};

use crate::first::first_ranges;
use crate::trial::{Trial, try_height};
use flow_laws::ranges_account;
use flow_list::{Book, Flows, Range, Tally, flow_counts};
use frag_pool::Pool;
use inner_rows::InnerRows;
use mc_base::{FragId, List, NoMemory, Token, Units};
use range_finder::most_columns;
use range_laws::uses_enter;
use std::alloc::Global;

/// What a search found: the ranges of lesser heights, and where they end. Where that height fits, the fragment of its columns,
/// a row piece at the top without a height; none where the ranges end above what is available.
#[derive(Drop)]
pub struct Found {
    pub ranges: List<Range>,
    pub height: Units,
    pub frag: Option<FragId>,
}

/// One above what is available.
fn top_above(available: Option<Units>) -> Option<Units>
    requires { IfSome available (λ a. a + 1 < 2 ^ 64) }
    ensures { result ≡ top_of available }
{
    match available {
        None => None,
        Some(available) => Some(available + 1),
    }
}

/// Whether a height is at the top, where there is one, or above it.
fn is_at_top(top: Option<Units>, height: Units) -> bool
    ensures { result ≡ is_past top height }
{
    match top {
        None => false,
        Some(top) => top <= height,
    }
}

/// All ranges of heights that don't fit a row from a place on, up to the least that does, or to one above what is available.
pub fn search<I: InnerRows, C: Tally>(
    alloc: Global,
    inner: &mut I,
    flows: &Flows,
    row: u32,
    from: &Token,
    available: Option<Units>,
    book: &mut Book,
    pool: &mut Pool,
    tally: &mut C,
) -> Result<Found, NoMemory>
    requires row { row < length flows.now.rows }
    requires place { IsPlace flows.now (flow_in flows.now row) from.now }
    requires nests { All (NestsAtMost flows.now (I.depth inner.old)) (rows_in (flow_in flows.now row)) }
    requires deep { I.depth inner.old ≤ 2 }
    requires engine { I.is_true inner.old flows.now book.old pool.old }
    requires book { AreTrue flows.now book.old }
    requires available { IfSome available (λ a. a + 1 < 2 ^ 64) }
    ensures found { IfOk result (IsFound flows.now row from.now available) }
    ensures frag { IfOk result (λ found. IfSome found.frag (λ frag. StandsFor pool.new frag (row_tree flows.now row from.now
        found.height None (judged (all_rows flows.now) flows.now row from.now found.height)))) }
    ensures depth { I.depth inner.new ≡ I.depth inner.old }
    ensures engine { I.is_true inner.new flows.now book.new pool.new }
    ensures book { BookAfter flows.now book.old book.new }
    ensures uses { IfOk result (λ found. uses_in book.new
        ≡ after_uses flows.now (uses_in book.old) (found_uses flows.now row from.now found)) }
    ensures grown { OnOk result (Grows pool.old pool.new) }
    ensures refused { OnErr result (SameTrial pool.old pool.new) }
    ensures folds { IfOk result (λ found. C.fold_count tally.new
        ≤ C.fold_count tally.old + (length found.ranges + fragment_folds found.frag)) }
    ensures reads { IfOk result (λ found. C.read_count tally.new ≤ C.read_count tally.old
        + (ranges_cost flows.now row from.now found.ranges + fragment_cost flows.now row from.now found.height found.frag)) }
{
    // In sealed flows, which are sound, these are laws.
    let _counts = flow_counts(flows);
    ranges_account();
    uses_enter();
    let most = most_columns(flows, row, from);
    let top = top_above(available);
    let first = first_ranges(alloc, flows, row, from, most, top, tally)?;
    let mut ranges = first.ranges;
    let mut low = first.low;
    while !is_at_top(top, low) {
        let trial = try_height(
            alloc, inner, flows, row, from, most, low, top, book, pool, tally,
        )?;
        match trial {
            Trial::Fits(frag) => {
                return Ok(Found {
                    ranges,
                    height: low,
                    frag: Some(frag),
                });
            }
            Trial::Rejected(range) => {
                low = range.hi;
                ranges.push(range)?;
            }
        }
    }
    Ok(Found {
        ranges,
        height: low,
        frag: None,
    })
}
