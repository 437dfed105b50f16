//! What is told of columns that were made one after another, and of one more.

ghost use Rattle.std.specs.Prelude.{◌≡◌, ℕ, ◌+◌, ◌^◌, ◌<◌, ◌||◌, ◌++◌, [], ◌∷◌, List as Items, IfOk, cond, length, max, nat_lt};
ghost use Rattle.flow_data.specs.Flows.{flow_of};
ghost use Rattle.flow_data.specs.declared.data.Flow.{Flow};
ghost use Rattle.flow_list.specs.Column.{Column, is_forced, rank};
ghost use Rattle.flow_list.specs.RowHeights.{is_unforced};
ghost use Rattle.flow_list.specs.Tokens.{IsPlace, Token as Place};
ghost use Rattle.block_flow.specs.Columns.{IsColumn};
ghost use Rattle.column_laws.specs.Following.{lesser};
ghost use Rattle.inner_rows.specs.Filling.{IsLevel};
ghost use Rattle.column_row.specs.Adding.{IsSoFar};

use block_flow::ColumnOut;
use flow_list::{ColLine, Flows, flow_counts, item_count, seam_at};
use mc_base::{FragId, Level, List, NoMemory, Token, Units};
use std::alloc::Global;

/// What is told of columns so far: how many they are, where they end, whether one breaks a rule, and whether one ended at a break
/// that wasn't forced. Then the greatest level, whether one overflows, and the greatest extent; and up to the first that
/// overflows how far the least height at which one may change is above their height, and their lines. `frags` are their
/// fragments, in order.
#[derive(Drop)]
pub struct SoFar {
    pub columns: u32,
    pub end: Token,
    pub broken: bool,
    pub unforced: bool,
    pub level: Level,
    pub overflow: bool,
    pub extent: Units,
    pub short: Option<Units>,
    pub lines: List<ColLine>,
    pub frags: List<FragId>,
}

/// What is told of no columns from a place on. It takes no memory.
pub fn none_yet(alloc: Global, from: &Token) -> SoFar
    ensures told { (f : Flow) (h : ℕ) → IsSoFar f from.now h [] result }
    ensures end { result.end ≡ from.now }
    ensures frags { result.frags ≡ [] }
{
    SoFar {
        columns: 0,
        end: from.copy(),
        broken: false,
        unforced: false,
        level: Level::L0,
        overflow: false,
        extent: 0,
        short: None,
        lines: List::new(alloc),
        frags: List::new(alloc),
    }
}

fn rank_of(level: Level) -> u8
    ensures { result ≡ rank level }
{
    match level {
        Level::Forced | Level::L0 => 0,
        Level::L1 => 1,
        Level::L2 => 2,
    }
}

fn is_forced_at(level: Level) -> bool
    ensures { result ≡ is_forced level }
{
    match level {
        Level::Forced => true,
        _ => false,
    }
}

/// Whether a column breaks a rule that overflows or not and ends at a break of this level.
fn breaks_rule(overflow: bool, level: Level) -> bool
    ensures { result ≡ (overflow || nat_lt 0 (rank level)) }
{
    overflow || rank_of(level) > 0
}

fn either(first: bool, second: bool) -> bool
    ensures { result ≡ (first || second) }
{
    first || second
}

/// The greater of two levels.
fn worse(first: Level, second: Level) -> Level
    ensures { (m n : ℕ) → IsLevel first m → IsLevel second n → IsLevel result (max m n) }
{
    if rank_of(first) < rank_of(second) {
        second
    } else {
        first
    }
}

/// Whether a place in a flow is a break that isn't forced.
fn is_unforced_at(flows: &Flows, flow: u32, end: &Token) -> bool
    requires flow { flow < length flows.now.flows }
    requires place { IsPlace flows.now (flow_of flows.now flow) end.now }
    ensures { result ≡ is_unforced (flow_of flows.now flow) end.now }
{
    // Sealed flows are sound.
    let _counts = flow_counts(flows);
    if end.rest().is_some() {
        return true;
    }
    let item = end.item();
    item < item_count(flows, flow) && !is_forced_at(seam_at(flows, flow, item).level)
}

/// The lesser of the two, or the one that there is.
fn least_short(first: Option<Units>, second: Option<Units>) -> Option<Units>
    ensures { result ≡ lesser first second }
{
    match first {
        None => second,
        Some(first) => match second {
            None => Some(first),
            Some(second) => Some(first.min(second)),
        },
    }
}

/// How far above their height the least is at which one of the columns may change, where one more is added: none counts after
/// the first that overflows.
fn short_with(overflow: bool, short: Option<Units>, more: Option<Units>) -> Option<Units>
    ensures { result ≡ cond overflow short (lesser short more) }
{
    if overflow {
        short
    } else {
        least_short(short, more)
    }
}

/// These lines and further ones.
fn joined(lines: List<ColLine>, more: List<ColLine>) -> Result<List<ColLine>, NoMemory>
    ensures { IfOk result (λ out. out ≡ lines ++ more) }
{
    let mut lines = lines;
    for line in more.into_vec() {
        lines.push(line)?;
    }
    Ok(lines)
}

/// The lines of the columns where one more is added: none counts after the first that overflows.
fn lines_with(
    overflow: bool,
    lines: List<ColLine>,
    more: List<ColLine>,
) -> Result<List<ColLine>, NoMemory>
    ensures { IfOk result (λ out. out ≡ cond overflow lines (lines ++ more)) }
{
    if overflow {
        Ok(lines)
    } else {
        joined(lines, more)
    }
}

/// These fragments and one more.
fn frags_with(frags: List<FragId>, frag: FragId) -> Result<List<FragId>, NoMemory>
    ensures { IfOk result (λ out. out ≡ frags ++ frag ∷ []) }
{
    let mut frags = frags;
    frags.push(frag)?;
    Ok(frags)
}

/// What is told of columns and one more, which begins where they end.
pub fn with_column(
    flows: &Flows,
    flow: u32,
    before: SoFar,
    column: ColumnOut,
) -> Result<SoFar, NoMemory>
    requires flow { flow < length flows.now.flows }
    requires place { IsPlace flows.now (flow_of flows.now flow) column.end }
    requires count { before.columns + 1 < 2 ^ 32 }
    ensures told { IfOk result (λ out. (q : Place) (h : ℕ) (cs : Items Column) (c : Column) →
        IsSoFar (flow_of flows.now flow) q h cs before → IsColumn h c column →
        IsSoFar (flow_of flows.now flow) q h (cs ++ c ∷ []) out) }
    ensures end { IfOk result (λ out. out.end ≡ column.end) }
    ensures frags { IfOk result (λ out. out.frags ≡ before.frags ++ column.frag ∷ []) }
{
    let breaks = breaks_rule(column.overflow, column.level);
    let parts = is_unforced_at(flows, flow, &column.end);
    let broken = either(before.broken, breaks);
    let unforced = either(before.unforced, parts);
    let overflow = either(before.overflow, column.overflow);
    let lines = lines_with(before.overflow, before.lines, column.lines)?;
    let frags = frags_with(before.frags, column.frag)?;
    Ok(SoFar {
        columns: before.columns + 1,
        end: column.end,
        broken,
        unforced,
        level: worse(before.level, column.level),
        overflow,
        extent: before.extent.max(column.extent),
        short: short_with(before.overflow, before.short, column.short),
        lines,
        frags,
    })
}
