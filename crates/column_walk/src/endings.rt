//! Places where a column may end, and its items as they stand in it.

ghost use Rattle.std.specs.Prelude.{◌≡◌, ◌+◌, ◌^◌, ◌<◌, length, cond, false, nat_le, nat_lt, is_none, unwrap_or, ◌&&◌, ◌||◌, []};
ghost use Rattle.std.specs.Prelude.{None};
ghost use Rattle.flow_data.specs.Flows.{flow_of, item_of, seam_of};
ghost use Rattle.flow_list.specs.Column.{avoids_at, better_place, is_forced, rank, room, row_from, step_at};
ghost use Rattle.flow_list.specs.Rows.{all_rows};
ghost use Rattle.flow_list.specs.Strip.{lay_all, put};
ghost use Rattle.flow_list.specs.Tokens.{Token as Place};
ghost use Rattle.column_strip.specs.Passed.{IsBefore, IsBehind, height_at};
ghost use Rattle.column_strip.specs.Strips.{strip_of};
ghost use Rattle.column_walk.specs.Endings.{IsSmall, considered, place_of, place_opt, spot_place, step_of, whole_of};

use column_strip::{Before, Behind};
use flow_list::{Flows, item_count};
use mc_base::{Level, Token, Units};
use std::alloc::Global;

/// A place where a column may end: before an item, or at the flow's end. What the column then is: the level of the break, how
/// far it reaches, in units, and whether it overflows.
#[derive(Clone, Copy)]
pub struct Ending {
    pub item: u32,
    pub level: Level,
    pub extent: Units,
    pub overflow: bool,
}

/// The place where a column ends, with the same.
#[derive(Drop)]
pub struct Spot {
    pub end: Token,
    pub level: Level,
    pub extent: Units,
    pub overflow: bool,
}

/// An item as it stands in a column, in units from the column's top: the level of the seam before it, where it begins, its
/// height, and what the column needs to hold it with the tail of the seam after it and the cloned edges there. Then the level of
/// that seam, the cloned edges below the boxes open at the item and across that seam, and whether one of the former avoids a
/// break.
#[derive(Clone, Copy)]
pub struct Here {
    pub item: u32,
    pub level: Level,
    pub y: Units,
    pub height: Units,
    pub need: Units,
    pub next: Level,
    pub bottoms: Units,
    pub bottoms_after: Units,
    pub avoids: bool,
}

pub fn rank_of(level: Level) -> u8
    ensures { result ≡ rank level }
{
    match level {
        Level::Forced | Level::L0 => 0,
        Level::L1 => 1,
        Level::L2 => 2,
    }
}

pub fn is_forced_at(level: Level) -> bool
    ensures { result ≡ is_forced level }
{
    match level {
        Level::Forced => true,
        _ => false,
    }
}

/// A level as the end of a column has it: a forced break breaks no rule.
pub fn unforced(level: Level) -> Level
    ensures ranked { rank result ≡ rank level }
    ensures unforced { is_forced result ≡ false }
{
    match level {
        Level::Forced => Level::L0,
        _ => level,
    }
}

/// The level of the seam after an item, which is 0 at the flow's end.
fn next_level(is_last: bool, level: Level) -> Level
    ensures { rank result ≡ cond is_last 0 (rank level) }
{
    if is_last { Level::L0 } else { level }
}

/// Item `k` of this height, where the one stands before it and the other after it.
pub fn here_at(
    flows: &Flows,
    flow: u32,
    k: u32,
    height: Units,
    before: Before,
    behind: Behind,
) -> Here
    requires flow { flow < length flows.now.flows }
    requires item { k < length (flow_of flows.now flow).items }
    requires before { IsBefore flows.now (flow_of flows.now flow) k height before }
    requires behind { IsBehind flows.now (flow_of flows.now flow) k behind }
    requires strip { strip_of behind.strip ≡ lay_all (put (strip_of before.strip) height)
        (seam_of (flow_of flows.now flow) (k + 1)).tail }
    ensures item { result.item ≡ k }
    ensures height { result.height ≡ height }
    ensures level { result.level ≡ before.level }
    ensures step { (q : Place) → height ≡ height_at flows.now (flow_of flows.now flow) k q →
        step_of result (row_from (item_of (flow_of flows.now flow) k) q) (seam_of (flow_of flows.now flow) (k + 1)).tail
        ≡ step_at (all_rows flows.now) flows.now (flow_of flows.now flow) (strip_of before.strip) k q }
    ensures avoids { result.avoids ≡ avoids_at flows.now (flow_of flows.now flow) k }
    ensures small { IsSmall (seam_of (flow_of flows.now flow) (k + 1)).tail result }
{
    let count = item_count(flows, flow);
    let is_last = k + 1 == count;
    Here {
        item: k,
        level: before.level,
        y: before.strip.y + before.strip.pending,
        height,
        need: behind.strip.y + behind.boxes.bottoms,
        next: next_level(is_last, behind.level),
        bottoms: before.boxes.bottoms,
        bottoms_after: behind.boxes.bottoms,
        avoids: before.boxes.avoids(),
    }
}

impl Here {
    /// The height that is left for it in a column of this height, above the cloned edges of the boxes open at it.
    pub fn room_in(self, height: Units) -> Units
        ensures { result ≡ room (step_of self None []) height }
    {
        height.saturating_sub(self.y).saturating_sub(self.bottoms)
    }

    /// Whether it begins within this height.
    pub fn begins_in(self, height: Units) -> bool
        requires { IsSmall [] self }
        ensures { result ≡ nat_le (self.y + self.bottoms) height }
    {
        self.y + self.bottoms <= height
    }

    /// The place after it, where all of it fits.
    pub fn ending(self) -> Ending
        requires { self.item + 1 < 2 ^ 32 }
        ensures item { result.item ≡ self.item + 1 }
        ensures level { rank result.level ≡ 0 }
        ensures extent { result.extent ≡ self.need }
        ensures overflow { result.overflow ≡ false }
    {
        Ending {
            item: self.item + 1,
            level: Level::L0,
            extent: self.need,
            overflow: false,
        }
    }

    /// The place after it, where it is placed whole though it overflows.
    fn whole(self) -> Ending
        requires { self.item + 1 < 2 ^ 32 }
        ensures { place_of result ≡ whole_of self }
    {
        Ending {
            item: self.item + 1,
            level: self.next,
            extent: self.need,
            overflow: true,
        }
    }
}

/// The better of the two: the lower level, and among equals the later.
fn better(best: Option<Ending>, later: Ending) -> Ending
    ensures { place_of result ≡ better_place (place_opt best) (place_of later) }
{
    match best {
        None => later,
        Some(best) => {
            if rank_of(later.level) <= rank_of(best.level) {
                later
            } else {
                best
            }
        }
    }
}

/// The best ending so far, with the last seam of this level among them.
pub fn with_last(best: Option<Ending>, last: Option<Ending>, level: Level) -> Option<Ending>
    ensures { place_opt result ≡ considered (place_opt best) (place_opt last) level }
{
    match last {
        None => best,
        Some(last) => Some(better(best, Ending { level, ..last })),
    }
}

/// The place of an ending.
pub fn at_seam(alloc: Global, ending: Ending) -> Spot
    ensures place { spot_place result ≡ place_of ending }
    ensures level { is_forced result.level ≡ false }
{
    Spot {
        end: Token::start(alloc, ending.item),
        level: unforced(ending.level),
        extent: ending.extent,
        overflow: ending.overflow,
    }
}

/// Where a column ends that places an item whole though it overflows, unless there is a seam.
pub fn seam_or_whole(alloc: Global, best: Option<Ending>, here: Here) -> Spot
    requires { here.item + 1 < 2 ^ 32 }
    ensures place { spot_place result ≡ unwrap_or (place_opt best) (whole_of here) }
    ensures level { is_forced result.level ≡ false }
{
    match best {
        Some(best) => at_seam(alloc, best),
        None => at_seam(alloc, here.whole()),
    }
}

/// Whether the row of an item is filled: there is too little room for it, and it begins high enough or is the column's first
/// item.
pub fn is_filled(high: Units, room: Units, begins: bool, best: Option<Ending>) -> bool
    ensures { result ≡ (nat_lt room high && (begins || is_none (place_opt best))) }
{
    room < high && (begins || best.is_none())
}
