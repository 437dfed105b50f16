//! Where a column ends that stops at a row, and how far above its height that may change.

ghost use Rattle.std.specs.Prelude.{◌≡◌, ℕ, ◌+◌, ◌-◌, ◌^◌, ◌<◌, ◌≤◌, Option, Some, None, [], ◌∷◌, cond, length, nat_lt, true};
ghost use Rattle.std.specs.Prelude.{false, ◌&&◌};
ghost use Rattle.flow_list.specs.Column.{Filled as AnyFilled, bounds_at, inside_place, is_cut, is_forced, rank, room, tail_from};
ghost use Rattle.flow_list.specs.Folds.{shortage};
ghost use Rattle.flow_list.specs.Tokens.{Token as Place};
ghost use Rattle.column_walk.specs.Endings.{IsSmall, place_opt, spot_place, step_of};
ghost use Rattle.column_walk.specs.Stopping.{IsMade, chosen_of, least_of, takes_inside};

use crate::endings::{Ending, Here, Spot, at_seam, rank_of, unforced};
use column_strip::Laying;
use flow_list::Edge;
use inner_rows::Filled;
use mc_base::{Level, Token, Units};
use std::alloc::Global;

/// The place after the row that is filled, or within it.
fn end_of(alloc: Global, here: Here, filled: &Filled) -> Token
    requires item { here.item + 1 < 2 ^ 32 }
    requires end { length filled.now.end ≤ 2 }
    ensures { result ≡ cond filled.now.at_end ((here.item + 1) ∷ []) (here.item ∷ filled.now.end) }
{
    if filled.at_end {
        Token::start(alloc, here.item + 1)
    } else {
        Token::within(here.item, &filled.end)
    }
}

/// How far a column reaches that fills the row of an item at a height: after the tail of the next seam, or to the cloned edges.
fn extent_of(here: Here, room: Units, tail: &[Edge], at_end: bool) -> Units
    requires room { here.y + room < 2 ^ 61 }
    requires small { IsSmall tail.now here }
    ensures { result ≡ cond at_end (tail_from (here.y + room) tail.now + here.bottoms_after) (here.y + room + here.bottoms) }
{
    if at_end {
        Laying::new(here.y + room, false).lay_all(tail).y + here.bottoms_after
    } else {
        here.y + room + here.bottoms
    }
}

/// Whether the tail of the next seam goes beyond where the cloned edges below the open boxes would stand.
fn tail_overflows(here: Here, tail: &[Edge]) -> bool
    requires { IsSmall tail.now here }
    ensures { result ≡ nat_lt here.bottoms (tail_from 0 tail.now + here.bottoms_after) }
{
    here.bottoms < Laying::new(0, false).lay_all(tail).y + here.bottoms_after
}

/// The level of a break within a row: 2 where an open box avoids it, else the row's.
fn inside_level(avoids: bool, level: Level) -> Level
    ensures { rank result ≡ cond avoids 2 (rank level) }
{
    if avoids { Level::L2 } else { level }
}

/// The place inside a row that is filled, or after it where its end was reached.
pub fn inside_spot(alloc: Global, here: Here, room: Units, tail: &[Edge], filled: &Filled) -> Spot
    requires item { here.item + 1 < 2 ^ 32 }
    requires room { here.y + room < 2 ^ 61 }
    requires small { IsSmall tail.now here }
    requires end { length filled.now.end ≤ 2 }
    ensures { (made : AnyFilled) (row : Option (ℕ × Place)) → IsMade made room filled.now →
        spot_place result ≡ inside_place here.avoids (step_of here row tail.now) room made }
{
    Spot {
        end: end_of(alloc, here, filled),
        level: inside_level(here.avoids, filled.level),
        extent: extent_of(here, room, tail, filled.at_end),
        overflow: filled.at_end && tail_overflows(here, tail),
    }
}

/// Whether a place inside a row is taken: where it is a good one it goes before a seam that is no better.
pub fn takes_it(best: Option<Ending>, inside: &Spot, good: bool) -> bool
    ensures { result ≡ takes_inside (place_opt best) good (spot_place inside.now) }
{
    match best {
        None => true,
        Some(best) => good && rank_of(inside.level) <= rank_of(best.level),
    }
}

/// Of the best seam and the place inside a row the better one; without a seam that place, as an overflow where it is no good one.
pub fn chosen_spot(alloc: Global, best: Option<Ending>, inside: Spot, good: bool) -> Spot
    ensures place { spot_place result ≡ chosen_of (place_opt best) good (spot_place inside) }
    ensures level { is_forced result.level ≡ false }
{
    match best {
        None => Spot {
            end: inside.end,
            level: unforced(inside.level),
            extent: inside.extent,
            overflow: !good || inside.overflow,
        },
        Some(best) => {
            if good && rank_of(inside.level) <= rank_of(best.level) {
                Spot {
                    end: inside.end,
                    level: unforced(inside.level),
                    extent: inside.extent,
                    overflow: inside.overflow,
                }
            } else {
                at_seam(alloc, best)
            }
        }
    }
}

/// The lesser of a number and what may be another.
fn lesser(a: Units, b: Option<Units>) -> Units
    ensures { result ≡ least_of a b }
{
    match b {
        None => a,
        Some(b) => a.min(b),
    }
}

/// How far above a height a row that begins too low would begin within it, where the row has a height.
fn begin_short(here: Here, height: Units) -> Option<Units>
    requires { IsSmall [] here }
    ensures { result ≡ cond (nat_lt 0 here.height && nat_lt height (here.y + here.bottoms))
        (Some (here.y + here.bottoms - height)) None }
{
    let begin = here.y + here.bottoms;
    if here.height > 0 && height < begin {
        Some(begin - height)
    } else {
        None
    }
}

/// How far above a height a column may change that stops at a row: where the row would fit, where it would begin within the
/// height, where it would fit in its room, and where one of its own columns may change, which is `inner` above the room.
pub fn row_short(here: Here, height: Units, cuts: bool, inner: Option<Units>) -> Units
    requires above { height < here.need }
    requires small { IsSmall [] here }
    requires cut { cuts ≡ is_cut (step_of here None []) height }
    ensures { (made : AnyFilled) → (cuts ≡ true → inner ≡ shortage (room (step_of here None []) height) made.bounds) →
        Some result ≡ shortage height (bounds_at (step_of here None []) height (Some made)) }
{
    let least = lesser(here.need - height, begin_short(here, height));
    if cuts {
        lesser(
            least.min(here.y + here.bottoms + here.height - height),
            inner,
        )
    } else {
        least
    }
}
