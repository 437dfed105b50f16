//! Whether rows and boxes are sound.

ghost use Rattle.std.specs.Prelude.{◌≡◌, ◌↔◌, ◌<◌, ◌^◌, ℕ, true, All, EachIndex, length};
ghost use Rattle.flow_data.specs.declared.data.BoxInfo.{BoxInfo as Info};
ghost use Rattle.flow_data.specs.Flows.{rows_in, flow_in};
ghost use Rattle.flow_data.specs.Flows as parts_by_number;
ghost use Rattle.flow_data.specs.Soundness.{IsSoundRow, IsInnerRow, NestsAtMost};

use crate::data::{FlowsData, Item, RowInfo};
use crate::parts::{LENGTH_LIMIT, MOST_NESTED, items_of, row_of};
use mc_base::Units;

/// The most columns that a row can want.
const MOST_COLUMNS: u32 = 32;
/// The greatest distance from one column to the next, in units.
const MOST_STEP: Units = 1 << 25;
/// The most items of a row that stands in another row.
const MOST_INNER_ITEMS: usize = 2000;

fn is_sound_row(parts: &FlowsData, row: &RowInfo) -> bool
    ensures { (result ≡ true) ↔ IsSoundRow parts.now row.now }
{
    (row.flow as usize) < parts.flows.len()
        && row.n > 0
        && row.n <= MOST_COLUMNS
        && row.step <= MOST_STEP
        && row.x < LENGTH_LIMIT
        && row.w < LENGTH_LIMIT
}

/// Whether each row is sound by itself.
pub fn rows_are_sound(parts: &FlowsData) -> bool
    ensures { (result ≡ true) ↔ All (IsSoundRow parts.now) parts.now.rows }
{
    parts
        .rows
        .as_slice()
        .iter()
        .all(|row| is_sound_row(parts, row))
}

/// Whether each box has its place and width below 2^60.
pub fn boxes_are_sound(parts: &FlowsData) -> bool
    ensures { (result ≡ true) ↔ All (λ (b : Info). (b.x < 2 ^ 60) × (b.w < 2 ^ 60)) parts.now.boxes }
{
    parts
        .boxes
        .as_slice()
        .iter()
        .all(|info| info.x < LENGTH_LIMIT && info.w < LENGTH_LIMIT)
}

fn is_inner_row(parts: &FlowsData, outer: u32, inner: u32) -> bool
    ensures { (result ≡ true) ↔ IsInnerRow parts.now outer inner }
{
    let row = row_of(parts, inner);
    let count = items_of(parts, row.flow).len();
    outer < inner && count > 0 && count <= MOST_INNER_ITEMS && !row.auto
}

fn may_stand_in(parts: &FlowsData, outer: u32, item: &Item) -> bool
    ensures { (result ≡ true) ↔ All (IsInnerRow parts.now outer) (parts_by_number.row_in item.now) }
{
    match item {
        Item::Atom { .. } => true,
        Item::Row(inner) => is_inner_row(parts, outer, *inner),
    }
}

fn may_all_stand_in(parts: &FlowsData, outer: u32, items: &[Item]) -> bool
    ensures { (result ≡ true) ↔ All (λ item. All (IsInnerRow parts.now outer) (parts_by_number.row_in item)) items.now }
{
    items.iter().all(|item| may_stand_in(parts, outer, item))
}

fn has_inner_rows(parts: &FlowsData, outer: u32) -> bool
    ensures { (result ≡ true) ↔ All (IsInnerRow parts.now outer) (rows_in (flow_in parts.now outer)) }
{
    let items = items_of(parts, row_of(parts, outer).flow);
    may_all_stand_in(parts, outer, items)
}

/// Whether the rows that stand directly in rows are inner rows.
pub fn inner_rows_are_sound(parts: &FlowsData) -> bool
    requires { length parts.now.rows < 2 ^ 32 }
    ensures { (result ≡ true) ↔ EachIndex parts.now.rows
        (λ outer. All (IsInnerRow parts.now outer) (rows_in (flow_in parts.now outer))) }
{
    for outer in 0..parts.rows.len() as u32 {
        if !has_inner_rows(parts, outer) {
            return false;
        }
    }
    true
}

/// Whether at most `n` rows stand one inside another from a row on, itself included.
fn nests_at_most(parts: &FlowsData, n: u32, row: u32) -> bool
    ensures { (result ≡ true) ↔ NestsAtMost parts.now n row }
{
    if n == 0 {
        return false;
    }
    for item in items_of(parts, row_of(parts, row).flow) {
        if let Item::Row(inner) = item
            && !nests_at_most(parts, n - 1, *inner)
        {
            return false;
        }
    }
    true
}

/// Whether at most three rows stand one inside another.
pub fn rows_nest(parts: &FlowsData) -> bool
    requires { length parts.now.rows < 2 ^ 32 }
    ensures { (result ≡ true) ↔ EachIndex parts.now.rows (NestsAtMost parts.now 3) }
{
    for row in 0..parts.rows.len() as u32 {
        if !nests_at_most(parts, MOST_NESTED, row) {
            return false;
        }
    }
    true
}
