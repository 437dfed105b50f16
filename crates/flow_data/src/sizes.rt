//! Whether the items and the heights of all flows stay below their limits. Sums end at the greatest `u64`.

ghost use Rattle.std.specs.Prelude.{◌≡◌, ◌↔◌, ◌+◌, ◌-◌, ◌<◌, ◌≤◌, ◌^◌, true, length, min, sum_by, count_by, flat_map};
ghost use Rattle.flow_data.specs.declared.data.RowInfo.{RowInfo as Row};
ghost use Rattle.flow_data.specs.declared.data.Seam.{Seam as Between};
ghost use Rattle.flow_data.specs.declared.data.Stack.{Stack as Laid};
ghost use Rattle.flow_data.specs.Flows.{flow_of, atom_height, amount, started, starts_in};
ghost use Rattle.flow_data.specs.Sizes.{cloned_height};
ghost use Rattle.flow_data.specs.Soundness as soundness;
ghost use Rattle.flow_data.specs.Soundness.{item_total, is_atom};

use crate::data::{Edge, Flow, FlowsData, Item, Seam};
use crate::parts::{LENGTH_LIMIT, box_of, items_of};
use mc_base::Units;

/// The most items of rows, and atoms of stacks.
const MOST_ITEMS: u64 = 100_000;

/// How many items the flows of all rows have.
fn row_items(parts: &FlowsData) -> u64
    ensures { result ≡ min (sum_by (λ (r : Row). length (flow_of parts.now r.flow).items) parts.now.rows) (2 ^ 64 - 1) }
{
    let mut count = 0u64;
    for row in parts.rows.as_slice() {
        count = count.saturating_add(items_of(parts, row.flow).len() as u64);
    }
    count
}

/// How many of the items are atoms.
fn atom_count(items: &[Item]) -> usize
    ensures { result ≡ count_by is_atom items.now }
{
    items
        .iter()
        .filter(|item| matches!(item, Item::Atom { .. }))
        .count()
}

/// How many atoms the flows of all stacks have.
fn stack_atoms(parts: &FlowsData) -> u64
    ensures { result ≡ min (sum_by (λ (s : Laid). count_by is_atom (flow_of parts.now s.flow).items) parts.now.stacks)
        (2 ^ 64 - 1) }
{
    let mut count = 0u64;
    for stack in parts.stacks.as_slice() {
        count = count.saturating_add(atom_count(items_of(parts, stack.flow)) as u64);
    }
    count
}

/// Whether rows have items, and stacks atoms, within the limit.
pub fn items_are_few(parts: &FlowsData) -> bool
    ensures { (result ≡ true) ↔ item_total parts.now ≤ 100000 }
{
    row_items(parts).saturating_add(stack_atoms(parts)) <= MOST_ITEMS
}

/// The height of the atoms among items.
fn atoms_height(items: &[Item]) -> Units
    ensures { result ≡ min (sum_by atom_height items.now) (2 ^ 64 - 1) }
{
    let mut sum: Units = 0;
    for item in items {
        if let Item::Atom { height, .. } = item {
            sum = sum.saturating_add(*height);
        }
    }
    sum
}

/// The margins, borders and paddings of edges together.
fn edges_height(edges: &[Edge]) -> Units
    ensures { result ≡ min (sum_by amount edges.now) (2 ^ 64 - 1) }
{
    let mut sum: Units = 0;
    for edge in edges {
        if let Edge::Margin(units) | Edge::Solid(units) = edge {
            sum = sum.saturating_add(*units);
        }
    }
    sum
}

/// The cloned edges of a box together.
fn box_height(parts: &FlowsData, number: u32) -> Units
    ensures { result ≡ min (cloned_height parts.now number) (2 ^ 64 - 1) }
{
    let info = box_of(parts, number);
    info.top.saturating_add(info.bottom)
}

/// The cloned edges of boxes together.
fn boxes_height(parts: &FlowsData, boxes: &[u32]) -> Units
    ensures { result ≡ min (sum_by (cloned_height parts.now) boxes.now) (2 ^ 64 - 1) }
{
    let mut sum: Units = 0;
    for number in boxes {
        sum = sum.saturating_add(box_height(parts, *number));
    }
    sum
}

/// The cloned edges of the boxes that start among edges.
fn started_height(parts: &FlowsData, edges: &[Edge]) -> Units
    ensures { result ≡ min (sum_by (cloned_height parts.now) (flat_map started edges.now)) (2 ^ 64 - 1) }
{
    let mut sum: Units = 0;
    for edge in edges {
        if let Edge::Start(number) = edge {
            sum = sum.saturating_add(box_height(parts, *number));
        }
    }
    sum
}

/// The edges of seams, and the cloned edges of the boxes that start in their heads.
fn seams_height(parts: &FlowsData, seams: &[Seam]) -> Units
    ensures { result ≡ min (sum_by (λ (s : Between). sum_by amount s.tail + sum_by amount s.head) seams.now
        + sum_by (cloned_height parts.now) (starts_in seams.now)) (2 ^ 64 - 1) }
{
    let mut sum: Units = 0;
    for seam in seams {
        sum = sum
            .saturating_add(edges_height(seam.tail.as_slice()))
            .saturating_add(edges_height(seam.head.as_slice()))
            .saturating_add(started_height(parts, seam.head.as_slice()));
    }
    sum
}

/// The heights of a flow's atoms, its edges, and the cloned edges of its boxes.
fn flow_height(parts: &FlowsData, flow: &Flow) -> Units
    ensures { result ≡ min (soundness.flow_height parts.now flow.now) (2 ^ 64 - 1) }
{
    atoms_height(flow.items.as_slice())
        .saturating_add(seams_height(parts, flow.seams.as_slice()))
        .saturating_add(boxes_height(parts, flow.opened.as_slice()))
}

/// Whether all heights together are below 2^60.
pub fn heights_are_low(parts: &FlowsData) -> bool
    ensures { (result ≡ true) ↔ sum_by (soundness.flow_height parts.now) parts.now.flows < 2 ^ 60 }
{
    let mut sum: Units = 0;
    for flow in parts.flows.as_slice() {
        sum = sum.saturating_add(flow_height(parts, flow));
    }
    sum < LENGTH_LIMIT
}
