//! The items of rows and the atoms of stacks.

ghost use Rattle.std.specs.Prelude.{◌≡◌, ◌-◌, ◌^◌, min, length, sum_by, count_by, nat_lt};
ghost use Rattle.flow_data.specs.declared.data.RowInfo.{RowInfo as Row};
ghost use Rattle.flow_data.specs.declared.data.Stack.{Stack as Laid};
ghost use Rattle.flow_data.specs.Flows.{flow_of};
ghost use Rattle.flow_data.specs.Soundness.{item_total, is_atom};

use flow_data::{FlowsData, Item};

/// The most items of rows, and atoms of stacks.
const MOST_ITEMS: u64 = 100_000;

/// The items of a flow.
fn items_of(parts: &FlowsData, flow: u32) -> &[Item]
    ensures { result.now ≡ (flow_of parts.now flow).items }
{
    match parts.flows.as_slice().get(flow as usize) {
        Some(flow) => flow.items.as_slice(),
        None => &[],
    }
}

/// How many items the flows of all rows have. The sum ends at the greatest `u64`.
fn row_items(parts: &FlowsData) -> u64
    ensures { result ≡ min (sum_by (λ (r : Row). length (flow_of parts.now r.flow).items) parts.now.rows) (2 ^ 64 - 1) }
{
    let mut count = 0u64;
    for row in parts.rows.as_slice() {
        count = count.saturating_add(items_of(parts, row.flow).len() as u64);
    }
    count
}

/// How many of the items are atoms.
fn atom_count(items: &[Item]) -> usize
    ensures { result ≡ count_by is_atom items.now }
{
    items
        .iter()
        .filter(|item| matches!(item, Item::Atom { .. }))
        .count()
}

/// How many atoms the flows of all stacks have. The sum ends at the greatest `u64`.
fn stack_atoms(parts: &FlowsData) -> u64
    ensures { result ≡ min (sum_by (λ (s : Laid). count_by is_atom (flow_of parts.now s.flow).items) parts.now.stacks)
        (2 ^ 64 - 1) }
{
    let mut count = 0u64;
    for stack in parts.stacks.as_slice() {
        count = count.saturating_add(atom_count(items_of(parts, stack.flow)) as u64);
    }
    count
}

/// Whether rows have more items, and stacks atoms, than their limit.
pub fn has_many_items(parts: &FlowsData) -> bool
    ensures { result ≡ nat_lt 100000 (item_total parts.now) }
{
    row_items(parts).saturating_add(stack_atoms(parts)) > MOST_ITEMS
}
