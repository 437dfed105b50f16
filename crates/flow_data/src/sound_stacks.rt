//! Whether stacks are sound.

ghost use Rattle.std.specs.Prelude.{◌≡◌, ◌↔◌, ◌<◌, ◌^◌, true, All, EachIndex, length, flat_map};
ghost use Rattle.flow_data.specs.declared.data.Stack.{Stack as Laid};
ghost use Rattle.flow_data.specs.Flows.{flow_of};
ghost use Rattle.flow_data.specs.Soundness.{stack_in, stacks_in, flows_within, stacks_within};

use crate::data::{AtomKind, FlowsData, Item};
use crate::parts::{LENGTH_LIMIT, MOST_NESTED, items_of, row_of, stack_of};
use mc_base::Units;

/// Whether each stack has a flow of the data, and its width below 2^60.
pub fn stacks_are_in_range(parts: &FlowsData) -> bool
    ensures { (result ≡ true) ↔ All (λ (s : Laid). (s.flow < length parts.now.flows) × (s.w < 2 ^ 60)) parts.now.stacks }
{
    parts.stacks.as_slice().iter().all(|stack| (stack.flow as usize) < parts.flows.len()
        && stack.w < LENGTH_LIMIT)
}

fn names_behind(stack: u32, item: &Item) -> bool
    ensures { (result ≡ true) ↔ All (λ named. stack < named) (stack_in item.now) }
{
    match item {
        Item::Atom {
            kind: AtomKind::Bounded { stack: named, .. },
            ..
        } => stack < *named,
        _ => true,
    }
}

fn all_name_behind(stack: u32, items: &[Item]) -> bool
    ensures { (result ≡ true) ↔ All (λ item. All (λ named. stack < named) (stack_in item)) items.now }
{
    items.iter().all(|item| names_behind(stack, item))
}

/// Whether a flow and those of the rows in it, `depth` rows deep, name only stacks after this one.
fn names_later(parts: &FlowsData, stack: u32, flow: u32, depth: u32) -> bool
    ensures { (result ≡ true) ↔ All (λ named. stack < named)
        (flat_map (λ f. stacks_in (flow_of parts.now f)) (flows_within parts.now depth flow)) }
{
    let items = items_of(parts, flow);
    if !all_name_behind(stack, items) {
        return false;
    }
    if depth == 0 {
        return true;
    }
    for item in items {
        let Item::Row(row) = item else {
            continue;
        };
        if !names_later(parts, stack, row_of(parts, *row).flow, depth - 1) {
            return false;
        }
    }
    true
}

/// Whether each stack names only stacks after it.
pub fn stacks_name_later(parts: &FlowsData) -> bool
    requires { length parts.now.stacks < 2 ^ 32 }
    ensures { (result ≡ true) ↔ EachIndex parts.now.stacks (λ s. All (λ named. s < named) (stacks_within parts.now s)) }
{
    for stack in 0..parts.stacks.len() as u32 {
        if !names_later(parts, stack, stack_of(parts, stack).flow, MOST_NESTED) {
            return false;
        }
    }
    true
}
