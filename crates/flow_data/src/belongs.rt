//! Whether each flow, row and stack belongs to just one part.

ghost use Rattle.std.specs.Prelude.{◌≡◌, ◌↔◌, ◌<◌, ◌+◌, ◌==◌, ◌^◌, ◌∷◌, ◌++◌, ℕ, true, EachIndex, IfOk, OnOk, if◌then◌else◌};
ghost use Rattle.std.specs.Prelude.{slice_index, length, min, flat_map};
ghost use Rattle.flow_data.specs.Flows.{row_in, rows_in};
ghost use Rattle.flow_data.specs.Soundness.{count_of, flow_owners, stack_in, stacks_in};

use crate::data::{AtomKind, FlowsData, Item};
use mc_base::NoMemory;
use std::alloc::{AllocError, Global};

/// Counts a number once more. A count ends at 255.
fn note(counts: &mut [u8], number: u32)
    ensures { EachIndex counts.new
        (λ k. slice_index counts.new k ≡ min (slice_index counts.old k + (if number == k then 1 else 0)) 255) }
{
    let number = number as usize;
    if number < counts.len() {
        counts[number] = counts[number].saturating_add(1);
    }
}

/// Whether each number below `n` stands just once in a list.
fn each_stands_once(alloc: Global, n: usize, numbers: &[u32]) -> Result<bool, NoMemory>
    ensures { IfOk result (λ found. (found ≡ true) ↔ ((k : ℕ) → k < n → count_of k numbers.now ≡ 1)) }
{
    let mut counts = vec![in alloc; 0u8; n]?;
    for number in numbers {
        note(counts.as_mut_slice(), *number);
    }
    Ok(counts.iter().all(|count| *count == 1))
}

/// The flows of the rows, then those of the stacks.
fn flow_owners(alloc: Global, parts: &FlowsData) -> Result<Vec<u32>, NoMemory>
    ensures { IfOk result (λ numbers. numbers.items ≡ flow_owners parts.now) }
{
    let rows = parts.rows.as_slice().iter().map(|row| row.flow);
    let stacks = parts.stacks.as_slice().iter().map(|stack| stack.flow);
    Ok(rows.chain(stacks).collect(alloc)?)
}

/// Adds the rows among items.
fn push_rows(rows: &mut Vec<u32>, items: &[Item]) -> Result<(), AllocError>
    ensures { OnOk result (rows.new.items ≡ rows.old.items ++ flat_map row_in items.now) }
{
    for item in items {
        if let Item::Row(row) = item {
            rows.push(*row)?;
        }
    }
    Ok(())
}

/// Adds the stacks that items name.
fn push_stacks(stacks: &mut Vec<u32>, items: &[Item]) -> Result<(), AllocError>
    ensures { OnOk result (stacks.new.items ≡ stacks.old.items ++ flat_map stack_in items.now) }
{
    for item in items {
        if let Item::Atom {
            kind: AtomKind::Bounded { stack, .. },
            ..
        } = item
        {
            stacks.push(*stack)?;
        }
    }
    Ok(())
}

/// The rows of all flows.
fn named_rows(alloc: Global, parts: &FlowsData) -> Result<Vec<u32>, NoMemory>
    ensures { IfOk result (λ numbers. numbers.items ≡ flat_map rows_in parts.now.flows) }
{
    let mut rows = Vec::new(alloc);
    for flow in parts.flows.as_slice() {
        push_rows(&mut rows, flow.items.as_slice())?;
    }
    Ok(rows)
}

/// Stack 0, which belongs to the whole, and the stacks that atoms of all flows name.
fn named_stacks(alloc: Global, parts: &FlowsData) -> Result<Vec<u32>, NoMemory>
    ensures { IfOk result (λ numbers. numbers.items ≡ 0 ∷ flat_map stacks_in parts.now.flows) }
{
    let mut stacks = vec![in alloc; 0]?;
    for flow in parts.flows.as_slice() {
        push_stacks(&mut stacks, flow.items.as_slice())?;
    }
    Ok(stacks)
}

/// Whether each flow belongs to one row or stack.
pub fn flows_belong(alloc: Global, parts: &FlowsData) -> Result<bool, NoMemory>
    ensures { IfOk result (λ found. (found ≡ true) ↔ EachIndex parts.now.flows (λ f. count_of f (flow_owners parts.now) ≡ 1)) }
{
    let numbers = flow_owners(alloc, parts)?;
    each_stands_once(alloc, parts.flows.len(), &numbers)
}

/// Whether each row belongs to one item.
pub fn rows_belong(alloc: Global, parts: &FlowsData) -> Result<bool, NoMemory>
    ensures { IfOk result (λ found. (found ≡ true) ↔ EachIndex parts.now.rows
        (λ r. count_of r (flat_map rows_in parts.now.flows) ≡ 1)) }
{
    let numbers = named_rows(alloc, parts)?;
    each_stands_once(alloc, parts.rows.len(), &numbers)
}

/// Whether stack 0 is named by no atom, and each other stack by one.
pub fn stacks_belong(alloc: Global, parts: &FlowsData) -> Result<bool, NoMemory>
    ensures { IfOk result (λ found. (found ≡ true) ↔ EachIndex parts.now.stacks
        (λ s. count_of s (flat_map stacks_in parts.now.flows) ≡ (if s == 0 then 0 else 1))) }
{
    let numbers = named_stacks(alloc, parts)?;
    each_stands_once(alloc, parts.stacks.len(), &numbers)
}
