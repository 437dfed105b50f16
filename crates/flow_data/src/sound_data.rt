//! Whether data is sound, as sealed flows are.

ghost use Rattle.std.specs.Prelude.{◌≡◌, ◌↔◌, ◌==◌, ◌≤◌, ◌<◌, ◌^◌, true, All, EachIndex, IfOk, if◌then◌else◌, length, flat_map};
ghost use Rattle.flow_data.specs.declared.data.BoxInfo.{BoxInfo as Info};
ghost use Rattle.flow_data.specs.declared.data.Stack.{Stack as Laid};
ghost use Rattle.flow_data.specs.Flows.{rows_in, flow_in};
ghost use Rattle.flow_data.specs.Soundness.{IsSound, IsSoundFlow, IsSoundRow, IsInnerRow, NestsAtMost, count_of, flow_owners};
ghost use Rattle.flow_data.specs.Soundness.{stacks_in, stacks_within};

use crate::across::fits_across;
use crate::belongs::{flows_belong, rows_belong, stacks_belong};
use crate::data::FlowsData;
use crate::sizes::{heights_are_low, items_are_few};
use crate::sound_flow::is_sound_flow;
use crate::sound_rows::{boxes_are_sound, inner_rows_are_sound, rows_are_sound, rows_nest};
use crate::sound_stacks::{stacks_are_in_range, stacks_name_later};
use mc_base::NoMemory;
use std::alloc::Global;

/// The least number of flows, rows, boxes or stacks that is too great.
const TOO_MANY: usize = 1 << 32;

/// Whether data is sound: the test that is to be passed before it is sealed.
///
/// Data is sound where all of this is so:
///
/// - There are fewer than 2^32 flows, rows, boxes and stacks, and at least one stack. Each number names one that is there.
/// - A flow has fewer than 2^32 items, and one seam more than items. Boxes start in heads and end in tails.
/// - No box stands twice in one flow: boxes that are open at its start, and those that start in it, are all different.
///   They are well nested, and none of them is empty there.
/// - Where `top` of a box isn't 0, a solid edge of this amount stands at once after its start, and where `bottom` isn't 0,
///   one of that amount at once before its end.
/// - Each flow belongs to one row or one stack, and each row to one item. The first stack is named by no atom, each
///   other one by one atom, in a stack before it, whose height is the stack's own (`Bound::Left`).
/// - A row has from 1 to 32 columns, and at most 2^25 units from one to the next.
/// - A row that stands directly in another has the greater number, from 1 to 2,000 items, and is balanced. At most three
///   rows stand one inside another.
/// - There are at most 100,000 items of rows and atoms of stacks together.
/// - An atom is at most 2^24 units high. All heights together are below 2^60 units: those of atoms, margins and solid
///   edges, and in each flow `top` and `bottom` of each box that stands there, once more.
/// - Each `x` and each `w` is below 2^60 units, and so is each `x` from the left of the first stack.
///
/// The one other answer is that memory ran out.
pub fn sound(alloc: Global, parts: &FlowsData) -> Result<bool, NoMemory>
    ensures { IfOk result (λ found. (found ≡ true) ↔ IsSound parts.now) }
{
    if !has_such_counts(parts) {
        return Ok(false);
    }
    if !are_in_range(parts) {
        return Ok(false);
    }
    if !flows_are_sound(alloc, parts)? {
        return Ok(false);
    }
    if !belong(alloc, parts)? {
        return Ok(false);
    }
    if !nest(parts) {
        return Ok(false);
    }
    if !items_are_few(parts) || !heights_are_low(parts) {
        return Ok(false);
    }
    fits_across(alloc, parts)
}

/// Whether there are fewer than 2^32 flows, rows, boxes and stacks, and a stack.
fn has_such_counts(parts: &FlowsData) -> bool
    ensures { (result ≡ true) ↔ ((length parts.now.flows < 2 ^ 32) × (length parts.now.rows < 2 ^ 32)
        × (length parts.now.boxes < 2 ^ 32)
        × (length parts.now.stacks < 2 ^ 32) × (0 < length parts.now.stacks)) }
{
    parts.flows.len() < TOO_MANY
        && parts.rows.len() < TOO_MANY
        && parts.boxes.len() < TOO_MANY
        && parts.stacks.len() < TOO_MANY
        && !parts.stacks.is_empty()
}

fn are_in_range(parts: &FlowsData) -> bool
    ensures { (result ≡ true) ↔ (All (IsSoundRow parts.now) parts.now.rows
        × All (λ (b : Info). (b.x < 2 ^ 60) × (b.w < 2 ^ 60)) parts.now.boxes
        × All (λ (s : Laid). (s.flow < length parts.now.flows) × (s.w < 2 ^ 60)) parts.now.stacks) }
{
    rows_are_sound(parts) && boxes_are_sound(parts) && stacks_are_in_range(parts)
}

fn flows_are_sound(alloc: Global, parts: &FlowsData) -> Result<bool, NoMemory>
    ensures { IfOk result (λ found. (found ≡ true) ↔ All (IsSoundFlow parts.now) parts.now.flows) }
{
    for flow in parts.flows.as_slice() {
        if !is_sound_flow(alloc, parts, flow)? {
            return Ok(false);
        }
    }
    Ok(true)
}

/// Whether each flow, row and stack belongs to just one part.
fn belong(alloc: Global, parts: &FlowsData) -> Result<bool, NoMemory>
    ensures { IfOk result (λ found. (found ≡ true) ↔ (EachIndex parts.now.flows (λ f. count_of f (flow_owners parts.now) ≡ 1)
        × EachIndex parts.now.rows (λ r. count_of r (flat_map rows_in parts.now.flows) ≡ 1)
        × EachIndex parts.now.stacks (λ s. count_of s (flat_map stacks_in parts.now.flows) ≡ (if s == 0 then 0 else 1)))) }
{
    if !flows_belong(alloc, parts)? {
        return Ok(false);
    }
    if !rows_belong(alloc, parts)? {
        return Ok(false);
    }
    stacks_belong(alloc, parts)
}

/// Whether rows stand in rows, and stacks in stacks, as they may.
fn nest(parts: &FlowsData) -> bool
    requires rows { length parts.now.rows < 2 ^ 32 }
    requires stacks { length parts.now.stacks < 2 ^ 32 }
    ensures { (result ≡ true) ↔ (EachIndex parts.now.rows
        (λ outer. All (IsInnerRow parts.now outer) (rows_in (flow_in parts.now outer)))
        × EachIndex parts.now.rows (NestsAtMost parts.now 3)
        × EachIndex parts.now.stacks (λ s. All (λ named. s < named) (stacks_within parts.now s))) }
{
    if !inner_rows_are_sound(parts) {
        return false;
    }
    rows_nest(parts) && stacks_name_later(parts)
}
