//! Whether a flow is sound: its items, its seams, and the boxes that stand in it.

ghost use Rattle.std.specs.Prelude.{◌≡◌, ◌↔◌, ◌+◌, ◌^◌, ◌<◌, true, IsTrue, IfOk, All, length};
ghost use Rattle.flow_data.specs.Soundness.{IsSoundAtom, IsSoundItem, IsSoundFlow, IsSoundSeam, HasStackOfItsHeight, owners_in};
ghost use Rattle.flow_data.specs.Soundness.{kind_x, kind_w};
ghost use Rattle.flow_data.specs.Flows.{stack_of};

use crate::data::{AtomKind, Bound, Flow, FlowsData, Item, Seam};
use crate::parts::LENGTH_LIMIT;
use crate::sound_boxes::{are_filled, are_sound_boxes};
use crate::sound_seams::is_sound_seam;
use mc_base::{NoMemory, Units};
use std::alloc::Global;

/// The greatest height of an atom.
const MOST_HEIGHT: Units = 1 << 24;
/// A flow has fewer items than this.
const ITEM_LIMIT: usize = 1 << 32;

/// Whether a stack is one of the data and has this height as its own.
fn has_height(parts: &FlowsData, stack: u32, height: Units) -> bool
    ensures { IsTrue result ↔ ((stack < length parts.now.stacks) × ((stack_of parts.now stack).bound ≡ Bound.Left height)) }
{
    match parts.stacks.as_slice().get(stack as usize) {
        Some(stack) => matches!(stack.bound, Bound::Left(own) if own == height),
        None => false,
    }
}

/// Whether the box that an atom names is one of the data.
fn has_known_owner(parts: &FlowsData, kind: &AtomKind) -> bool
    ensures { IsTrue result ↔ All (λ b. b < length parts.now.boxes) (owners_in kind.now) }
{
    match kind {
        AtomKind::Plain => true,
        AtomKind::Line { owner, .. }
        | AtomKind::Void { owner, .. }
        | AtomKind::Image { owner, .. }
        | AtomKind::Bounded { owner, .. } => (*owner as usize) < parts.boxes.len(),
    }
}

/// Whether an atom stands at a place below the limit and is no wider.
fn is_placed(kind: &AtomKind) -> bool
    ensures { IsTrue result ↔ ((kind_x kind.now < 2 ^ 60) × (kind_w kind.now < 2 ^ 60)) }
{
    match kind {
        AtomKind::Plain => true,
        AtomKind::Line { x, w, .. } | AtomKind::Void { x, w, .. } | AtomKind::Image { x, w, .. } =>
            { *x < LENGTH_LIMIT && *w < LENGTH_LIMIT }
        AtomKind::Bounded { x, .. } => *x < LENGTH_LIMIT,
    }
}

/// Whether the stack that an atom names, if it names one, has the atom's height as its own.
fn has_stack(parts: &FlowsData, height: Units, kind: &AtomKind) -> bool
    ensures { IsTrue result ↔ HasStackOfItsHeight parts.now height kind.now }
{
    match kind {
        AtomKind::Bounded { stack, .. } => has_height(parts, *stack, height),
        _ => true,
    }
}

/// Whether an atom of the data is sound.
fn is_sound_atom(parts: &FlowsData, height: Units, kind: &AtomKind) -> bool
    ensures { IsTrue result ↔ IsSoundAtom parts.now height kind.now }
{
    height <= MOST_HEIGHT
        && has_known_owner(parts, kind)
        && is_placed(kind)
        && has_stack(parts, height, kind)
}

/// Whether an item of the data is sound.
fn is_sound_item(parts: &FlowsData, item: &Item) -> bool
    ensures { IsTrue result ↔ IsSoundItem parts.now item.now }
{
    match item {
        Item::Atom { height, kind } => is_sound_atom(parts, *height, kind),
        Item::Row(row) => (*row as usize) < parts.rows.len(),
    }
}

/// Whether the items of a flow are sound.
fn are_sound_items(parts: &FlowsData, items: &[Item]) -> bool
    ensures { IsTrue result ↔ All (IsSoundItem parts.now) items.now }
{
    items.iter().all(|item| is_sound_item(parts, item))
}

/// Whether the seams of a flow are sound.
fn are_sound_seams(parts: &FlowsData, seams: &[Seam]) -> bool
    ensures { IsTrue result ↔ All (IsSoundSeam parts.now) seams.now }
{
    seams.iter().all(|seam| is_sound_seam(parts, seam))
}

/// Whether the items and the seams of a flow are sound, and there is one seam more than items.
fn has_sound_parts(parts: &FlowsData, flow: &Flow) -> bool
    ensures { IsTrue result ↔ ((length flow.now.items < 2 ^ 32)
        × (length flow.now.seams ≡ length flow.now.items + 1)
        × All (IsSoundItem parts.now) flow.now.items
        × All (IsSoundSeam parts.now) flow.now.seams) }
{
    flow.items.len() < ITEM_LIMIT
        && flow.seams.len() == flow.items.len() + 1
        && are_sound_items(parts, flow.items.as_slice())
        && are_sound_seams(parts, flow.seams.as_slice())
}

/// Whether a flow of the data is sound.
pub fn is_sound_flow(alloc: Global, parts: &FlowsData, flow: &Flow) -> Result<bool, NoMemory>
    ensures { IfOk result (λ found. (found ≡ true) ↔ IsSoundFlow parts.now flow.now) }
{
    if !has_sound_parts(parts, flow) || !are_sound_boxes(alloc, parts, flow)? {
        return Ok(false);
    }
    Ok(are_filled(flow))
}
