//! Whether the boxes of a flow are sound: each is one of the data and is named once, they are well nested, and none is
//! empty.

ghost use Rattle.std.specs.Prelude.{◌≡◌, ◌≢◌, ◌↔◌, ◌-◌, ◌<◌, ℕ, [], IsTrue, IfOk, OnOk, List as Items, ◌∷◌, ◌++◌, All, AllPairs};
ghost use Rattle.std.specs.Prelude.{length, get_or, flat_map, reverse};
ghost use Rattle.flow_data.specs.declared.data.Edge.{Edge};
ghost use Rattle.flow_data.specs.Flows.{started, ended, no_seam, seam_of, boxes_in as flow_boxes};
ghost use Rattle.flow_data.specs.Soundness.{AreNested, edges_of};

use crate::data::{Edge, Flow, FlowsData, Seam};
use crate::sound_seams::{has_no_end, has_no_start};
use mc_base::NoMemory;
use std::alloc::Global;
use std::collections::BTreeSet;

/// Whether each of these boxes is one of the data.
fn are_known(parts: &FlowsData, boxes: &[u32]) -> bool
    ensures { IsTrue result ↔ All (λ b. b < length parts.now.boxes) boxes.now }
{
    boxes
        .iter()
        .all(|number| (*number as usize) < parts.boxes.len())
}

/// Whether no box is named twice.
fn are_distinct(alloc: Global, boxes: &[u32]) -> Result<bool, NoMemory>
    ensures { IfOk result (λ found. IsTrue found ↔ AllPairs (λ a b. a ≢ b) boxes.now) }
{
    let mut seen = BTreeSet::new(alloc);
    for number in boxes {
        if !seen.insert(*number)? {
            return Ok(false);
        }
    }
    Ok(true)
}

/// Adds the boxes that start among these edges.
fn push_starts(boxes: &mut Vec<u32>, edges: &[Edge]) -> Result<(), NoMemory>
    ensures { OnOk result (boxes.new.items ≡ boxes.old.items ++ flat_map started edges.now) }
{
    for edge in edges {
        if let Edge::Start(number) = edge {
            boxes.push(*number)?;
        }
    }
    Ok(())
}

/// The boxes that stand in a flow.
fn boxes_in(alloc: Global, flow: &Flow) -> Result<Vec<u32>, NoMemory>
    ensures { IfOk result (λ boxes. boxes.items ≡ flow_boxes flow.now) }
{
    let mut boxes = Vec::from_slice(alloc, flow.opened.as_slice())?;
    for seam in flow.seams.as_slice() {
        push_starts(&mut boxes, seam.head.as_slice())?;
    }
    Ok(boxes)
}

/// Takes an edge into the boxes that are open, of which the innermost is the last: whether it ends no other than that.
fn follow(inside: &mut Vec<u32>, edge: &Edge) -> Result<bool, NoMemory>
    ensures { IfOk result (λ found. (rest : Items Edge) →
        AreNested (reverse inside.old.items) (edge.now ∷ rest) ↔ (IsTrue found × AreNested (reverse inside.new.items) rest)) }
{
    match edge {
        Edge::Start(number) => {
            inside.push(*number)?;
            Ok(true)
        }
        Edge::End(number) => Ok(inside.pop() == Some(*number)),
        _ => Ok(true),
    }
}

/// Takes edges into the boxes that are open, in order: whether each ends no other than the innermost.
fn follow_all(inside: &mut Vec<u32>, edges: &[Edge]) -> Result<bool, NoMemory>
    ensures { IfOk result (λ found. (rest : Items Edge) →
        AreNested (reverse inside.old.items) (edges.now ++ rest) ↔ (IsTrue found × AreNested (reverse inside.new.items) rest)) }
{
    for edge in edges {
        if !follow(inside, edge)? {
            return Ok(false);
        }
    }
    Ok(true)
}

/// Whether the boxes of a flow are well nested.
fn are_nested(alloc: Global, flow: &Flow) -> Result<bool, NoMemory>
    ensures { IfOk result (λ found. IsTrue found ↔ AreNested (reverse flow.now.opened) (edges_of flow.now)) }
{
    let mut inside = Vec::from_slice(alloc, flow.opened.as_slice())?;
    for seam in flow.seams.as_slice() {
        if !(follow_all(&mut inside, seam.tail.as_slice())?
            && follow_all(&mut inside, seam.head.as_slice())?)
        {
            return Ok(false);
        }
    }
    Ok(true)
}

/// Whether no box ends before the first item.
fn none_ends_first(seams: &[Seam]) -> bool
    ensures { IsTrue result ↔ (flat_map ended (get_or seams.now 0 no_seam).tail ≡ []) }
{
    match seams.first() {
        Some(seam) => has_no_end(seam.tail.as_slice()),
        None => true,
    }
}

/// Whether no box starts after the last item.
fn none_starts_last(seams: &[Seam]) -> bool
    ensures { IsTrue result ↔ (flat_map started (get_or seams.now (length seams.now - 1) no_seam).head ≡ []) }
{
    match seams.last() {
        Some(seam) => has_no_start(seam.head.as_slice()),
        None => true,
    }
}

/// Whether a flow has an item, or no box is open at its start.
fn has_item_if_opened(flow: &Flow) -> bool
    ensures { IsTrue result ↔ (length flow.now.items ≡ 0 → flow.now.opened ≡ []) }
{
    !flow.items.is_empty() || flow.opened.is_empty()
}

/// Whether no box ends before the first item or starts after the last one, and none is open where there is no item.
///
/// Where boxes are distinct and well nested, just then none is empty in the flow.
pub fn are_filled(flow: &Flow) -> bool
    ensures { IsTrue result ↔ ((flat_map ended (seam_of flow.now 0).tail ≡ [])
        × (flat_map started (seam_of flow.now (length flow.now.seams - 1)).head ≡ [])
        × (length flow.now.items ≡ 0 → flow.now.opened ≡ [])) }
{
    let seams = flow.seams.as_slice();
    none_ends_first(seams) && none_starts_last(seams) && has_item_if_opened(flow)
}

/// Whether the boxes that stand in a flow are boxes of the data, no two the same, and well nested.
pub fn are_sound_boxes(alloc: Global, parts: &FlowsData, flow: &Flow) -> Result<bool, NoMemory>
    ensures { IfOk result (λ found. IsTrue found ↔ (All (λ b. b < length parts.now.boxes) (flow_boxes flow.now)
        × AllPairs (λ a b. a ≢ b) (flow_boxes flow.now)
        × AreNested (reverse flow.now.opened) (edges_of flow.now))) }
{
    let boxes = boxes_in(alloc, flow)?;
    Ok(are_known(parts, &boxes) && are_distinct(alloc, &boxes)? && are_nested(alloc, flow)?)
}
