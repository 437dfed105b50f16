//! Which boxes of a flow are open at a place in it, the outermost first.
//!
//! It stands on mc_base, flow_data and flow_list. It promises the lists of boxes open across a seam and at an item that the
//! definitions name, also as a list that is kept while a walk passes the edges of seams.
#![tactic(auto)]

ghost use Rattle.std.specs.Prelude.{◌≡◌, ◌+◌, ◌<◌, ◌≤◌, IfOk, OnOk, fold, length};
ghost use Rattle.flow_data.specs.Flows.{flow_of, open_at, seam_of};
ghost use Rattle.flow_list.specs.ClonedEdges.{open_across};
ghost use Rattle.open_boxes.specs.Opening.{opened_by};

use flow_list::{Edge, Flows, flow_counts, opened_in, seam_at};
use mc_base::NoMemory;
use std::alloc::Global;

fn pass_edge(boxes: &mut Vec<u32>, edge: Edge) -> Result<(), NoMemory>
    ensures { OnOk result (boxes.new.items ≡ opened_by boxes.old.items edge) }
{
    match edge {
        Edge::Start(number) => {
            boxes.push(number)?;
            Ok(())
        }
        Edge::End(_) => {
            let _ended = boxes.pop();
            Ok(())
        }
        _ => Ok(()),
    }
}

/// Keeps the list of open boxes, the outermost first, as these edges pass. When out of memory, the list is not to be used.
pub fn pass_edges(boxes: &mut Vec<u32>, edges: &[Edge]) -> Result<(), NoMemory>
    ensures { OnOk result (boxes.new.items ≡ fold opened_by boxes.old.items edges.now) }
{
    for edge in edges {
        pass_edge(boxes, *edge)?;
    }
    Ok(())
}

/// Passes the head of seam `k`: the boxes that are open across the seam become those that are open at item `k`.
pub fn pass_head(flows: &Flows, flow: u32, boxes: &mut Vec<u32>, k: u32) -> Result<(), NoMemory>
    requires flow { flow < length flows.now.flows }
    requires item { k < length (flow_of flows.now flow).items }
    requires boxes { boxes.old.items ≡ open_across (flow_of flows.now flow) k }
    ensures { OnOk result (boxes.new.items ≡ open_at (flow_of flows.now flow) k) }
{
    // Sealed flows are sound.
    let _counts = flow_counts(flows);
    pass_edges(boxes, seam_at(flows, flow, k).head.as_slice())?;
    Ok(())
}

/// Passes the tail of the seam after item `k`: the boxes that are open at the item become those that are open across the seam.
pub fn pass_tail(flows: &Flows, flow: u32, boxes: &mut Vec<u32>, k: u32) -> Result<(), NoMemory>
    requires flow { flow < length flows.now.flows }
    requires item { k < length (flow_of flows.now flow).items }
    requires boxes { boxes.old.items ≡ open_at (flow_of flows.now flow) k }
    ensures { OnOk result (boxes.new.items ≡ open_across (flow_of flows.now flow) (k + 1)) }
{
    // Sealed flows are sound.
    let _counts = flow_counts(flows);
    pass_edges(boxes, seam_at(flows, flow, k + 1).tail.as_slice())?;
    Ok(())
}

/// The boxes that are open across seam `k`. The seams before it are passed, unless there are no boxes at all.
pub fn boxes_across(alloc: Global, flows: &Flows, flow: u32, k: u32) -> Result<Vec<u32>, NoMemory>
    requires flow { flow < length flows.now.flows }
    requires seam { k ≤ length (flow_of flows.now flow).items }
    ensures { IfOk result (λ boxes. boxes.items ≡ open_across (flow_of flows.now flow) k) }
{
    let mut boxes = Vec::new(alloc);
    // Sealed flows are sound.
    if flow_counts(flows).boxes == 0 {
        return Ok(boxes);
    }
    for number in opened_in(flows, flow).as_slice() {
        boxes.push(*number)?;
    }
    for j in 0..k {
        pass_head(flows, flow, &mut boxes, j)?;
        pass_tail(flows, flow, &mut boxes, j)?;
    }
    Ok(boxes)
}

/// The boxes that are open at item `k`.
pub fn boxes_at(alloc: Global, flows: &Flows, flow: u32, k: u32) -> Result<Vec<u32>, NoMemory>
    requires flow { flow < length flows.now.flows }
    requires item { k < length (flow_of flows.now flow).items }
    ensures { IfOk result (λ boxes. boxes.items ≡ open_at (flow_of flows.now flow) k) }
{
    let mut boxes = boxes_across(alloc, flows, flow, k)?;
    pass_head(flows, flow, &mut boxes, k)?;
    Ok(boxes)
}
