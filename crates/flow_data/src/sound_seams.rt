//! Whether a seam is sound: which edges stand on which side of it, and what stands beside the starts and ends of boxes
//! with cloned edges.

ghost use Rattle.std.specs.Prelude.{◌≡◌, ◌↔◌, ◌+◌, ◌-◌, ◌<◌, ℕ, [], Some, IsTrue, flat_map, slice_get};
ghost use Rattle.flow_data.specs.Flows.{box_of, ended, started};
ghost use Rattle.flow_data.specs.Soundness.{IsSoundSeam};

use crate::data::{Edge, FlowsData, Seam};
use crate::parts::box_of;
use mc_base::Units;

/// Whether an edge starts no box.
fn is_no_start(edge: &Edge) -> bool
    ensures { IsTrue result ↔ (started edge.now ≡ []) }
{
    !matches!(edge, Edge::Start(_))
}

/// Whether an edge ends no box.
fn is_no_end(edge: &Edge) -> bool
    ensures { IsTrue result ↔ (ended edge.now ≡ []) }
{
    !matches!(edge, Edge::End(_))
}

/// Whether no box starts among these edges.
pub fn has_no_start(edges: &[Edge]) -> bool
    ensures { IsTrue result ↔ (flat_map started edges.now ≡ []) }
{
    edges.iter().all(is_no_start)
}

/// Whether no box ends among these edges.
pub fn has_no_end(edges: &[Edge]) -> bool
    ensures { IsTrue result ↔ (flat_map ended edges.now ≡ []) }
{
    edges.iter().all(is_no_end)
}

/// The edge of this number.
fn edge_at(edges: &[Edge], k: usize) -> Option<Edge>
    ensures { result ≡ slice_get edges.now k }
{
    edges.get(k).copied()
}

/// Whether a cloned edge of this amount, if there is one, stands here.
fn is_cloned(amount: Units, beside: Option<Edge>) -> bool
    ensures { IsTrue result ↔ (0 < amount → beside ≡ Some (Edge.Solid amount)) }
{
    amount == 0 || matches!(beside, Some(Edge::Solid(solid)) if solid == amount)
}

/// Whether the upper edge of a box with cloned edges stands directly after its start.
fn has_cloned_top(parts: &FlowsData, edge: &Edge, next: Option<Edge>) -> bool
    ensures { IsTrue result ↔ ((b : ℕ) → edge.now ≡ Edge.Start b → 0 < (box_of parts.now b).top
        → next ≡ Some (Edge.Solid (box_of parts.now b).top)) }
{
    match edge {
        Edge::Start(number) => is_cloned(box_of(parts, *number).top, next),
        _ => true,
    }
}

/// Whether the lower edge of a box with cloned edges stands directly before its end.
fn has_cloned_bottom(parts: &FlowsData, edge: &Edge, before: Option<Edge>) -> bool
    ensures { IsTrue result ↔ ((b : ℕ) → edge.now ≡ Edge.End b → 0 < (box_of parts.now b).bottom
        → before ≡ Some (Edge.Solid (box_of parts.now b).bottom)) }
{
    match edge {
        Edge::End(number) => is_cloned(box_of(parts, *number).bottom, before),
        _ => true,
    }
}

/// Whether the upper edges of boxes with cloned edges stand directly after their starts.
fn has_cloned_tops(parts: &FlowsData, head: &[Edge]) -> bool
    ensures { IsTrue result ↔ ((k b : ℕ) → slice_get head.now k ≡ Some (Edge.Start b) → 0 < (box_of parts.now b).top
        → slice_get head.now (k + 1) ≡ Some (Edge.Solid (box_of parts.now b).top)) }
{
    for (k, edge) in head.iter().enumerate() {
        if !has_cloned_top(parts, edge, edge_at(head, k + 1)) {
            return false;
        }
    }
    true
}

/// Whether the lower edges of boxes with cloned edges stand directly before their ends.
fn has_cloned_bottoms(parts: &FlowsData, tail: &[Edge]) -> bool
    ensures { IsTrue result ↔ ((k b : ℕ) → slice_get tail.now k ≡ Some (Edge.End b) → 0 < (box_of parts.now b).bottom
        → slice_get tail.now (k - 1) ≡ Some (Edge.Solid (box_of parts.now b).bottom)) }
{
    for (k, edge) in tail.iter().enumerate() {
        if !has_cloned_bottom(parts, edge, edge_at(tail, k.saturating_sub(1))) {
            return false;
        }
    }
    true
}

/// Whether a seam of the data is sound.
pub fn is_sound_seam(parts: &FlowsData, seam: &Seam) -> bool
    ensures { IsTrue result ↔ IsSoundSeam parts.now seam.now }
{
    let tail = seam.tail.as_slice();
    let head = seam.head.as_slice();
    has_no_start(tail)
        && has_no_end(head)
        && has_cloned_tops(parts, head)
        && has_cloned_bottoms(parts, tail)
}
