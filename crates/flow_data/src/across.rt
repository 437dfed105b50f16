//! Whether all places stay below 2^60 from the left of stack 0.

ghost use Rattle.std.specs.Prelude.{◌≡◌, ◌↔◌, ◌+◌, ◌-◌, ◌<◌, ◌^◌, ◌++◌, true, All, IfOk, OnOk, length, map, flat_map};
ghost use Rattle.std.specs.Prelude.{option_to_list};
ghost use Rattle.flow_data.specs.Across.{IsBoxInReach, IsItemInReach, place_of};
ghost use Rattle.flow_data.specs.Flows as parts_by_number;
ghost use Rattle.flow_data.specs.Flows.{flow_of, started, boxes_in};
ghost use Rattle.flow_data.specs.declared.data.Seam.{Seam as Between};
ghost use Rattle.flow_data.specs.Soundness.{item_x, held_in, FitsAcross};

use crate::data::{AtomKind, Edge, FlowsData, Item, Seam};
use crate::parts::{LENGTH_LIMIT, box_of, items_of, opened_of, row_of, seams_of, stack_of};
use mc_base::{NoMemory, Units};
use std::alloc::{AllocError, Global};

/// Where a flow stands: its left edge from the left of stack 0, and how many flows deep it is looked at.
#[derive(Clone, Copy)]
pub struct Place {
    pub flow: u32,
    pub left: Units,
    pub depth: usize,
}

fn box_fits(parts: &FlowsData, left: Units, number: u32) -> bool
    ensures { (result ≡ true) ↔ IsBoxInReach parts.now left number }
{
    left.saturating_add(box_of(parts, number).x) < LENGTH_LIMIT
}

fn opened_fit(parts: &FlowsData, left: Units, opened: &[u32]) -> bool
    ensures { (result ≡ true) ↔ All (IsBoxInReach parts.now left) opened.now }
{
    opened.iter().all(|number| box_fits(parts, left, *number))
}

fn edge_fits(parts: &FlowsData, left: Units, edge: &Edge) -> bool
    ensures { (result ≡ true) ↔ All (IsBoxInReach parts.now left) (started edge.now) }
{
    match edge {
        Edge::Start(number) => box_fits(parts, left, *number),
        _ => true,
    }
}

fn edges_fit(parts: &FlowsData, left: Units, edges: &[Edge]) -> bool
    ensures { (result ≡ true) ↔ All (λ edge. All (IsBoxInReach parts.now left) (started edge)) edges.now }
{
    edges.iter().all(|edge| edge_fits(parts, left, edge))
}

fn seams_fit(parts: &FlowsData, left: Units, seams: &[Seam]) -> bool
    ensures { (result ≡ true) ↔ All (λ (s : Between). All (λ edge. All (IsBoxInReach parts.now left) (started edge)) s.head)
        seams.now }
{
    seams
        .iter()
        .all(|seam| edges_fit(parts, left, seam.head.as_slice()))
}

/// How far an item stands from the left of its flow.
fn x_of(parts: &FlowsData, item: &Item) -> Units
    ensures { result ≡ item_x parts.now item.now }
{
    match item {
        Item::Row(row) => row_of(parts, *row).x,
        Item::Atom { kind, .. } => match kind {
            AtomKind::Plain => 0,
            AtomKind::Line { x, .. }
            | AtomKind::Void { x, .. }
            | AtomKind::Image { x, .. }
            | AtomKind::Bounded { x, .. } => *x,
        },
    }
}

fn items_fit(parts: &FlowsData, left: Units, items: &[Item]) -> bool
    ensures { (result ≡ true) ↔ All (IsItemInReach parts.now left) items.now }
{
    items.iter().all(|item| left.saturating_add(x_of(parts, item)) < LENGTH_LIMIT)
}

fn boxes_fit(parts: &FlowsData, left: Units, flow: u32) -> bool
    ensures { (result ≡ true) ↔ All (IsBoxInReach parts.now left) (boxes_in (flow_of parts.now flow)) }
{
    opened_fit(parts, left, opened_of(parts, flow)) && seams_fit(parts, left, seams_of(parts, flow))
}

/// Whether the boxes and the items of a flow stay within reach, if its left edge is there.
fn is_within_reach(parts: &FlowsData, left: Units, flow: u32) -> bool
    ensures { (result ≡ true) ↔ (All (IsBoxInReach parts.now left) (boxes_in (flow_of parts.now flow))
        × All (IsItemInReach parts.now left) (flow_of parts.now flow).items) }
{
    boxes_fit(parts, left, flow) && items_fit(parts, left, items_of(parts, flow))
}

/// Where the flow that an item holds stands, if it holds one.
fn place_in(parts: &FlowsData, left: Units, depth: usize, item: &Item) -> Option<Place>
    requires { IsItemInReach parts.now left item.now }
    ensures { option_to_list result ≡ map (place_of left depth) (held_in parts.now item.now) }
{
    match item {
        Item::Atom {
            kind: AtomKind::Bounded { stack, x, .. },
            ..
        } => Some(Place {
            flow: stack_of(parts, *stack).flow,
            left: left + *x,
            depth,
        }),
        Item::Atom { .. } => None,
        Item::Row(row) => {
            let row = row_of(parts, *row);
            Some(Place {
                flow: row.flow,
                left: left + row.x,
                depth,
            })
        }
    }
}

/// Adds the places of the flows that items hold.
fn push_places(
    parts: &FlowsData,
    left: Units,
    depth: usize,
    items: &[Item],
    places: &mut Vec<Place>,
) -> Result<(), AllocError>
    requires { All (IsItemInReach parts.now left) items.now }
    ensures { OnOk result (places.new.items ≡ places.old.items ++ map (place_of left depth)
        (flat_map (held_in parts.now) items.now)) }
{
    for item in items {
        if let Some(place) = place_in(parts, left, depth, item) {
            places.push(place)?;
        }
    }
    Ok(())
}

/// Whether each place in stack 0, and in the flows within it, is below 2^60 from its left.
pub fn fits_across(alloc: Global, parts: &FlowsData) -> Result<bool, NoMemory>
    ensures { IfOk result (λ found. (found ≡ true) ↔ FitsAcross parts.now (length parts.now.flows) 0
        (parts_by_number.stack_of parts.now 0).flow) }
{
    let mut places = vec![in alloc;
        Place {
            flow: stack_of(parts, 0).flow,
            left: 0,
            depth: parts.flows.len(),
        },
    ]?;
    while let Some(place) = places.pop() {
        if place.depth == 0 {
            continue;
        }
        if !is_within_reach(parts, place.left, place.flow) {
            return Ok(false);
        }
        push_places(
            parts,
            place.left,
            place.depth - 1,
            items_of(parts, place.flow),
            &mut places,
        )?;
    }
    Ok(true)
}
