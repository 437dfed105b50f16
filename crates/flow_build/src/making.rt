//! The data of the flows of boxes in their places.

ghost use Rattle.std.specs.Prelude.{◌≡◌, ◌⊎◌, IfOk, IfErr, None, Some, map};
ghost use Rattle.std.specs.List.{All};
ghost use Rattle.mc_base.specs.declared.refusal.Refusal.TheVariants.{NoMemory as Memory};
ghost use Rattle.box_data.specs.declared.placed.Placed.{Placed as OnePlaced};
ghost use Rattle.box_data.specs.Bounds.{AreParented};
ghost use Rattle.box_data.specs.BoxTree.{Boxes, in_order};
ghost use Rattle.box_data.specs.Content.{content_of};
ghost use Rattle.box_data.specs.DocumentFlows as document;
ghost use Rattle.box_data.specs.Limits.{late_limit};
ghost use Rattle.doc_laws.specs.Laws.{IsNear};
ghost use Rattle.doc_laws.specs.Nesting.{NoSpanner};

use crate::few::has_many_lines;
use box_content::{content, content_is_numbered};
use box_data::Placed;
use doc_limits::first_late_limit;
use flow_list::FlowsData;
use flow_maker::make_flows;
use mc_base::{Refusal, Units};
use std::alloc::Global;

/// As many marks are answered with out of memory.
const MANY: usize = 2_147_483_648;

/// The data of the flows of these boxes in a document of this width, whose rows may use this height, or the first limit that it
/// passes.
pub fn made_flows(
    alloc: Global,
    places: &[Placed],
    width: Units,
    height: Option<Units>,
) -> Result<FlowsData, Refusal>
    requires near { All IsNear places.now }
    ensures flows { (tree : Boxes OnePlaced) → places.now ≡ in_order tree → AreParented None 0 tree → NoSpanner (content_of tree)
        → IfOk result (λ d. (d ≡ document.flows_of_content width height (map document.box_info (in_order tree)) (content_of tree))
        × (late_limit (in_order tree) (content_of tree) d ≡ None)) }
    ensures limit { (tree : Boxes OnePlaced) → places.now ≡ in_order tree → AreParented None 0 tree → NoSpanner (content_of tree)
        → IfErr result (λ e. (e ≡ Memory) ⊎ (late_limit (in_order tree) (content_of tree)
        (document.flows_of_content width height (map document.box_info (in_order tree)) (content_of tree)) ≡ Some e)) }
{
    content_is_numbered();
    if has_many_lines(places) {
        return Err(Refusal::NoMemory);
    }
    let all = content(alloc, places)?;
    let marks = all.as_slice();
    if marks.len() >= MANY {
        return Err(Refusal::NoMemory);
    }
    let data = make_flows(alloc, places, marks, width, height)?;
    match first_late_limit(alloc, places, marks, &data)? {
        None => Ok(data),
        Some(limit) => Err(limit),
    }
}
