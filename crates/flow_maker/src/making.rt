//! Making flows of what stands in a document, in one pass.

ghost use Rattle.std.specs.Prelude.{◌≡◌, ◌^◌, ◌<◌, All, IfOk, length, map};
ghost use Rattle.box_data.specs.Bounds.{AreNumbered};
ghost use Rattle.box_data.specs.Content.{Content, marks as marks_of};
ghost use Rattle.box_data.specs.DocumentFlows as document;
ghost use Rattle.flow_maker.specs.Premises.{HasNoSpanner, IsSmall};

use crate::parts::begun;
use box_data::{Mark, Placed};
use flow_data::{BoxInfo, FlowsData};
use mc_base::{List, NoMemory, Units};
use std::alloc::Global;

/// A box as the layout sees it: its edges are repeated at each break where it is cloned (CSS Fragmentation 3, section 5.4).
fn box_info(p: &Placed) -> BoxInfo
    ensures { result ≡ document.box_info p.now }
{
    let cloned = p.style.cloned;
    BoxInfo {
        x: p.x,
        w: p.outer_w,
        avoid: p.style.avoid_inside,
        top: if cloned { p.top } else { 0 },
        bottom: if cloned { p.bottom } else { 0 },
    }
}

/// The boxes as the layout sees them.
fn box_infos(alloc: Global, places: &[Placed]) -> Result<List<BoxInfo>, NoMemory>
    ensures { IfOk result (λ boxes. boxes ≡ map document.box_info places.now) }
{
    let mut boxes = List::new(alloc);
    for p in places {
        boxes.push(box_info(p))?;
    }
    Ok(boxes)
}

/// The flows of what stands in a document, given as its marks, in a document of this width, whose rows may use this height.
///
/// Each box that a mark names is one of `places`, by its number. Rows and stacks are numbered in the order in which they
/// begin, and each takes the next flow; stack 0 has flow 0.
pub fn make_flows(
    alloc: Global,
    places: &[Placed],
    marks: &[Mark],
    width: Units,
    height: Option<Units>,
) -> Result<FlowsData, NoMemory>
    requires few { length marks.now < 2 ^ 31 }
    requires small { All IsSmall places.now }
    ensures { (content : Content) → marks.now ≡ marks_of content → AreNumbered places.now content → HasNoSpanner content
        → IfOk result (λ d. d ≡ document.flows_of_content width height (map document.box_info places.now) content) }
{
    let boxes = box_infos(alloc, places)?;
    let mut parts = begun(alloc, width, height)?;
    for mark in marks {
        parts = parts.take(alloc, places, mark)?;
    }
    let parts = parts.close(alloc)?;
    Ok(FlowsData {
        flows: parts.flows,
        rows: parts.rows,
        boxes,
        stacks: parts.stacks,
    })
}
