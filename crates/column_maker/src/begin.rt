//! What stands at the beginning of a column.

ghost use Rattle.std.specs.Prelude.{◌≡◌, ◌+◌, ◌<◌, ◌^◌, ◌∷◌, ◌++◌, [], All, List, length, map, IfOk, true};
ghost use Rattle.flow_data.specs.Flows.{flow_of, open_at, seam_of};
ghost use Rattle.flow_list.specs.ClonedEdges.{tops};
ghost use Rattle.flow_list.specs.Column.{is_forced, start_strip};
ghost use Rattle.flow_list.specs.Fragments.{continued_from, laid_start, places_in};
ghost use Rattle.flow_list.specs.Placing.{Laid, places_from};
ghost use Rattle.flow_list.specs.Strip.{strip_at};
ghost use Rattle.flow_list.specs.Tokens.{IsPlaceBefore};
ghost use Rattle.column_places.specs.Placing.{HasMargin, rows_of, strip_of, with_more};
ghost use Rattle.frag_maker.specs.Building.{placed_as};

use column_places::Placing;
use flow_list::{Flows, box_at, flow_counts, seam_at};
use frag_maker::Placed;
use mc_base::{Level, NoMemory, Token, Units};
use open_boxes::{boxes_across, boxes_at};
use std::alloc::Global;

/// The boxes that continue at a column's top, each below the upper cloned edges of those around it
/// (CSS Fragmentation 3, section 5.4), and a strip below these edges.
fn continued(alloc: Global, flows: &Flows, boxes: &[u32], drops: bool) -> Result<Placing, NoMemory>
    requires known { All (λ b. b < length flows.now.boxes) boxes.now }
    requires room { tops flows.now boxes.now < 2 ^ 63 }
    ensures places { IfOk result (λ p. (more : List Laid) → with_more p more
        ≡ continued_from flows.now 0 boxes.now ++ places_from (length more + 1) (tops flows.now boxes.now) more) }
    ensures margin { IfOk result (λ p. HasMargin p) }
    ensures strip { IfOk result (λ p. strip_of p ≡ strip_at (tops flows.now boxes.now) drops) }
    ensures rows { IfOk result (λ p. rows_of p ≡ []) }
{
    let mut placed = Vec::new(alloc);
    let mut y: Units = 0;
    for number in boxes {
        placed.push(Placed::Opens {
            number: *number,
            y,
            starts: false,
        })?;
        y += box_at(flows, *number).top;
    }
    Ok(Placing::new(alloc, y, drops, placed))
}

fn is_forced_at(level: Level) -> bool
    ensures { result ≡ is_forced level }
{
    match level {
        Level::Forced => true,
        _ => false,
    }
}

/// A column that begins within item `i`, a row: margins are dropped up to the first thing that has a height.
fn begin_within(alloc: Global, flows: &Flows, flow: u32, i: u32) -> Result<Placing, NoMemory>
    requires flow { flow < length flows.now.flows }
    requires item { i < length (flow_of flows.now flow).items }
    ensures places { IfOk result (λ p. (more : List Laid) → with_more p more
        ≡ continued_from flows.now 0 (open_at (flow_of flows.now flow) i)
        ++ places_from (length more + 1) (tops flows.now (open_at (flow_of flows.now flow) i)) more) }
    ensures margin { IfOk result (λ p. HasMargin p) }
    ensures strip { IfOk result (λ p. strip_of p ≡ strip_at (tops flows.now (open_at (flow_of flows.now flow) i)) true) }
    ensures rows { IfOk result (λ p. rows_of p ≡ []) }
{
    // Sealed flows are sound.
    let _counts = flow_counts(flows);
    let boxes = boxes_at(alloc, flows, flow, i)?;
    let at = continued(alloc, flows, boxes.as_slice(), true)?;
    Ok(at)
}

/// A column that begins at item `i`, with the head before it: margins are dropped in the same way, unless it is the flow's start
/// or a forced break.
fn begin_at(alloc: Global, flows: &Flows, flow: u32, i: u32) -> Result<Placing, NoMemory>
    requires flow { flow < length flows.now.flows }
    requires item { i < length (flow_of flows.now flow).items }
    ensures places { IfOk result (λ p. (more : List Laid) → with_more p more ≡ places_in flows.now (flow_of flows.now flow)
        (i ∷ []) (laid_start flows.now (flow_of flows.now flow) (i ∷ []) ++ more)) }
    ensures margin { IfOk result (λ p. HasMargin p) }
    ensures strip { IfOk result (λ p. strip_of p ≡ start_strip flows.now (flow_of flows.now flow) (i ∷ [])) }
    ensures rows { IfOk result (λ p. rows_of p ≡ []) }
{
    // Sealed flows are sound.
    let _counts = flow_counts(flows);
    let boxes = boxes_across(alloc, flows, flow, i)?;
    let drops = i != 0 && !is_forced_at(seam_at(flows, flow, i).level);
    let mut at = continued(alloc, flows, boxes.as_slice(), drops)?;
    at.lay_all(alloc, seam_at(flows, flow, i).head.as_slice())?;
    Ok(at)
}

/// A column that begins at a place before the flow's end.
pub fn begin_column(
    alloc: Global,
    flows: &Flows,
    flow: u32,
    from: &Token,
) -> Result<Placing, NoMemory>
    requires flow { flow < length flows.now.flows }
    requires place { IsPlaceBefore flows.now (flow_of flows.now flow) from.now }
    ensures places { IfOk result (λ p. (more : List Laid) → with_more p more ≡ places_in flows.now (flow_of flows.now flow)
        from.now (laid_start flows.now (flow_of flows.now flow) from.now ++ more)) }
    ensures margin { IfOk result (λ p. HasMargin p) }
    ensures strip { IfOk result (λ p. strip_of p ≡ start_strip flows.now (flow_of flows.now flow) from.now) }
    ensures rows { IfOk result (λ p. rows_of p ≡ []) }
{
    match from.rest() {
        Some(_within) => {
            let at = begin_within(alloc, flows, flow, from.item())?;
            Ok(at)
        }
        None => {
            let at = begin_at(alloc, flows, flow, from.item())?;
            Ok(at)
        }
    }
}
