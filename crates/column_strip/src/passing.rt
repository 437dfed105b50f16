//! Passing the items and the seams of a flow, one after another.

ghost use Rattle.std.specs.Prelude.{◌≡◌, ℕ, ◌+◌, ◌<◌, [], ◌∷◌, length, is_some, true};
ghost use Rattle.flow_data.specs.Flows.{flow_of, open_at, seam_of};
ghost use Rattle.flow_list.specs.ClonedEdges.{tops};
ghost use Rattle.flow_list.specs.Column.{is_forced, start_strip};
ghost use Rattle.flow_list.specs.Strip.{lay_all, put, strip_at};
ghost use Rattle.flow_list.specs.Tokens.{IsPlaceBefore, Token as Place, item_number, row_start, within};
ghost use Rattle.mc_base.specs.Places.{place_within};
ghost use Rattle.column_strip.specs.Boxes.{IsAcross, IsOpen};
ghost use Rattle.column_strip.specs.Passed.{IsBefore, IsBehind, height_at};
ghost use Rattle.column_strip.specs.Strips.{strip_of};

use crate::laying::Laying;
use crate::open_boxes::OpenBoxes;
use flow_list::{Flows, flow_counts, opened_in, seam_at};
use mc_base::{Level, Token, Units};

/// What stands before an item: the strip, the boxes open at the item, and the level of the seam before it.
#[derive(Clone, Copy)]
pub struct Before {
    pub strip: Laying,
    pub boxes: OpenBoxes,
    pub level: Level,
}

/// What stands after an item and the tail of the seam after it: the strip, the boxes open across the seam, and its level.
#[derive(Clone, Copy)]
pub struct Behind {
    pub strip: Laying,
    pub boxes: OpenBoxes,
    pub level: Level,
}

fn is_forced_at(level: Level) -> bool
    ensures { result ≡ is_forced level }
{
    match level {
        Level::Forced => true,
        _ => false,
    }
}

/// The boxes open at item `k`, where these are open across the seam before it.
fn into_item(flows: &Flows, flow: u32, k: u32, across: OpenBoxes) -> OpenBoxes
    requires flow { flow < length flows.now.flows }
    requires item { k < length (flow_of flows.now flow).items }
    requires across { IsAcross flows.now (flow_of flows.now flow) k across }
    ensures { IsOpen flows.now (flow_of flows.now flow) k result }
{
    // Sealed flows are sound.
    let _counts = flow_counts(flows);
    let seam = seam_at(flows, flow, k);
    across.after_head(flows, seam.head.as_slice())
}

/// The boxes open across the seam after item `k`, where these are open at it.
fn out_of_item(flows: &Flows, flow: u32, k: u32, here: OpenBoxes) -> OpenBoxes
    requires flow { flow < length flows.now.flows }
    requires item { k < length (flow_of flows.now flow).items }
    requires here { IsOpen flows.now (flow_of flows.now flow) k here }
    ensures { IsAcross flows.now (flow_of flows.now flow) (k + 1) result }
{
    // Sealed flows are sound.
    let _counts = flow_counts(flows);
    let seam = seam_at(flows, flow, k + 1);
    here.after_tail(flows, seam.tail.as_slice())
}

/// The boxes open at a flow's start.
fn opened_boxes(flows: &Flows, flow: u32) -> OpenBoxes
    requires { flow < length flows.now.flows }
    ensures { IsAcross flows.now (flow_of flows.now flow) 0 result }
{
    // Sealed flows are sound.
    let _counts = flow_counts(flows);
    OpenBoxes::none().with_all(flows, opened_in(flows, flow).as_slice())
}

/// The boxes open across the seam before item `k`, sought from the flow's start where the data has boxes.
pub fn across_seam(flows: &Flows, flow: u32, k: u32) -> OpenBoxes
    requires flow { flow < length flows.now.flows }
    requires item { k < length (flow_of flows.now flow).items }
    ensures { IsAcross flows.now (flow_of flows.now flow) k result }
{
    let counts = flow_counts(flows);
    if counts.boxes == 0 {
        return OpenBoxes::none();
    }
    let mut across = opened_boxes(flows, flow);
    for j in 0..k {
        let here = into_item(flows, flow, j, across);
        across = out_of_item(flows, flow, j, here);
    }
    across
}

/// Whether a place is within a row.
fn is_within(place: &Token) -> bool
    ensures { result ≡ is_some (place_within place.now) }
{
    place.rest().is_some()
}

/// What stands before the first item of a column that begins at the start of item `i`: at the flow's start and after a forced
/// break its margins stay, else those next to the break are dropped (CSS Fragmentation 3, section 5.2).
fn begin_at(flows: &Flows, flow: u32, i: u32, across: OpenBoxes) -> Before
    requires flow { flow < length flows.now.flows }
    requires item { i < length (flow_of flows.now flow).items }
    requires across { IsAcross flows.now (flow_of flows.now flow) i across }
    ensures strip { strip_of result.strip ≡ start_strip flows.now (flow_of flows.now flow) (i ∷ []) }
    ensures before { (t : Place) → item_number t ≡ i →
        IsBefore flows.now (flow_of flows.now flow) i (height_at flows.now (flow_of flows.now flow) i (within t)) result }
{
    // Sealed flows are sound.
    let _counts = flow_counts(flows);
    let seam = seam_at(flows, flow, i);
    let drops = i != 0 && !is_forced_at(seam.level);
    Before {
        strip: Laying::new(across.tops, drops).lay_all(seam.head.as_slice()),
        boxes: into_item(flows, flow, i, across),
        level: seam.level,
    }
}

/// What stands before item `i` in a column that begins within it: no head is repeated.
fn resume_in(flows: &Flows, flow: u32, i: u32, across: OpenBoxes) -> Before
    requires flow { flow < length flows.now.flows }
    requires item { i < length (flow_of flows.now flow).items }
    requires across { IsAcross flows.now (flow_of flows.now flow) i across }
    ensures strip { strip_of result.strip ≡ strip_at (tops flows.now (open_at (flow_of flows.now flow) i)) true }
    ensures before { (t : Place) → item_number t ≡ i →
        IsBefore flows.now (flow_of flows.now flow) i (height_at flows.now (flow_of flows.now flow) i (within t)) result }
{
    // Sealed flows are sound.
    let _counts = flow_counts(flows);
    let boxes = into_item(flows, flow, i, across);
    Before {
        strip: Laying::new(boxes.tops, true),
        boxes,
        level: seam_at(flows, flow, i).level,
    }
}

/// What stands before the first item of the column that begins at a place before the flow's end.
pub fn before_first(flows: &Flows, flow: u32, from: &Token) -> Before
    requires flow { flow < length flows.now.flows }
    requires place { IsPlaceBefore flows.now (flow_of flows.now flow) from.now }
    ensures strip { strip_of result.strip ≡ start_strip flows.now (flow_of flows.now flow) from.now }
    ensures before { IsBefore flows.now (flow_of flows.now flow) (item_number from.now)
        (height_at flows.now (flow_of flows.now flow) (item_number from.now) (within from.now)) result }
{
    let i = from.item();
    let across = across_seam(flows, flow, i);
    if is_within(from) {
        resume_in(flows, flow, i, across)
    } else {
        begin_at(flows, flow, i, across)
    }
}

/// What stands after item `k`, which has this height, and the tail of the seam after it.
pub fn past_item(flows: &Flows, flow: u32, k: u32, height: Units, before: Before) -> Behind
    requires flow { flow < length flows.now.flows }
    requires item { k < length (flow_of flows.now flow).items }
    requires before { IsBefore flows.now (flow_of flows.now flow) k height before }
    ensures strip { strip_of result.strip ≡ lay_all (put (strip_of before.strip) height)
        (seam_of (flow_of flows.now flow) (k + 1)).tail }
    ensures behind { IsBehind flows.now (flow_of flows.now flow) k result }
{
    // Sealed flows are sound.
    let _counts = flow_counts(flows);
    let seam = seam_at(flows, flow, k + 1);
    Behind {
        strip: before.strip.past(height, seam.tail.as_slice()),
        boxes: out_of_item(flows, flow, k, before.boxes),
        level: seam.level,
    }
}

/// What stands before item `k + 1`, where this stands after item `k`.
pub fn past_head(flows: &Flows, flow: u32, k: u32, behind: Behind) -> Before
    requires flow { flow < length flows.now.flows }
    requires item { k + 1 < length (flow_of flows.now flow).items }
    requires behind { IsBehind flows.now (flow_of flows.now flow) k behind }
    ensures strip { strip_of result.strip ≡ lay_all (strip_of behind.strip) (seam_of (flow_of flows.now flow) (k + 1)).head }
    ensures before { IsBefore flows.now (flow_of flows.now flow) (k + 1)
        (height_at flows.now (flow_of flows.now flow) (k + 1) row_start) result }
{
    // Sealed flows are sound.
    let _counts = flow_counts(flows);
    let seam = seam_at(flows, flow, k + 1);
    Before {
        strip: behind.strip.lay_all(seam.head.as_slice()),
        boxes: into_item(flows, flow, k + 1, behind.boxes),
        level: behind.level,
    }
}
