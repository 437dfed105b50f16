//! Items alone in columns after an unforced break, one after another.

ghost use Rattle.std.specs.Prelude.{◌≡◌, ℕ, ◌+◌, ◌<◌, ◌≤◌, length};
ghost use Rattle.flow_data.specs.Flows.{flow_of};
ghost use Rattle.flow_list.specs.Column.{loose_need, unforced_start};
ghost use Rattle.flow_list.specs.Rows.{all_rows};
ghost use Rattle.flow_list.specs.Tokens.{row_start};
ghost use Rattle.column_strip.specs.Boxes.{IsAcross, IsOpen};
ghost use Rattle.column_strip.specs.Passed.{IsBefore, IsBehind, height_at};
ghost use Rattle.column_strip.specs.Strips.{strip_of};

use column_strip::{Before, Behind, Laying, OpenBoxes, past_head, past_item};
use flow_list::{Flows, flow_counts, item_count, seam_at};
use mc_base::Units;

/// What stands before item `k` in a column that begins there after an unforced break: the margins next to the break are dropped
/// (CSS Fragmentation 3, section 5.2).
fn loose_before(flows: &Flows, flow: u32, k: u32, across: OpenBoxes, here: OpenBoxes) -> Before
    requires flow { flow < length flows.now.flows }
    requires item { k < length (flow_of flows.now flow).items }
    requires across { IsAcross flows.now (flow_of flows.now flow) k across }
    requires here { IsOpen flows.now (flow_of flows.now flow) k here }
    ensures strip { strip_of result.strip ≡ unforced_start flows.now (flow_of flows.now flow) k }
    ensures before { IsBefore flows.now (flow_of flows.now flow) k
        (height_at flows.now (flow_of flows.now flow) k row_start) result }
{
    // Sealed flows are sound.
    let _counts = flow_counts(flows);
    let seam = seam_at(flows, flow, k);
    Before {
        strip: Laying::new(across.tops, true).lay_all(seam.head.as_slice()),
        boxes: here,
        level: seam.level,
    }
}

/// What stands after item `k` and the tail of the seam after it, in such a column; the height may be less than the item's.
pub fn past_loose(
    flows: &Flows,
    flow: u32,
    k: u32,
    height: Units,
    across: OpenBoxes,
    here: OpenBoxes,
) -> Behind
    requires flow { flow < length flows.now.flows }
    requires item { k < length (flow_of flows.now flow).items }
    requires height { height ≤ height_at flows.now (flow_of flows.now flow) k row_start }
    requires across { IsAcross flows.now (flow_of flows.now flow) k across }
    requires here { IsOpen flows.now (flow_of flows.now flow) k here }
    ensures need { height ≡ height_at flows.now (flow_of flows.now flow) k row_start →
        result.strip.y + result.boxes.bottoms ≡ loose_need (all_rows flows.now) flows.now (flow_of flows.now flow) k }
    ensures behind { IsBehind flows.now (flow_of flows.now flow) k result }
{
    let before = loose_before(flows, flow, k, across, here);
    past_item(flows, flow, k, height, before)
}

/// The boxes open at the next item, where there is one.
pub fn open_next(flows: &Flows, flow: u32, k: u32, behind: Behind, here: OpenBoxes) -> OpenBoxes
    requires flow { flow < length flows.now.flows }
    requires item { k < length (flow_of flows.now flow).items }
    requires behind { IsBehind flows.now (flow_of flows.now flow) k behind }
    ensures { k + 1 < length (flow_of flows.now flow).items → IsOpen flows.now (flow_of flows.now flow) (k + 1) result }
{
    if k < item_count(flows, flow) - 1 {
        past_head(flows, flow, k, behind).boxes
    } else {
        here
    }
}
