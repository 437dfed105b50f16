//! Parts of data that need not be sound, by their numbers. A number out of range names an empty part.

ghost use Rattle.std.specs.Prelude.{◌≡◌};
ghost use Rattle.flow_data.specs.Flows as parts_by_number;
ghost use Rattle.std.specs.Option.{option_map_or};
ghost use Rattle.flow_data.specs.Flows.{flow_of, no_flow};

use crate::data::{Bound, BoxInfo, Flow, FlowsData, Item, RowInfo, Seam, Stack};
use mc_base::Units;

/// Places, widths, and all heights together are below this, in units.
pub const LENGTH_LIMIT: Units = 1 << 60;
/// The most rows that stand one inside another.
pub const MOST_NESTED: u32 = 3;

/// The flow of a number.
fn flow_at(parts: &FlowsData, flow: u32) -> Option<&Flow>
    ensures { option_map_or (λ found. found.now) result no_flow ≡ flow_of parts.now flow }
{
    parts.flows.as_slice().get(flow as usize)
}

/// The items of a flow.
pub fn items_of(parts: &FlowsData, flow: u32) -> &[Item]
    ensures { result.now ≡ (flow_of parts.now flow).items }
{
    match flow_at(parts, flow) {
        Some(flow) => flow.items.as_slice(),
        None => &[],
    }
}

/// The boxes that are open at a flow's start.
pub fn opened_of(parts: &FlowsData, flow: u32) -> &[u32]
    ensures { result.now ≡ (flow_of parts.now flow).opened }
{
    match flow_at(parts, flow) {
        Some(flow) => flow.opened.as_slice(),
        None => &[],
    }
}

/// The seams of a flow.
pub fn seams_of(parts: &FlowsData, flow: u32) -> &[Seam]
    ensures { result.now ≡ (flow_of parts.now flow).seams }
{
    match flow_at(parts, flow) {
        Some(flow) => flow.seams.as_slice(),
        None => &[],
    }
}

/// The row of a number.
pub fn row_of(parts: &FlowsData, row: u32) -> RowInfo
    ensures { result ≡ parts_by_number.row_of parts.now row }
{
    match parts.rows.as_slice().get(row as usize) {
        Some(row) => *row,
        None => RowInfo {
            flow: 0,
            n: 1,
            w: 0,
            step: 0,
            x: 0,
            auto: false,
        },
    }
}

/// The box of a number.
pub fn box_of(parts: &FlowsData, number: u32) -> BoxInfo
    ensures { result ≡ parts_by_number.box_of parts.now number }
{
    match parts.boxes.as_slice().get(number as usize) {
        Some(info) => *info,
        None => BoxInfo {
            x: 0,
            w: 0,
            avoid: false,
            top: 0,
            bottom: 0,
        },
    }
}

/// The stack of a number.
pub fn stack_of(parts: &FlowsData, stack: u32) -> Stack
    ensures { result ≡ parts_by_number.stack_of parts.now stack }
{
    match parts.stacks.as_slice().get(stack as usize) {
        Some(stack) => *stack,
        None => Stack {
            flow: 0,
            w: 0,
            bound: Bound::Free,
        },
    }
}
