//! Sealed flows: data that is known to be sound, and the looks at its parts.

ghost use Rattle.std.specs.Prelude.{◌≡◌, ◌^◌, ◌<◌, Some, length, slice_get};
ghost use Rattle.flow_list.specs.Counts.{raised};
ghost use Rattle.flow_data.specs.Flows.{box_of, flow_of, item_of, row_of, seam_of, stack_of};
ghost use Rattle.flow_data.specs.Soundness.{IsSound};

use crate::tally::Tally;
use flow_data::{BoxInfo, Flow, FlowsData, Item, RowInfo, Seam, Stack};
use mc_base::List;
use std::marker::Model;

/// The data of a layout, sealed: contracts see the data, which is sound.
#[derive(Drop)]
pub struct Flows {
    data: FlowsData,
}

impl Model for Flows {
    ghost use Rattle.flow_data.specs.declared.data.FlowsData.{FlowsData as Data};

    ghost Value = { Data };

    ghost use Rattle.flow_data.specs.Soundness.{IsSound};

    ghost view = { λ s. s.data };

    ghost invariant = { λ s. IsSound s.data };
}

impl Flows {
    /// Seals sound data. It takes no memory.
    pub fn seal(parts: FlowsData) -> Flows
        requires { IsSound parts }
        ensures { result ≡ parts }
    {
        Flows { data: parts }
    }

    fn flow(&self, flow: u32) -> &Flow
        requires { flow < length self.now.flows }
        ensures same { result.now ≡ flow_of self.now flow }
        ensures count { length result.now.items < 2 ^ 32 }
    {
        &self.data.flows.as_slice()[flow as usize]
    }
}

/// How many flows, rows, boxes and stacks there are.
#[derive(Clone, Copy)]
pub struct FlowCounts {
    pub flows: u32,
    pub rows: u32,
    pub boxes: u32,
    pub stacks: u32,
}

/// The numbers of parts. All that is sealed is sound.
pub fn flow_counts(flows: &Flows) -> FlowCounts
    ensures flows { result.flows ≡ length flows.now.flows }
    ensures rows { result.rows ≡ length flows.now.rows }
    ensures boxes { result.boxes ≡ length flows.now.boxes }
    ensures stacks { result.stacks ≡ length flows.now.stacks }
    ensures sound { IsSound flows.now }
{
    FlowCounts {
        flows: flows.data.flows.len() as u32,
        rows: flows.data.rows.len() as u32,
        boxes: flows.data.boxes.len() as u32,
        stacks: flows.data.stacks.len() as u32,
    }
}

/// Item `i` of a flow: the only way to an item. It counts one read.
pub fn item_at<C: Tally>(flows: &Flows, flow: u32, i: u32, tally: &mut C) -> Item
    requires flow { flow < length flows.now.flows }
    requires item { i < length (flow_of flows.now flow).items }
    ensures item { slice_get (flow_of flows.now flow).items i ≡ Some result }
    ensures same { result ≡ item_of (flow_of flows.now flow) i }
    ensures read { C.read_count tally.new ≡ raised (C.read_count tally.old) 1 }
    ensures below { C.below_count tally.new ≡ C.below_count tally.old }
    ensures folds { C.fold_count tally.new ≡ C.fold_count tally.old }
{
    tally.read();
    flows.flow(flow).items.as_slice()[i as usize]
}

/// How many items a flow has.
pub fn item_count(flows: &Flows, flow: u32) -> u32
    requires { flow < length flows.now.flows }
    ensures { result ≡ length (flow_of flows.now flow).items }
{
    flows.flow(flow).items.len() as u32
}

/// Seam `k` of a flow: the one before item `k`, or after the last item.
pub fn seam_at(flows: &Flows, flow: u32, k: u32) -> &Seam
    requires flow { flow < length flows.now.flows }
    requires seam { k < length (flow_of flows.now flow).seams }
    ensures seam { slice_get (flow_of flows.now flow).seams k ≡ Some result.now }
    ensures same { result.now ≡ seam_of (flow_of flows.now flow) k }
{
    &flows.flow(flow).seams.as_slice()[k as usize]
}

/// The boxes that are open at a flow's start, the outermost first.
pub fn opened_in(flows: &Flows, flow: u32) -> &List<u32>
    requires { flow < length flows.now.flows }
    ensures { result.now ≡ (flow_of flows.now flow).opened }
{
    &flows.flow(flow).opened
}

/// The row of this number.
pub fn row_at(flows: &Flows, row: u32) -> &RowInfo
    requires { row < length flows.now.rows }
    ensures row { slice_get flows.now.rows row ≡ Some result.now }
    ensures same { result.now ≡ row_of flows.now row }
{
    &flows.data.rows.as_slice()[row as usize]
}

/// The box of this number.
pub fn box_at(flows: &Flows, number: u32) -> &BoxInfo
    requires { number < length flows.now.boxes }
    ensures found { slice_get flows.now.boxes number ≡ Some result.now }
    ensures same { result.now ≡ box_of flows.now number }
{
    &flows.data.boxes.as_slice()[number as usize]
}

/// The stack of this number.
pub fn stack_at(flows: &Flows, stack: u32) -> &Stack
    requires { stack < length flows.now.stacks }
    ensures stack { slice_get flows.now.stacks stack ≡ Some result.now }
    ensures same { result.now ≡ stack_of flows.now stack }
{
    &flows.data.stacks.as_slice()[stack as usize]
}
