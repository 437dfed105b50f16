//! Stacks: their heights and fragments.

ghost use Rattle.std.specs.Prelude.{◌≡◌, ◌<◌, ◌==◌, ◌^◌, All, IfOk, cond, length};
ghost use Rattle.flow_data.specs.Flows.{flow_of, stack_of};
ghost use Rattle.flow_list.specs.ClonedEdges.{bottoms, open_across};
ghost use Rattle.flow_list.specs.Fragments.{stack_fragment};
ghost use Rattle.flow_list.specs.Stacks.{own_height, stack_height};
ghost use Rattle.frag_pool.specs.Growing.{Grows};
ghost use Rattle.frag_pool.specs.Nodes.{SameTrial};
ghost use Rattle.frag_pool.specs.Standing.{StandsFor};
ghost use Rattle.container_layout.specs.Found.{HasStanding, rows_of_stacks};
ghost use Rattle.container_layout.specs.Laid.{AreLaidStacks, IsLaidStack, IsStack};

use crate::lay::Stands;
use crate::walk::place_stack;
use flow_list::{Bound, Flows, LaidStack, Stack, box_at, flow_counts, item_count, stack_at};
use frag_maker::{add_node, build_all};
use frag_pool::Pool;
use mc_base::{List, NoMemory, Node, Token, Units};
use open_boxes::boxes_across;
use std::alloc::Global;

/// The lower cloned edges of these boxes, all together.
fn bottoms_of(flows: &Flows, boxes: &[u32]) -> Units
    requires known { All (λ b. b < length flows.now.boxes) boxes.now }
    requires room { bottoms flows.now boxes.now < 2 ^ 63 }
    ensures { result ≡ bottoms flows.now boxes.now }
{
    let mut height: Units = 0;
    for number in boxes {
        height += box_at(flows, *number).bottom;
    }
    height
}

/// The lower cloned edges of the boxes that are open at the end of a stack's flow.
fn end_bottoms(alloc: Global, flows: &Flows, stack: Stack) -> Result<Units, NoMemory>
    requires stack { IsStack flows.now stack }
    ensures { IfOk result (λ height. height ≡ bottoms flows.now
        (open_across (flow_of flows.now stack.flow) (length (flow_of flows.now stack.flow).items))) }
{
    // Sealed flows are sound.
    let _counts = flow_counts(flows);
    let boxes = boxes_across(alloc, flows, stack.flow, item_count(flows, stack.flow))?;
    Ok(bottoms_of(flows, boxes.as_slice()))
}

/// The height of a stack that reaches this far: the inside of a container with a height is as high as that.
fn height_in(bound: Bound, extent: Units) -> Units
    ensures { result ≡ own_height bound extent }
{
    match bound {
        Bound::Free | Bound::Each(_) => extent,
        Bound::Left(height) => height,
    }
}

/// The height of the stack of a number: the document is as high as it reaches.
fn height_of(number: u32, bound: Bound, extent: Units) -> Units
    ensures { result ≡ cond (number == 0) extent (own_height bound extent) }
{
    if number == 0 {
        extent
    } else {
        height_in(bound, extent)
    }
}

/// Makes the fragment of a stack: its strip as one column, from its start to its end.
fn make_stack(
    alloc: Global,
    flows: &Flows,
    number: u32,
    table: &[Option<Stands>],
    pool: &mut Pool,
) -> Result<LaidStack, NoMemory>
    requires number { number < length flows.now.stacks }
    requires count { length table.now ≡ length flows.now.rows }
    requires table { HasStanding flows.now pool.old (rows_of_stacks flows.now (length flows.now.stacks)) table.now }
    ensures height { IfOk result (λ laid. laid.height ≡ stack_height flows.now number) }
    ensures frag { IfOk result (λ laid. StandsFor pool.new laid.frag (stack_fragment flows.now number)) }
    ensures grown { Grows pool.old pool.new }
{
    // Sealed flows are sound.
    let _counts = flow_counts(flows);
    let stack = *stack_at(flows, number);
    let placement = place_stack(alloc, flows, number, table, pool)?;
    let extent = placement.y + end_bottoms(alloc, flows, stack)?;
    let kids = build_all(alloc, pool, placement.placed.as_slice())?;
    let frag = add_node(
        pool,
        Node::Column {
            flow: stack.flow,
            from: Token::start(alloc, 0),
            end: Token::start(alloc, item_count(flows, stack.flow)),
            extent,
            kids,
        },
    )?;
    Ok(LaidStack {
        height: height_of(number, stack.bound, extent),
        frag,
    })
}

/// Lays a stack out. Its fragment is a kept one.
fn kept_stack(
    alloc: Global,
    flows: &Flows,
    number: u32,
    table: &[Option<Stands>],
    pool: &mut Pool,
) -> Result<LaidStack, NoMemory>
    requires number { number < length flows.now.stacks }
    requires count { length table.now ≡ length flows.now.rows }
    requires table { HasStanding flows.now pool.old (rows_of_stacks flows.now (length flows.now.stacks)) table.now }
    ensures laid { IfOk result (IsLaidStack flows.now pool.new number) }
    ensures grown { Grows pool.old pool.new }
{
    let made = make_stack(alloc, flows, number, table, pool)?;
    let frag = pool.promote(made.frag)?;
    Ok(LaidStack {
        height: made.height,
        frag,
    })
}

/// Lays a stack out, and gives up the trial nodes that this took.
fn lay_stack(
    alloc: Global,
    flows: &Flows,
    number: u32,
    table: &[Option<Stands>],
    pool: &mut Pool,
) -> Result<LaidStack, NoMemory>
    requires number { number < length flows.now.stacks }
    requires count { length table.now ≡ length flows.now.rows }
    requires table { HasStanding flows.now pool.old (rows_of_stacks flows.now (length flows.now.stacks)) table.now }
    ensures laid { IfOk result (IsLaidStack flows.now pool.new number) }
    ensures pool { SameTrial pool.old pool.new }
{
    let mark = pool.mark();
    let laid = kept_stack(alloc, flows, number, table, pool);
    pool.release(&mark);
    laid
}

/// Lays all stacks out, whose rows stand in the table by their numbers.
pub fn lay_stacks(
    alloc: Global,
    flows: &Flows,
    table: &[Option<Stands>],
    pool: &mut Pool,
) -> Result<List<LaidStack>, NoMemory>
    requires count { length table.now ≡ length flows.now.rows }
    requires table { HasStanding flows.now pool.old (rows_of_stacks flows.now (length flows.now.stacks)) table.now }
    ensures stacks { IfOk result (AreLaidStacks flows.now pool.new) }
    ensures count { IfOk result (λ stacks. length stacks ≡ length flows.now.stacks) }
    ensures pool { SameTrial pool.old pool.new }
{
    let mut stacks = List::new(alloc);
    let count = flow_counts(flows).stacks;
    for number in 0..count {
        let laid = lay_stack(alloc, flows, number, table, pool)?;
        stacks.push(laid)?;
    }
    Ok(stacks)
}
