//! What stands in a stack: its strip is walked once more, and each thing in it gets its place.

ghost use Rattle.std.specs.Prelude.{◌≡◌, ◌+◌, ◌<◌, ◌^◌, ◌++◌, ◌∷◌, [], All, IfOk, List, None, OnOk, Some, cond, false};
ghost use Rattle.std.specs.Prelude.{get_or, length, map};
ghost use Rattle.flow_data.specs.Flows.{flow_of, item_of, row_of, seam_of, stack_of};
ghost use Rattle.flow_list.specs.ClonedEdges.{tops};
ghost use Rattle.flow_list.specs.Fragments.{continued_from, laid_in_stack};
ghost use Rattle.flow_list.specs.Placing.{Laid, laid_edges, places_from};
ghost use Rattle.flow_list.specs.Stacks.{height_in_stack, stack_strip};
ghost use Rattle.flow_list.specs.Strip.{begins, lay_all, put, strip_at};
ghost use Rattle.mc_base.specs.PlainTree.{plain_trees};
ghost use Rattle.frag_maker.specs.Building.{IsMade, laid_row, placed_as};
ghost use Rattle.column_places.specs.Placing.{HasMargin, Leads, rows_of, rows_placed, strip_of, with_more};
ghost use Rattle.frag_pool.specs.Growing.{Grows};
ghost use Rattle.container_layout.specs.Found.{HasStanding, IsStanding, rows_of_stacks};
ghost use Rattle.container_layout.specs.Laid.{IsStack, columns_in, in_stack};
ghost use Rattle.container_layout.specs.Placed.{AllHaveColumns, laid_in, places_in, stack_item};

use crate::find::{available_in, item_in};
use crate::lay::Stands;
use crate::pieces::piece_with;
use column_places::Placing;
use flow_list::{
    Flows, Item, Stack, box_at, flow_counts, item_count, opened_in, row_at, seam_at, stack_at,
};
use frag_maker::{MadeRow, Placed};
use frag_pool::Pool;
use mc_base::{NoMemory, Token, Units};
use std::alloc::Global;

/// What stands in a stack, and how far its strip reaches, in units.
#[derive(Drop)]
pub struct Placement {
    pub placed: Vec<Placed>,
    pub y: Units,
}

/// The boxes that are open where a stack begins, each below the upper cloned edges of those around it, and a strip below these
/// edges (CSS Fragmentation 3, section 5.4).
fn continued(alloc: Global, flows: &Flows, boxes: &[u32]) -> Result<Placing, NoMemory>
    requires known { All (λ b. b < length flows.now.boxes) boxes.now }
    requires room { tops flows.now boxes.now < 2 ^ 63 }
    ensures places { IfOk result (λ at. (more : List Laid) → with_more at more
        ≡ continued_from flows.now 0 boxes.now ++ places_from (length more + 1) (tops flows.now boxes.now) more) }
    ensures margin { IfOk result (λ at. HasMargin at) }
    ensures strip { IfOk result (λ at. strip_of at ≡ strip_at (tops flows.now boxes.now) false) }
    ensures rows { IfOk result (λ at. rows_of at ≡ []) }
{
    let mut placed = Vec::new(alloc);
    let mut y: Units = 0;
    for number in boxes {
        placed.push(Placed::Opens {
            number: *number,
            y,
            starts: false,
        })?;
        y += box_at(flows, *number).top;
    }
    Ok(Placing::new(alloc, y, false, placed))
}

/// A stack that begins, after the head of its first seam.
pub fn begin_stack(alloc: Global, flows: &Flows, stack: Stack) -> Result<Placing, NoMemory>
    requires stack { IsStack flows.now stack }
    ensures places { IfOk result (λ at. (more : List Laid) → with_more at more ≡ places_in flows.now stack
        (laid_edges (strip_at (tops flows.now (flow_of flows.now stack.flow).opened) false)
        (seam_of (flow_of flows.now stack.flow) 0).head ++ more)) }
    ensures margin { IfOk result (λ at. HasMargin at) }
    ensures strip { IfOk result (λ at. strip_of at ≡ stack_strip flows.now stack.bound (flow_of flows.now stack.flow) 0) }
    ensures rows { IfOk result (λ at. rows_of at ≡ []) }
{
    // Sealed flows are sound.
    let _counts = flow_counts(flows);
    let mut at = continued(alloc, flows, opened_in(flows, stack.flow).as_slice())?;
    at.lay_all(alloc, seam_at(flows, stack.flow, 0).head.as_slice())?;
    Ok(at)
}

/// The height of the columns of a row of this height: with `column-fill: auto` what is available.
fn columns_height(flows: &Flows, row: u32, stands: Stands) -> Option<Units>
    requires { row < length flows.now.rows }
    ensures { result ≡ cond (row_of flows.now row).auto stands.available (Some stands.height) }
{
    if row_at(flows, row).auto {
        stands.available
    } else {
        Some(stands.height)
    }
}

/// The row of a number, as it stands in its stack.
fn standing_row(
    alloc: Global,
    flows: &Flows,
    row: u32,
    stands: Stands,
    pool: &mut Pool,
) -> Result<MadeRow, NoMemory>
    requires row { row < length flows.now.rows }
    requires stands { IsStanding flows.now pool.old row stands }
    ensures laid { IfOk result (λ made. laid_row made ≡ in_stack flows.now row stands.available) }
    ensures made { IfOk result (λ made. IsMade pool.new (plain_trees (columns_in flows.now (laid_row made))) made) }
    ensures grown { Grows pool.old pool.new }
{
    let made = piece_with(alloc, pool, stands.frag, row, None)?;
    Ok(MadeRow {
        row,
        from: Token::start(alloc, 0),
        height: stands.height,
        made_at: columns_height(flows, row, stands),
        filled: false,
        made,
    })
}

/// The row of a number as it stands in its stack, if one does.
fn stands_at(table: &[Option<Stands>], number: u32) -> Option<Stands>
    requires { number < length table.now }
    ensures { result ≡ get_or table.now number None }
{
    table[number as usize]
}

/// Lays item `k` of a stack.
fn stand_item(
    alloc: Global,
    flows: &Flows,
    stack: Stack,
    table: &[Option<Stands>],
    at: &mut Placing,
    k: u32,
    pool: &mut Pool,
) -> Result<(), NoMemory>
    requires stack { IsStack flows.now stack }
    requires item { k < length (flow_of flows.now stack.flow).items }
    requires count { length table.now ≡ length flows.now.rows }
    requires table { HasStanding flows.now pool.old (rows_of_stacks flows.now (length flows.now.stacks)) table.now }
    requires strip { strip_of at.old ≡ stack_strip flows.now stack.bound (flow_of flows.now stack.flow) k }
    requires margin { HasMargin at.old }
    requires made { AllHaveColumns flows.now pool.old (rows_of at.old) }
    ensures leads { OnOk result (Leads at.old
        (laid_in_stack flows.now stack.bound (flow_of flows.now stack.flow) k (item_of (flow_of flows.now stack.flow) k) ∷ [])
        (put (strip_of at.old) (height_in_stack flows.now stack.bound (item_of (flow_of flows.now stack.flow) k)
        (begins (strip_of at.old)))) at.new) }
    ensures made { OnOk result (AllHaveColumns flows.now pool.new (rows_of at.new)) }
    ensures grown { Grows pool.old pool.new }
{
    // Sealed flows are sound.
    let _counts = flow_counts(flows);
    match item_in(flows, stack.flow, k) {
        Item::Atom { height, .. } => {
            at.stand(alloc, k, height)?;
            Ok(())
        }
        Item::Row(row) => {
            let Some(stands) = stands_at(table, row) else {
                unreachable!()
            };
            let made = standing_row(alloc, flows, row, stands, pool)?;
            at.stand_row(alloc, made)?;
            Ok(())
        }
    }
}

/// Lays item `k` of a stack, and the seam after it.
fn pass_item(
    alloc: Global,
    flows: &Flows,
    stack: Stack,
    table: &[Option<Stands>],
    at: &mut Placing,
    k: u32,
    pool: &mut Pool,
) -> Result<(), NoMemory>
    requires stack { IsStack flows.now stack }
    requires item { k < length (flow_of flows.now stack.flow).items }
    requires count { length table.now ≡ length flows.now.rows }
    requires table { HasStanding flows.now pool.old (rows_of_stacks flows.now (length flows.now.stacks)) table.now }
    requires strip { strip_of at.old ≡ stack_strip flows.now stack.bound (flow_of flows.now stack.flow) k }
    requires margin { HasMargin at.old }
    requires made { AllHaveColumns flows.now pool.old (rows_of at.old) }
    ensures leads { OnOk result (Leads at.old (stack_item flows.now stack.bound (flow_of flows.now stack.flow) k)
        (stack_strip flows.now stack.bound (flow_of flows.now stack.flow) (k + 1)) at.new) }
    ensures made { OnOk result (AllHaveColumns flows.now pool.new (rows_of at.new)) }
    ensures grown { Grows pool.old pool.new }
{
    // Sealed flows are sound.
    let _counts = flow_counts(flows);
    stand_item(alloc, flows, stack, table, at, k, pool)?;
    let seam = seam_at(flows, stack.flow, k + 1);
    at.lay_all(alloc, seam.tail.as_slice())?;
    at.lay_all(alloc, seam.head.as_slice())?;
    Ok(())
}

/// What stands in a stack, whose rows were laid out and stand in the table by their numbers. What was live in the region is live
/// and unchanged.
pub fn place_stack(
    alloc: Global,
    flows: &Flows,
    number: u32,
    table: &[Option<Stands>],
    pool: &mut Pool,
) -> Result<Placement, NoMemory>
    requires number { number < length flows.now.stacks }
    requires count { length table.now ≡ length flows.now.rows }
    requires table { HasStanding flows.now pool.old (rows_of_stacks flows.now (length flows.now.stacks)) table.now }
    ensures placed { IfOk result (λ placement. map placed_as placement.placed.items
        ≡ places_in flows.now (stack_of flows.now number) (laid_in flows.now (stack_of flows.now number))) }
    ensures made { IfOk result (λ placement. AllHaveColumns flows.now pool.new (rows_placed placement.placed.items)) }
    ensures y { IfOk result (λ placement. placement.y ≡ (stack_strip flows.now (stack_of flows.now number).bound
        (flow_of flows.now (stack_of flows.now number).flow)
        (length (flow_of flows.now (stack_of flows.now number).flow).items)).y) }
    ensures grown { Grows pool.old pool.new }
{
    // Sealed flows are sound.
    let _counts = flow_counts(flows);
    let stack = *stack_at(flows, number);
    let mut at = begin_stack(alloc, flows, stack)?;
    let count = item_count(flows, stack.flow);
    for k in 0..count {
        pass_item(alloc, flows, stack, table, &mut at, k, pool)?;
    }
    at.finish(alloc)?;
    Ok(Placement {
        placed: at.placed,
        y: at.y,
    })
}
