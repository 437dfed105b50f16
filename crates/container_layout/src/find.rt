//! The rows directly in stacks, and how much height is available to each.

ghost use Rattle.std.specs.Prelude.{◌≡◌, ◌+◌, ◌<◌, ◌++◌, [], IfOk, List, OnOk, Some, None, length, set, replicate, true};
ghost use Rattle.flow_data.specs.Flows.{flow_of, item_of, stack_of};
ghost use Rattle.flow_list.specs.Certificate.{StackRow, stack_row};
ghost use Rattle.column_strip.specs.Strips.{strip_of};
ghost use Rattle.flow_list.specs.Stacks.{available_at, available_to, height_in_stack, stack_strip};
ghost use Rattle.frag_pool.specs.Nodes.{SameTrial};
ghost use Rattle.inner_rows.specs.TrueBook.{AreTrue, BookAfter};
ghost use Rattle.container_layout.specs.Laid.{IsStack};
ghost use Rattle.container_layout.specs.Found.{HasFound, rows_are_alike, rows_before, rows_of_stack, rows_of_stacks};

use crate::lay::row_height;
use crate::walk::begin_stack;
use column_strip::Laying;
use flow_list::{
    Book, Bound, Counts, Flows, Item, Stack, flow_counts, item_at, item_count, seam_at, stack_at,
};
use frag_pool::Pool;
use inner_rows::InnerRows;
use mc_base::{NoMemory, Units};
use range_laws::entries_stand_once;
use std::alloc::Global;

/// The height that is available to a row directly in a stack, in units; none where that is unlimited.
#[derive(Clone, Copy)]
pub struct Found {
    pub available: Option<Units>,
}

/// What is available to a row that begins at `y` in a stack: any height, this much, or what is left of the stack's own
/// height, at least 1px.
pub fn available_in(bound: Bound, y: Units) -> Option<Units>
    ensures { result ≡ available_at bound y }
{
    match bound {
        Bound::Free => None,
        Bound::Each(height) => Some(height),
        Bound::Left(height) => Some(height.saturating_sub(y).max(64)),
    }
}

/// Item `k` of a flow.
pub fn item_in(flows: &Flows, flow: u32, k: u32) -> Item
    requires flow { flow < length flows.now.flows }
    requires item { k < length (flow_of flows.now flow).items }
    ensures { result ≡ item_of (flow_of flows.now flow) k }
{
    let mut tally = Counts {
        reads: 0,
        below: 0,
        folds: 0,
    };
    item_at(flows, flow, k, &mut tally)
}

/// Notes a row under its number.
fn note(table: &mut Vec<Option<Found>>, row: u32, found: Found)
    requires { row < length table.old.items }
    ensures { table.new.items ≡ set table.old.items row (Some found) }
{
    table[row as usize] = Some(found);
}

/// Notes item `k` of a stack, if it is a row, which has what is available to a row at `y`.
fn note_item(flows: &Flows, stack: Stack, k: u32, y: Units, table: &mut Vec<Option<Found>>)
    requires stack { IsStack flows.now stack }
    requires item { k < length (flow_of flows.now stack.flow).items }
    requires available { available_at stack.bound y ≡ available_to flows.now stack.bound (flow_of flows.now stack.flow) k }
    requires table { length table.old.items ≡ length flows.now.rows }
    ensures found { (rows more : List StackRow) → rows_of_stacks flows.now (length flows.now.stacks)
        ≡ (rows ++ stack_row flows.now stack.bound (flow_of flows.now stack.flow) k (item_of (flow_of flows.now stack.flow) k))
        ++ more → HasFound flows.now rows table.old.items →
        HasFound flows.now
        (rows ++ stack_row flows.now stack.bound (flow_of flows.now stack.flow) k (item_of (flow_of flows.now stack.flow) k))
        table.new.items }
    ensures table { length table.new.items ≡ length table.old.items }
{
    // In sealed flows, which are sound, this is a law.
    let _counts = flow_counts(flows);
    entries_stand_once();
    match item_in(flows, stack.flow, k) {
        Item::Atom { .. } => {}
        Item::Row(row) => {
            let available = available_in(stack.bound, y);
            note(table, row, Found { available });
        }
    }
}

/// Notes the rows directly in a stack in which what is available doesn't depend on where they begin.
fn find_alike(flows: &Flows, stack: Stack, table: &mut Vec<Option<Found>>)
    requires stack { IsStack flows.now stack }
    requires alike { rows_are_alike stack.bound ≡ true }
    requires table { length table.old.items ≡ length flows.now.rows }
    ensures found { (rows more : List StackRow) → rows_of_stacks flows.now (length flows.now.stacks)
        ≡ (rows ++ rows_before flows.now stack.bound (flow_of flows.now stack.flow)
        (length (flow_of flows.now stack.flow).items)) ++ more → HasFound flows.now rows table.old.items →
        HasFound flows.now (rows ++ rows_before flows.now stack.bound (flow_of flows.now stack.flow)
        (length (flow_of flows.now stack.flow).items)) table.new.items }
    ensures table { length table.new.items ≡ length table.old.items }
{
    // Sealed flows are sound.
    let _counts = flow_counts(flows);
    let count = item_count(flows, stack.flow);
    for k in 0..count {
        note_item(flows, stack, k, 0, table);
    }
}

/// The height of an item in a stack, where it begins at `y`.
fn item_height<I: InnerRows>(
    alloc: Global,
    inner: &mut I,
    flows: &Flows,
    stack: Stack,
    k: u32,
    y: Units,
    book: &mut Book,
    pool: &mut Pool,
) -> Result<Units, NoMemory>
    requires stack { IsStack flows.now stack }
    requires item { k < length (flow_of flows.now stack.flow).items }
    requires depth { I.depth inner.old ≡ 2 }
    requires engine { I.is_true inner.old flows.now book.old pool.old }
    requires book { AreTrue flows.now book.old }
    ensures height { IfOk result (λ height. height
        ≡ height_in_stack flows.now stack.bound (item_of (flow_of flows.now stack.flow) k) y) }
    ensures depth { I.depth inner.new ≡ I.depth inner.old }
    ensures engine { I.is_true inner.new flows.now book.new pool.new }
    ensures book { BookAfter flows.now book.old book.new }
    ensures pool { SameTrial pool.old pool.new }
{
    // Sealed flows are sound.
    let _counts = flow_counts(flows);
    match item_in(flows, stack.flow, k) {
        Item::Atom { height, .. } => Ok(height),
        Item::Row(row) => {
            let available = available_in(stack.bound, y);
            row_height(alloc, inner, flows, row, available, book, pool)
        }
    }
}

/// The strip of a stack before its first item, after the head of the first seam.
fn first_strip(alloc: Global, flows: &Flows, stack: Stack) -> Result<Laying, NoMemory>
    requires stack { IsStack flows.now stack }
    ensures { IfOk result (λ strip. strip_of strip ≡ stack_strip flows.now stack.bound (flow_of flows.now stack.flow) 0) }
{
    let at = begin_stack(alloc, flows, stack)?;
    Ok(Laying {
        y: at.y,
        pending: at.margin,
        drops: at.drops,
    })
}

/// The strip before item `k + 1`, where this one stands before item `k`, which has this height.
fn next_strip(flows: &Flows, stack: Stack, k: u32, strip: Laying, height: Units) -> Laying
    requires stack { IsStack flows.now stack }
    requires item { k < length (flow_of flows.now stack.flow).items }
    requires strip { strip_of strip ≡ stack_strip flows.now stack.bound (flow_of flows.now stack.flow) k }
    requires height { height ≡ height_in_stack flows.now stack.bound (item_of (flow_of flows.now stack.flow) k)
        (strip.y + strip.pending) }
    ensures { strip_of result ≡ stack_strip flows.now stack.bound (flow_of flows.now stack.flow) (k + 1) }
{
    // Sealed flows are sound.
    let _counts = flow_counts(flows);
    let seam = seam_at(flows, stack.flow, k + 1);
    strip
        .past(height, seam.tail.as_slice())
        .lay_all(seam.head.as_slice())
}

/// Notes the rows directly in a stack that has a height of its own: what is left of it where a row begins. So the rows are laid
/// out for their heights, with a book that is let go.
fn find_left<I: InnerRows>(
    alloc: Global,
    inner: &mut I,
    flows: &Flows,
    number: u32,
    table: &mut Vec<Option<Found>>,
    book: &mut Book,
    pool: &mut Pool,
) -> Result<(), NoMemory>
    requires number { number < length flows.now.stacks }
    requires table { length table.old.items ≡ length flows.now.rows }
    requires depth { I.depth inner.old ≡ 2 }
    requires engine { I.is_true inner.old flows.now book.old pool.old }
    requires book { AreTrue flows.now book.old }
    ensures found { (rows more : List StackRow) → rows_of_stacks flows.now (length flows.now.stacks)
        ≡ (rows ++ rows_before flows.now (stack_of flows.now number).bound (flow_of flows.now (stack_of flows.now number).flow)
        (length (flow_of flows.now (stack_of flows.now number).flow).items)) ++ more → HasFound flows.now rows table.old.items →
        OnOk result (HasFound flows.now (rows ++ rows_before flows.now (stack_of flows.now number).bound
        (flow_of flows.now (stack_of flows.now number).flow)
        (length (flow_of flows.now (stack_of flows.now number).flow).items)) table.new.items) }
    ensures table { length table.new.items ≡ length table.old.items }
    ensures depth { I.depth inner.new ≡ I.depth inner.old }
    ensures engine { I.is_true inner.new flows.now book.new pool.new }
    ensures book { BookAfter flows.now book.old book.new }
    ensures pool { SameTrial pool.old pool.new }
{
    // Sealed flows are sound.
    let _counts = flow_counts(flows);
    let stack = *stack_at(flows, number);
    let mut strip = first_strip(alloc, flows, stack)?;
    let count = item_count(flows, stack.flow);
    for k in 0..count {
        let y = strip.y + strip.pending;
        note_item(flows, stack, k, y, table);
        let height = item_height(alloc, inner, flows, stack, k, y, book, pool)?;
        strip = next_strip(flows, stack, k, strip, height);
    }
    Ok(())
}

/// Whether what is available in a stack doesn't depend on where a row begins.
fn is_alike(bound: Bound) -> bool
    ensures { result ≡ rows_are_alike bound }
{
    match bound {
        Bound::Free => true,
        Bound::Each(_) => true,
        Bound::Left(_) => false,
    }
}

/// Notes the rows directly in a stack.
fn find_in<I: InnerRows>(
    alloc: Global,
    inner: &mut I,
    flows: &Flows,
    number: u32,
    table: &mut Vec<Option<Found>>,
    book: &mut Book,
    pool: &mut Pool,
) -> Result<(), NoMemory>
    requires number { number < length flows.now.stacks }
    requires table { length table.old.items ≡ length flows.now.rows }
    requires depth { I.depth inner.old ≡ 2 }
    requires engine { I.is_true inner.old flows.now book.old pool.old }
    requires book { AreTrue flows.now book.old }
    ensures found { (rows more : List StackRow) → rows_of_stacks flows.now (length flows.now.stacks)
        ≡ (rows ++ rows_of_stack flows.now number) ++ more → HasFound flows.now rows table.old.items →
        OnOk result (HasFound flows.now (rows ++ rows_of_stack flows.now number) table.new.items) }
    ensures table { length table.new.items ≡ length table.old.items }
    ensures depth { I.depth inner.new ≡ I.depth inner.old }
    ensures engine { I.is_true inner.new flows.now book.new pool.new }
    ensures book { BookAfter flows.now book.old book.new }
    ensures pool { SameTrial pool.old pool.new }
{
    // Sealed flows are sound.
    let _counts = flow_counts(flows);
    let stack = *stack_at(flows, number);
    let alike = is_alike(stack.bound);
    if alike {
        find_alike(flows, stack, table);
        Ok(())
    } else {
        find_left(alloc, inner, flows, number, table, book, pool)
    }
}

/// A table in which nothing is noted.
fn empty_table(alloc: Global, count: u32) -> Result<Vec<Option<Found>>, NoMemory>
    ensures { IfOk result (λ table. table.items ≡ replicate count None) }
{
    let mut table = Vec::new(alloc);
    for _number in 0..count {
        table.push(None)?;
    }
    Ok(table)
}

/// The rows directly in stacks, each under its number. The region's trial nodes are as they were.
pub fn find_rows<I: InnerRows>(
    alloc: Global,
    inner: &mut I,
    flows: &Flows,
    pool: &mut Pool,
) -> Result<Vec<Option<Found>>, NoMemory>
    requires depth { I.depth inner.old ≡ 2 }
    requires engine { I.is_true inner.old flows.now [] pool.old }
    ensures found { IfOk result (λ table. HasFound flows.now (rows_of_stacks flows.now (length flows.now.stacks)) table.items) }
    ensures pool { SameTrial pool.old pool.new }
{
    let counts = flow_counts(flows);
    let mut table = empty_table(alloc, counts.rows)?;
    let mut book = Book::new(alloc);
    for number in 0..counts.stacks {
        find_in(alloc, inner, flows, number, &mut table, &mut book, pool)?;
    }
    Ok(table)
}
