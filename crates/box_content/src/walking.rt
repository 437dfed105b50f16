//! The boxes of a document in document order, with those that are open.

ghost use Rattle.std.specs.Prelude.{◌≡◌, ◌-◌, ◌^◌, ◌<◌, ◌++◌, reverse, length, vec_len, All, None, IfOk, OnOk};
ghost use Rattle.box_data.specs.Bounds.{AreParented};
ghost use Rattle.box_data.specs.BoxTree.{Boxes, in_order};
ghost use Rattle.box_data.specs.Content.{content_of, marks};
ghost use Rattle.box_data.specs.declared.placed.Placed.{Placed as OnePlaced};
ghost use Rattle.box_content.specs.Walking as walks;

use crate::closing::{Open, close};
use box_data::{Mark, Placed};
use mc_base::{List, NoMemory};
use std::alloc::Global;

/// Whether the innermost box closes before one that stands in this box begins.
fn is_past(stack: &[Open], parent: Option<u32>) -> bool
    ensures { result ≡ walks.top_is_past parent (reverse stack.now) }
{
    match stack.last() {
        Some(last) => match parent {
            Some(parent) => parent < last.number,
            None => true,
        },
        None => false,
    }
}

/// Closes the innermost box.
fn close_last(
    alloc: Global,
    places: &[Placed],
    stack: &mut Vec<Open>,
    so_far: &mut Vec<Mark>,
) -> Result<(), NoMemory>
    ensures walk { OnOk result (walks.walk_of so_far.new.items stack.new.items ≡
        walks.without_top places.now so_far.old.items (reverse stack.old.items)) }
    ensures shorter { vec_len stack.new ≡ vec_len stack.old - 1 }
{
    match stack.pop() {
        Some(last) => close(alloc, places, last, so_far),
        None => Ok(()),
    }
}

/// Closes the boxes that are open after this one, or all where there is none.
fn close_up_to(
    alloc: Global,
    places: &[Placed],
    parent: Option<u32>,
    stack: &mut Vec<Open>,
    so_far: &mut Vec<Mark>,
) -> Result<(), NoMemory>
    ensures { OnOk result (walks.walk_of so_far.new.items stack.new.items ≡
        walks.without places.now parent so_far.old.items (reverse stack.old.items)) }
{
    'closing: while is_past(stack, parent) {
        close_last(alloc, places, stack, so_far)?;
    }
    Ok(())
}

fn add_start(place: &Placed, so_far: &mut Vec<Mark>) -> Result<(), NoMemory>
    ensures { OnOk result (so_far.new.items ≡ so_far.old.items ++ walks.start_of place.now) }
{
    if place.spans {
        so_far.push(Mark::Spanner)?;
    }
    so_far.push(Mark::Opens {
        place: place.number,
    })?;
    Ok(())
}

fn add_lines(place: &Placed, so_far: &mut Vec<Mark>) -> Result<(), NoMemory>
    requires { length place.now.lines < 2 ^ 32 }
    ensures { OnOk result (so_far.new.items ≡ so_far.old.items ++ walks.line_marks place.now.number 0 place.now.lines) }
{
    for index in 0..place.lines.len() {
        so_far.push(Mark::Line {
            place: place.number,
            index: index as u32,
        })?;
    }
    Ok(())
}

/// Opens a box.
fn open_box(place: &Placed, stack: &mut Vec<Open>, so_far: &mut Vec<Mark>) -> Result<(), NoMemory>
    requires { length place.now.lines < 2 ^ 32 }
    ensures { OnOk result (walks.walk_of so_far.new.items stack.new.items ≡
        walks.with_box place.now (walks.walk_of so_far.old.items stack.old.items)) }
{
    add_start(place, so_far)?;
    stack.push(Open {
        number: place.number,
        from: so_far.len(),
    })?;
    add_lines(place, so_far)
}

/// The next box in document order.
fn walk_on(
    alloc: Global,
    places: &[Placed],
    place: &Placed,
    stack: &mut Vec<Open>,
    so_far: &mut Vec<Mark>,
) -> Result<(), NoMemory>
    requires { length place.now.lines < 2 ^ 32 }
    ensures { OnOk result (walks.walk_of so_far.new.items stack.new.items ≡
        walks.walked places.now (walks.walk_of so_far.old.items stack.old.items) place.now) }
{
    close_up_to(alloc, places, place.parent, stack, so_far)?;
    open_box(place, stack, so_far)
}

fn walk(alloc: Global, places: &[Placed]) -> Result<Vec<Mark>, NoMemory>
    requires { All (λ (p : OnePlaced). length p.lines < 2 ^ 32) places.now }
    ensures { IfOk result (λ all. all.items ≡ walks.all_marks places.now) }
{
    let mut stack = Vec::new(alloc);
    let mut so_far = Vec::new(alloc);
    for place in places {
        walk_on(alloc, places, place, &mut stack, &mut so_far)?;
    }
    close_up_to(alloc, places, None, &mut stack, &mut so_far)?;
    Ok(so_far)
}

/// What stands in the flow of a document with these boxes, in document order (CSS Multi-column 1, sections 2 and 6).
///
/// The boxes are those of a tree in document order, each with its number and that of the box around it. No box has 2^32 lines.
/// Each box opens and closes, holds a void where it has no other content, and a container holds rows of columns, cut at its
/// spanners. The only error is that there is no memory.
pub fn content(alloc: Global, places: &[Placed]) -> Result<List<Mark>, NoMemory>
    requires { All (λ (p : OnePlaced). length p.lines < 2 ^ 32) places.now }
    ensures { (tree : Boxes OnePlaced) → places.now ≡ in_order tree → AreParented None 0 tree →
        IfOk result (λ all. all ≡ marks (content_of tree)) }
{
    Ok(List::of(walk(alloc, places)?))
}
