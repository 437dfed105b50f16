//! Where a box ends.

ghost use Rattle.std.specs.Prelude.{◌≡◌, ◌++◌, take, drop, IfOk, OnOk};
ghost use Rattle.box_data.specs.Widths as widths;
ghost use Rattle.box_content.specs.Cutting.{rows_in};
ghost use Rattle.box_content.specs.Walking as walks;

use crate::cutting::cut;
use box_data::{BoxKind, Length, Mark, Placed};
use mc_base::{NoMemory, Units};
use std::alloc::Global;

/// A box that is open: its number, and how many marks stand before its content.
#[derive(Clone, Copy)]
pub struct Open {
    pub number: u32,
    pub from: usize,
}

fn is_bounded(place: &Placed) -> bool
    ensures { result ≡ widths.is_bounded place.now }
{
    match place.style.height {
        Length::Auto => false,
        Length::Units(_) => true,
        Length::Percent(_) => false,
    }
}

/// Takes the marks from this place on.
fn taken_from(alloc: Global, marks: &mut Vec<Mark>, from: usize) -> Result<Vec<Mark>, NoMemory>
    ensures front { OnOk result (marks.new.items ≡ take from marks.old.items) }
    ensures rest { IfOk result (λ rest. rest.items ≡ drop from marks.old.items) }
{
    if from < marks.len() {
        return Ok(marks.split_off(from)?);
    }
    Ok(Vec::new(alloc))
}

/// A void of a box where nothing stands from this place on.
fn fill_void(place: u32, x: Units, from: usize, marks: &mut Vec<Mark>) -> Result<(), NoMemory>
    ensures { OnOk result (marks.new.items ≡ take from marks.old.items ++ walks.or_void place x (drop from marks.old.items)) }
{
    if marks.len() <= from {
        marks.push(Mark::Void { place, x })?;
    }
    Ok(())
}

/// The rows and spanners of a container, or its void.
fn rows_or_void(
    alloc: Global,
    places: &[Placed],
    place: u32,
    x: Units,
    inside: Vec<Mark>,
) -> Result<Vec<Mark>, NoMemory>
    ensures { IfOk result (λ rows. rows.items ≡ walks.or_void place x (rows_in places.now place x inside.items)) }
{
    let mut rows = cut(alloc, places, place, x, inside)?;
    if rows.is_empty() {
        rows.push(Mark::Void { place, x })?;
    }
    Ok(rows)
}

/// Puts the content of a container in its place; a container with a height holds a stack.
fn add_container(
    alloc: Global,
    places: &[Placed],
    place: &Placed,
    inside: Vec<Mark>,
    marks: &mut Vec<Mark>,
) -> Result<(), NoMemory>
    ensures { OnOk result (marks.new.items ≡ marks.old.items ++ walks.container_marks places.now place.now inside.items) }
{
    let number = place.number;
    if is_bounded(place) {
        let mut rows = rows_or_void(alloc, places, number, 0, inside)?;
        marks.push(Mark::Stack { place: number })?;
        marks.append(&mut rows)?;
        marks.push(Mark::End)?;
    } else {
        let mut rows = rows_or_void(alloc, places, number, place.content_x, inside)?;
        marks.append(&mut rows)?;
    }
    Ok(())
}

/// Finishes what stands in a box.
fn fill(
    alloc: Global,
    places: &[Placed],
    place: &Placed,
    from: usize,
    marks: &mut Vec<Mark>,
) -> Result<(), NoMemory>
    ensures { OnOk result (marks.new.items ≡
        take from marks.old.items ++ walks.inside_of places.now place.now (drop from marks.old.items)) }
{
    match place.kind {
        BoxKind::Block => fill_void(place.number, place.content_x, from, marks),
        BoxKind::Anonymous => fill_void(place.number, place.content_x, from, marks),
        BoxKind::Container => {
            let inside = taken_from(alloc, marks, from)?;
            add_container(alloc, places, place, inside, marks)
        }
        BoxKind::ImageBlock => {
            marks.truncate(from);
            marks.push(Mark::Image {
                place: place.number,
            })?;
            Ok(())
        }
    }
}

fn add_end(place: &Placed, marks: &mut Vec<Mark>) -> Result<(), NoMemory>
    ensures { OnOk result (marks.new.items ≡ marks.old.items ++ walks.end_of place.now) }
{
    marks.push(Mark::Closes {
        place: place.number,
    })?;
    if place.spans {
        marks.push(Mark::End)?;
    }
    Ok(())
}

/// Closes a box.
pub fn close(
    alloc: Global,
    places: &[Placed],
    last: Open,
    marks: &mut Vec<Mark>,
) -> Result<(), NoMemory>
    ensures { OnOk result (marks.new.items ≡ walks.closed places.now last marks.old.items) }
{
    if let Some(place) = places.get(last.number as usize) {
        fill(alloc, places, place, last.from, marks)?;
        add_end(place, marks)?;
    }
    Ok(())
}
