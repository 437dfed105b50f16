//! The content of a container, cut into rows at its spanners.

ghost use Rattle.std.specs.Prelude.{◌≡◌, ◌+◌, ◌^◌, ◌<◌, [], ◌∷◌, ◌++◌, true, false, IfOk, OnOk};
ghost use Rattle.box_content.specs.Cutting as cuts;
ghost use Rattle.box_content.specs.Cutting.{cut_of, depth_in, row_behind, step};

use box_data::{Mark, Placed};
use mc_base::{List, NoMemory, Units};
use std::alloc::Global;

/// What stands around the next mark: the container alone, or a block or a spanner of it, in which so many blocks are open.
#[derive(Clone, Copy)]
pub enum Around {
    Nothing,
    Block(u64),
    Spanner(u64),
}

/// What is cut so far from the content of a container: the rows and spanners that are finished, and the part after them.
///
/// `place` is the number of the container, and `x` where its rows stand. `opened` are the boxes that are open where the part
/// begins and `still_open` those that are open now, the outermost first.
#[derive(Drop)]
pub struct Cutting {
    pub place: u32,
    pub x: Units,
    pub rows: Vec<Mark>,
    pub part: Vec<Mark>,
    pub opened: Vec<u32>,
    pub still_open: Vec<u32>,
    pub around: Around,
}

/// The void of a box in its place.
fn void_of(places: &[Placed], place: u32) -> Mark
    ensures { result ≡ cuts.void_of places.now place }
{
    let x = match places.get(place as usize) {
        Some(found) => found.content_x,
        None => 0,
    };
    Mark::Void { place, x }
}

fn is_spanner(mark: &Mark) -> bool
    ensures { result ≡ cuts.is_spanner mark.now }
{
    matches!(mark, Mark::Spanner)
}

fn begins(mark: &Mark) -> bool
    ensures { result ≡ cuts.begins mark.now }
{
    matches!(mark, Mark::Stack { .. } | Mark::Row { .. } | Mark::Spanner)
}

/// The box that ends here.
fn closing(mark: &Mark) -> Option<u32>
    ensures { result ≡ cuts.closing mark.now }
{
    match mark {
        Mark::Closes { place } => Some(*place),
        _ => None,
    }
}

/// The box that begins here.
fn opening(mark: &Mark) -> Option<u32>
    ensures { result ≡ cuts.opening mark.now }
{
    match mark {
        Mark::Opens { place } => Some(*place),
        _ => None,
    }
}

/// The box with whose end a part begins.
fn first_closing(part: &[Mark]) -> Option<u32>
    ensures { result ≡ cuts.first_closing part.now }
{
    match part {
        [] => None,
        [first, ..] => closing(first),
    }
}

/// The box with whose beginning a part ends.
fn last_opening(part: &[Mark]) -> Option<u32>
    ensures { result ≡ cuts.last_opening part.now }
{
    match part.last() {
        Some(last) => opening(last),
        None => None,
    }
}

/// Adds the void of a box, if there is one.
fn add_void(places: &[Placed], place: Option<u32>, marks: &mut Vec<Mark>) -> Result<(), NoMemory>
    ensures { OnOk result (marks.new.items ≡ marks.old.items ++ cuts.voids_of places.now place) }
{
    if let Some(place) = place {
        marks.push(void_of(places, place))?;
    }
    Ok(())
}

/// Moves a part to the rows, with its voids, after the mark of its row.
fn add_row(
    places: &[Placed],
    row: Mark,
    part: &mut Vec<Mark>,
    rows: &mut Vec<Mark>,
) -> Result<(), NoMemory>
    ensures rows { OnOk result (rows.new.items ≡ rows.old.items ++ (row ∷ cuts.row_inside places.now part.old.items)) }
    ensures part { OnOk result (part.new.items ≡ []) }
{
    let first = first_closing(part);
    let last = last_opening(part);
    rows.push(row)?;
    add_void(places, first, rows)?;
    rows.append(part)?;
    add_void(places, last, rows)?;
    rows.push(Mark::End)?;
    Ok(())
}

/// Ends the part, which makes a row unless it is empty.
fn end_part(
    alloc: Global,
    places: &[Placed],
    cutting: &mut Cutting,
    is_last: bool,
) -> Result<(), NoMemory>
    ensures { OnOk result (cut_of cutting.new ≡ row_behind places.now is_last (cut_of cutting.old)) }
{
    if !cutting.part.is_empty() {
        let row = Mark::Row {
            place: cutting.place,
            x: cutting.x,
            is_last,
            opened: List::of(cutting.opened.to_vec(alloc)?),
        };
        add_row(places, row, &mut cutting.part, &mut cutting.rows)?;
    }
    Ok(())
}

/// Goes on past a mark with the boxes that are open.
fn follow(boxes: &mut Vec<u32>, mark: &Mark) -> Result<(), NoMemory>
    ensures { OnOk result (boxes.new.items ≡ cuts.open_after boxes.old.items mark.now) }
{
    match mark {
        Mark::Opens { place } => boxes.push(*place)?,
        Mark::Closes { place: _ } => {
            let _ = boxes.pop();
        }
        _ => {}
    }
    Ok(())
}

/// How many blocks are open in a block after one more mark, or `None` where it ends the block.
fn depth_after(depth: u64, mark: &Mark) -> Option<u64>
    requires { depth + 1 < 2 ^ 64 }
    ensures { result ≡ cuts.depth_after depth mark.now }
{
    if begins(mark) {
        return Some(depth + 1);
    }
    if !matches!(mark, Mark::End) {
        return Some(depth);
    }
    if depth == 0 {
        return None;
    }
    Some(depth - 1)
}

/// One more mark of the content itself.
fn add_in_flow(
    alloc: Global,
    places: &[Placed],
    cutting: &mut Cutting,
    mark: Mark,
) -> Result<(), NoMemory>
    ensures { OnOk result (cut_of cutting.new ≡ cuts.in_flow places.now (cut_of cutting.old) mark) }
{
    if is_spanner(&mark) {
        end_part(alloc, places, cutting, false)?;
        cutting.around = Around::Spanner(0);
        return Ok(());
    }
    follow(&mut cutting.still_open, &mark)?;
    cutting.around = if begins(&mark) {
        Around::Block(0)
    } else {
        Around::Nothing
    };
    cutting.part.push(mark)?;
    Ok(())
}

/// One more mark in a block.
fn add_in_block(cutting: &mut Cutting, depth: u64, mark: Mark) -> Result<(), NoMemory>
    requires { depth + 1 < 2 ^ 64 }
    ensures { OnOk result (cut_of cutting.new ≡ cuts.in_block depth (cut_of cutting.old) mark) }
{
    cutting.around = match depth_after(depth, &mark) {
        Some(depth) => Around::Block(depth),
        None => Around::Nothing,
    };
    cutting.part.push(mark)?;
    Ok(())
}

/// One more mark in a spanner, which itself has none.
fn add_in_spanner(
    alloc: Global,
    cutting: &mut Cutting,
    depth: u64,
    mark: Mark,
) -> Result<(), NoMemory>
    requires { depth + 1 < 2 ^ 64 }
    ensures { OnOk result (cut_of cutting.new ≡ cuts.in_spanner depth (cut_of cutting.old) mark) }
{
    match depth_after(depth, &mark) {
        Some(depth) => {
            cutting.around = Around::Spanner(depth);
            cutting.rows.push(mark)?;
        }
        None => {
            cutting.around = Around::Nothing;
            cutting.opened = cutting.still_open.to_vec(alloc)?;
        }
    }
    Ok(())
}

/// One more mark.
fn add(alloc: Global, places: &[Placed], cutting: &mut Cutting, mark: Mark) -> Result<(), NoMemory>
    requires { depth_in cutting.old.around + 1 < 2 ^ 64 }
    ensures { OnOk result (cut_of cutting.new ≡ step places.now (cut_of cutting.old) mark) }
{
    match cutting.around {
        Around::Nothing => add_in_flow(alloc, places, cutting, mark),
        Around::Block(depth) => add_in_block(cutting, depth, mark),
        Around::Spanner(depth) => add_in_spanner(alloc, cutting, depth, mark),
    }
}

/// The rows and spanners of a container with this content, in turn (CSS Multi-column 1, section 6).
pub fn cut(
    alloc: Global,
    places: &[Placed],
    place: u32,
    x: Units,
    inside: Vec<Mark>,
) -> Result<Vec<Mark>, NoMemory>
    ensures { IfOk result (λ rows. rows.items ≡ cuts.rows_in places.now place x inside.items) }
{
    let mut cutting = Cutting {
        place,
        x,
        rows: Vec::new(alloc),
        part: Vec::new(alloc),
        opened: Vec::new(alloc),
        still_open: Vec::new(alloc),
        around: Around::Nothing,
    };
    for mark in inside {
        add(alloc, places, &mut cutting, mark)?;
    }
    end_part(alloc, places, &mut cutting, true)?;
    let Cutting { rows, .. } = cutting;
    Ok(rows)
}
