//! The fragments of what is placed in a column, from the inside out.

ghost use Rattle.std.specs.Prelude.{◌≡◌, ◌+◌, ◌<◌, ◌≤◌, [], All, IfNone, IfOk, IfSome, List, MatchOption, None, Some};
ghost use Rattle.std.specs.Prelude.{OnErr, OnOk, cond, drop, false, length, map, take, true};
ghost use Rattle.mc_base.specs.PlainTree.{PlainTree, PlainTrees, plain_trees};
ghost use Rattle.mc_base.specs.declared.fragment.FragId.TheVariants.{Trial};
ghost use Rattle.flow_list.specs.Placing.{RowLaid};
ghost use Rattle.flow_list.specs.Fragments.{all_trees, behind_box, bottom_of, closes_here, inside_box, place_of};
ghost use Rattle.frag_pool.specs.Nodes.{IsLive, ids_of, trial_more};
ghost use Rattle.frag_pool.specs.Standing.{AllStandFor, StandsFor};
ghost use Rattle.frag_pool.specs.Growing.{Grows};
ghost use Rattle.frag_maker.specs.Building.{IsMade, RowsAreMade, piece_at, placed_as, row_live};

use crate::placed::{MadeRow, Placed};
use frag_pool::Pool;
use mc_base::{FragId, List, NoMemory, Node, Units};
use std::alloc::Global;

/// Where a box ends: at which of these, and where that stands.
#[derive(Clone, Copy)]
struct Close {
    pub at: usize,
    pub y: Units,
}

/// Where this stands, if it is where a box ends.
fn end_in(number: u32, placed: &Placed) -> Option<Units>
    ensures other { IfNone result (closes_here number (placed_as placed.now) ≡ false) }
    ensures end { IfSome result (λ y. (closes_here number (placed_as placed.now) ≡ true)
        × (place_of (placed_as placed.now) ≡ y)) }
{
    match placed {
        Placed::Closes { number: ended, y } => { if *ended == number { Some(*y) } else { None } }
        _ => None,
    }
}

/// Where a box ends among these, if it does.
fn close_of(number: u32, placed: &[Placed]) -> Option<Close>
    ensures inside { MatchOption result (inside_box number (map placed_as placed.now) ≡ map placed_as placed.now)
        (λ c. (c.at < length placed.now)
        × (inside_box number (map placed_as placed.now) ≡ map placed_as (take c.at placed.now))) }
    ensures after { MatchOption result (behind_box number (map placed_as placed.now) ≡ [])
        (λ c. behind_box number (map placed_as placed.now) ≡ map placed_as (drop (c.at + 1) placed.now)) }
    ensures bottom { MatchOption result (bottom_of number (map placed_as placed.now) ≡ None)
        (λ c. bottom_of number (map placed_as placed.now) ≡ Some c.y) }
{
    for i in 0..placed.len() {
        if let Some(y) = end_in(number, &placed[i]) {
            return Some(Close { at: i, y });
        }
    }
    None
}

/// How many of these stand in a box, where those after it begin, and the place of its end, if it ends there.
#[derive(Clone, Copy)]
struct BoxEnd {
    at: usize,
    next: usize,
    bottom: Option<Units>,
}

fn end_of_box(number: u32, placed: &[Placed]) -> BoxEnd
    ensures at { result.at ≤ length placed.now }
    ensures next { result.next ≤ length placed.now }
    ensures inside { inside_box number (map placed_as placed.now) ≡ map placed_as (take result.at placed.now) }
    ensures after { behind_box number (map placed_as placed.now) ≡ map placed_as (drop result.next placed.now) }
    ensures bottom { bottom_of number (map placed_as placed.now) ≡ result.bottom }
{
    match close_of(number, placed) {
        Some(close) => BoxEnd {
            at: close.at,
            next: close.at + 1,
            bottom: Some(close.y),
        },
        None => BoxEnd {
            at: placed.len(),
            next: placed.len(),
            bottom: None,
        },
    }
}

fn first(placed: &[Placed], n: usize) -> &[Placed]
    requires { n ≤ length placed.now }
    ensures { result.now ≡ take n placed.now }
{
    &placed[..n]
}

fn later(placed: &[Placed], n: usize) -> &[Placed]
    requires { n ≤ length placed.now }
    ensures { result.now ≡ drop n placed.now }
{
    &placed[n..]
}

/// Adds a trial node, and lets it go where there is no memory for it.
pub fn add_node(pool: &mut Pool, node: Node) -> Result<FragId, NoMemory>
    requires { All (IsLive pool.old) (ids_of node) }
    ensures ok { OnOk result (pool.new ≡ trial_more pool.old node) }
    ensures id { IfOk result (λ id. id ≡ Trial (length pool.old.trial)) }
    ensures err { OnErr result (pool.new ≡ pool.old) }
{
    match pool.add(node) {
        Ok(id) => Ok(id),
        Err(_) => Err(NoMemory),
    }
}

/// The ids in a node.
pub fn ids_in(node: &Node) -> &[FragId]
    ensures { result.now ≡ ids_of node.now }
{
    match node {
        Node::Atom { item: _, y: _ } => &[],
        Node::Piece { kids, .. } => kids.as_slice(),
        Node::RowPiece { columns, .. } => columns.as_slice(),
        Node::Column { kids, .. } => kids.as_slice(),
    }
}

/// These ids once more.
fn copied(alloc: Global, ids: &[FragId]) -> Result<List<FragId>, NoMemory>
    ensures { IfOk result (λ copy. copy ≡ ids.now) }
{
    Ok(List::of(ids.iter().copied().collect(alloc)?))
}

/// The height of a row's piece: none where the row is filled.
fn height_of(stands: &MadeRow) -> Option<Units>
    ensures { result ≡ cond stands.now.filled None (Some stands.now.height) }
{
    if stands.filled {
        None
    } else {
        Some(stands.height)
    }
}

/// Adds the piece of a row that stands at a place of a column: the columns are those of what is made of the row.
fn add_row(alloc: Global, pool: &mut Pool, stands: &MadeRow, y: Units) -> Result<FragId, NoMemory>
    requires { IsLive pool.old stands.now.made }
    ensures piece { (columns : PlainTrees) → IsMade pool.old columns stands.now →
        IfOk result (λ id. StandsFor pool.new id (piece_at stands.now y columns)) }
    ensures live { IfOk result (IsLive pool.new) }
    ensures grown { Grows pool.old pool.new }
{
    let columns = copied(alloc, ids_in(pool.get(stands.made)))?;
    let id = add_node(
        pool,
        Node::RowPiece {
            row: stands.row,
            from: stands.from.copy(),
            y,
            height: height_of(stands),
            columns,
        },
    )?;
    Ok(id)
}

/// Makes the fragments of what is placed, box within box. When out of memory, all that was live is live and unchanged, and the
/// trial nodes made so far are the caller's to release.
pub fn build_all(
    alloc: Global,
    pool: &mut Pool,
    placed: &[Placed],
) -> Result<List<FragId>, NoMemory>
    requires rows { All (row_live pool.old) placed.now }
    ensures trees { (columns : RowLaid → List PlainTree) → RowsAreMade pool.old columns placed.now →
        IfOk result (λ ids. AllStandFor pool.new ids (plain_trees (all_trees columns (map placed_as placed.now)))) }
    ensures live { IfOk result (All (IsLive pool.new)) }
    ensures grown { Grows pool.old pool.new }
{
    let mut ids = List::new(alloc);
    let mut i = 0;
    while i < placed.len() {
        match &placed[i] {
            Placed::Opens { number, y, starts } => {
                let rest = later(placed, i + 1);
                let end = end_of_box(*number, rest);
                let kids = build_all(alloc, pool, first(rest, end.at))?;
                let id = add_node(
                    pool,
                    Node::Piece {
                        owner: *number,
                        starts: *starts,
                        y: *y,
                        bottom: end.bottom,
                        kids,
                    },
                )?;
                ids.push(id)?;
                i += 1 + end.next;
            }
            Placed::Closes { number: _, y: _ } => {
                i += 1;
            }
            Placed::Atom { item, y } => {
                let id = add_node(pool, Node::Atom { item: *item, y: *y })?;
                ids.push(id)?;
                i += 1;
            }
            Placed::Row { stands, y } => {
                let id = add_row(alloc, pool, stands, *y)?;
                ids.push(id)?;
                i += 1;
            }
        }
    }
    Ok(ids)
}
