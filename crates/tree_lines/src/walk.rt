//! The walk over the nodes of fragments, a line for each.

ghost use Rattle.std.specs.Prelude.{◌≡◌, ◌<◌, ◌++◌, suc, All, IfOk, OnOk, length, option_to_list, slice_get, Some};
ghost use Rattle.flow_data.specs.Flows.{flow_of, item_of};
ghost use Rattle.flow_list.specs.Tree.{item_lines, Frame};
ghost use Rattle.frag_pool.specs.Nodes.{IsBelow, IsLive};
ghost use Rattle.tree_lines.specs.Lines.{lines_of};
ghost use Rattle.tree_lines.specs.Standing.{IsAt};
ghost use Rattle.tree_lines.specs.Shown.{Given, given_lines, ItemFits, StackFits, node_extent, Tree, TreeFits};
ghost use Rattle.tree_lines.specs.Shown.{tree_lines as lines_in_tree, Trees, TreesFit};
ghost use Rattle.tree_lines.specs.Shown.{trees_lines, Column, ColumnFits, column_lines, Columns, ColumnsFit, columns_lines};

use crate::line::TreeLine;
use crate::place::{
    Place, RowPlace, box_line, column_line, column_number, height_at, inside_box, inside_column,
    inside_stack, line_of_atom, row_line, row_place, stack_line,
};
use flow_list::{
    AtomKind, Counts, Flows, Item, Laid, LaidStack, box_at, flow_counts, item_at, row_at, stack_at,
};
use frag_pool::Pool;
use mc_base::{FragId, List, NoMemory, Node, Units};
use std::alloc::Global;

/// An item of a flow. Its reading isn't counted.
fn item_of(flows: &Flows, flow: u32, item: u32) -> Item
    requires flow { flow < length flows.now.flows }
    requires item { item < length (flow_of flows.now flow).items }
    ensures { result ≡ item_of (flow_of flows.now flow) item }
{
    let mut tally = Counts {
        reads: 0,
        below: 0,
        folds: 0,
    };
    item_at(flows, flow, item, &mut tally)
}

/// Adds a line, if there is one.
fn put_line(out: &mut List<TreeLine>, line: Option<TreeLine>) -> Result<(), NoMemory>
    ensures { OnOk result (lines_of out.new ≡ lines_of out.old ++ lines_of (option_to_list line)) }
{
    if let Some(line) = line {
        out.push(line)?;
    }
    Ok(())
}

/// Adds the lines of a fragment in a column or a stack; at most `nested` stacks stand one in another inside it.
#[cycle(walk)]
fn put_tree(
    out: &mut List<TreeLine>,
    flows: &Flows,
    laid: &Laid,
    pool: &Pool,
    nested: u32,
    at: Place,
    id: FragId,
) -> Result<(), NoMemory>
    requires live { IsLive pool.now id }
    requires fits { TreeFits flows.now laid.now pool.now nested at id }
    ensures { (t : Tree flows.now laid.now pool.now at id) →
        OnOk result (lines_of out.new ≡ lines_of out.old ++ lines_in_tree nested t) }
{
    match pool.get(id) {
        Node::Atom { item, y } => put_item(out, flows, laid, pool, nested, at, *item, *y),
        Node::Piece {
            owner,
            starts,
            y,
            bottom,
            kids,
        } => {
            let info = *box_at(flows, *owner);
            out.push(box_line(at, *owner, info, *starts, *y, *bottom))?;
            let inside = inside_box(at, info.bottom)?;
            put_trees(out, flows, laid, pool, nested, inside, id, kids.as_slice())
        }
        Node::RowPiece {
            row,
            from,
            y,
            height,
            columns,
        } => {
            let info = *row_at(flows, *row);
            let place = row_place(at, info, *y, height_at(at, *y, *height));
            out.push(row_line(place, *row, info, from))?;
            put_columns(
                out,
                flows,
                laid,
                pool,
                nested,
                place,
                id,
                columns.as_slice(),
            )
        }
        Node::Column { flow, kids, .. } => {
            let inside = Place { flow: *flow, ..at };
            put_trees(out, flows, laid, pool, nested, inside, id, kids.as_slice())
        }
    }
}

/// Adds the lines of fragments that stand in one: its ids are lower.
#[cycle(walk)]
fn put_trees(
    out: &mut List<TreeLine>,
    flows: &Flows,
    laid: &Laid,
    pool: &Pool,
    nested: u32,
    at: Place,
    over: FragId,
    ids: &[FragId],
) -> Result<(), NoMemory>
    requires live { IsLive pool.now over }
    requires below { All (IsBelow pool.now over) ids.now }
    requires fit { TreesFit flows.now laid.now pool.now nested at ids.now }
    ensures { (t : Trees flows.now laid.now pool.now at ids.now) →
        OnOk result (lines_of out.new ≡ lines_of out.old ++ trees_lines nested t) }
{
    for id in ids {
        put_tree(out, flows, laid, pool, nested, at, *id)?;
    }
    Ok(())
}

/// Adds the lines of the columns of a piece of a row.
#[cycle(walk)]
fn put_columns(
    out: &mut List<TreeLine>,
    flows: &Flows,
    laid: &Laid,
    pool: &Pool,
    nested: u32,
    at: RowPlace,
    over: FragId,
    ids: &[FragId],
) -> Result<(), NoMemory>
    requires live { IsLive pool.now over }
    requires below { All (IsBelow pool.now over) ids.now }
    requires fit { ColumnsFit flows.now laid.now pool.now nested at 0 ids.now }
    ensures { (t : Columns flows.now laid.now pool.now at ids.now) →
        OnOk result (lines_of out.new ≡ lines_of out.old ++ columns_lines nested 0 t) }
{
    for (i, id) in ids.iter().enumerate() {
        put_column(out, flows, laid, pool, nested, at, i, *id)?;
    }
    Ok(())
}

/// Adds the lines of column `i` of a piece of a row.
#[cycle(walk)]
fn put_column(
    out: &mut List<TreeLine>,
    flows: &Flows,
    laid: &Laid,
    pool: &Pool,
    nested: u32,
    at: RowPlace,
    i: usize,
    id: FragId,
) -> Result<(), NoMemory>
    requires live { IsLive pool.now id }
    requires fits { ColumnFits flows.now laid.now pool.now nested at i id }
    ensures { (t : Column flows.now laid.now pool.now at id) →
        OnOk result (lines_of out.new ≡ lines_of out.old ++ column_lines nested i t) }
{
    let Node::Column {
        flow,
        extent,
        kids,
        ..
    } = pool.get(id)
    else {
        return Ok(());
    };
    let index = column_number(i)?;
    out.push(column_line(at, index)?)?;
    let inside = inside_column(at, index, *flow, *extent)?;
    put_trees(out, flows, laid, pool, nested, inside, id, kids.as_slice())
}

/// Adds the lines of an item.
#[cycle(walk)]
fn put_item(
    out: &mut List<TreeLine>,
    flows: &Flows,
    laid: &Laid,
    pool: &Pool,
    nested: u32,
    at: Place,
    item: u32,
    y: Units,
) -> Result<(), NoMemory>
    requires flow { at.flow < length flows.now.flows }
    requires item { item < length (flow_of flows.now at.flow).items }
    requires fits { ItemFits flows.now laid.now pool.now nested at item y (item_of (flow_of flows.now at.flow) item) }
    ensures { (g : Given flows.now laid.now pool.now) (frame : Frame) → IsAt frame at →
        OnOk result (lines_of out.new ≡ lines_of out.old
        ++ item_lines (given_lines g nested) at.depth frame item y (item_of (flow_of flows.now at.flow) item)) }
{
    let Item::Atom { height, kind } = item_of(flows, at.flow, item) else {
        return Ok(());
    };
    if let AtomKind::Bounded { owner: _, stack, x } = kind {
        if nested == 0 {
            return Ok(());
        }
        return put_stack(
            out,
            flows,
            laid,
            pool,
            nested - 1,
            stack,
            at.depth,
            at.x + x,
            at.y + y,
        );
    }
    put_line(out, line_of_atom(at, item, y, height, kind))
}

/// How far a fragment reaches, if it is a column.
fn extent_of(node: &Node) -> Units
    ensures { result ≡ node_extent node.now }
{
    match node {
        Node::Column { extent, .. } => *extent,
        _ => 0,
    }
}

/// A stack as it was laid out.
fn stack_entry(laid: &Laid, stack: u32) -> LaidStack
    requires { stack < length laid.now.stacks }
    ensures { slice_get laid.now.stacks stack ≡ Some result }
{
    laid.stacks.as_slice()[stack as usize]
}

/// Adds the lines of a stack; at most `nested` stacks stand one in another inside it.
#[cycle(walk)]
fn put_stack(
    out: &mut List<TreeLine>,
    flows: &Flows,
    laid: &Laid,
    pool: &Pool,
    nested: u32,
    stack: u32,
    depth: u32,
    x: Units,
    y: Units,
) -> Result<(), NoMemory>
    requires stack { stack < length flows.now.stacks }
    requires fits { StackFits flows.now laid.now pool.now (suc nested) stack depth x y }
    ensures { (g : Given flows.now laid.now pool.now) →
        OnOk result (lines_of out.new ≡ lines_of out.old ++ given_lines g (suc nested) stack depth x y) }
{
    let entry = stack_entry(laid, stack);
    let info = *stack_at(flows, stack);
    out.push(stack_line(info, stack, depth, x, y, entry.height))?;
    let extent = extent_of(pool.get(entry.frag));
    let inside = inside_stack(info, depth, x, y, entry.height, extent)?;
    put_tree(out, flows, laid, pool, nested, inside, entry.frag)
}

/// The lines of the tree of a layout: of stack 0, with all that stands in it, at the heights that `laid` and the nodes state.
/// Rectangles are in units from the document's top left (1 unit = 1/64 px; CSS Multi-column 1, section 3.4).
///
/// Conditions: each stack has an id that is live; the fragments name items of their flows, and boxes, rows and stacks that
/// there are; places and sizes have 64 bits. The error is out of memory, also where 32 bits have no number for a depth or a
/// column.
pub fn tree_lines(
    alloc: Global,
    flows: &Flows,
    laid: &Laid,
    pool: &Pool,
) -> Result<List<TreeLine>, NoMemory>
    requires { StackFits flows.now laid.now pool.now (length flows.now.stacks) 0 0 0 0 }
    ensures { (g : Given flows.now laid.now pool.now) →
        IfOk result (λ lines. lines_of lines ≡ given_lines g (length flows.now.stacks) 0 0 0 0) }
{
    let stacks = flow_counts(flows).stacks;
    let mut out = List::new(alloc);
    if stacks == 0 {
        return Ok(out);
    }
    put_stack(&mut out, flows, laid, pool, stacks - 1, 0, 0, 0, 0)?;
    Ok(out)
}
