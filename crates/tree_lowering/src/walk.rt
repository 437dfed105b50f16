//! The walk over a tree, from the outermost piece inward.

ghost use Rattle.std.specs.Prelude.{◌≡◌, ◌<◌, ◌-◌, All, IfOk, OnOk, length, None, Some, true};
ghost use Rattle.mc_base.specs.PlainTree.{PlainTrees, row_piece};
ghost use Rattle.mc_base.specs.declared.fragment.Node.{Node as AnyNode};
ghost use Rattle.frag_pool.specs.Growing.{Grows};
ghost use Rattle.frag_pool.specs.Nodes.{IsLive, node_of};
ghost use Rattle.frag_pool.specs.Standing.{StandsFor};
ghost use Rattle.inner_rows.specs.TrueBook.{AreTrue, BookAfter};
ghost use Rattle.piece_data.specs.Lowering.{is_flagged};
ghost use Rattle.tree_lowering.specs.Lower.{AreMadeOf, AreRowsInStacks, IsMadeOf, all_pieces, cut_of, lower, lower_inside};
ghost use Rattle.tree_lowering.specs.Lower.{pieces, pieces_inside};
ghost use Rattle.tree_lowering.specs.Met.{Meets, MeetsTree, MeetsTrees};

use crate::cut::{Cut, Within, cut_in, inside, is_before_end, stack_in};
use crate::lowerer::Lowerer;
use crate::nodes::{added, ids_within, with_others};
use flow_list::{Book, Flows, LaidRow, flow_counts, row_at};
use frag_pool::Pool;
use mc_base::{FragId, List, NoMemory, Node, Units};
use std::alloc::Global;

/// Lowers the cut pieces of flagged rows in a fragment that stands here, from the outermost inward: what is made of it is a
/// fragment of the region, and the lowerer is told of the pieces and of the stacks in it, in order. `rows` are the rows directly
/// in stacks. What was live stays as it was, also when out of memory.
///
/// Out of memory is answered also where fragments stand deeper in each other than `at` says, or where a piece begins at no place
/// of its row, as none of a layout does.
#[cycle(lowering)]
pub fn lower_tree<L: Lowerer>(
    alloc: Global,
    lowerer: &mut L,
    flows: &Flows,
    flags: &[bool],
    rows: &[LaidRow],
    at: Within,
    id: FragId,
    book: &mut Book,
    pool: &mut Pool,
) -> Result<FragId, NoMemory>
    requires live { IsLive pool.old id }
    requires rows { AreRowsInStacks flows.now rows.now }
    requires engine { L.is_true lowerer.old flows.now book.old pool.old }
    requires book { AreTrue flows.now book.old }
    ensures live { IfOk result (IsLive pool.new) }
    ensures tree { IfOk result (IsMadeOf pool.old pool.new (lower flows.now flags.now at) id) }
    ensures told { OnOk result (MeetsTree pool.old (L.told lowerer.old) (L.told lowerer.new) (pieces flows.now flags.now at) id) }
    ensures engine { L.is_true lowerer.new flows.now book.new pool.new }
    ensures book { BookAfter flows.now book.old book.new }
    ensures grown { Grows pool.old pool.new }
{
    if at.depth == 0 {
        return Err(NoMemory);
    }
    let at = Within {
        depth: at.depth - 1,
        ..at
    };
    if let Some(cut) = cut_in(flags, pool.get(id)) {
        return lower_cut(alloc, lowerer, flows, flags, rows, at, cut, book, pool);
    }
    lower_node(alloc, lowerer, flows, flags, rows, at, id, book, pool)
}

/// Lowers what stands in a node that isn't lowered itself.
#[cycle(lowering)]
fn lower_node<L: Lowerer>(
    alloc: Global,
    lowerer: &mut L,
    flows: &Flows,
    flags: &[bool],
    rows: &[LaidRow],
    at: Within,
    id: FragId,
    book: &mut Book,
    pool: &mut Pool,
) -> Result<FragId, NoMemory>
    requires live { IsLive pool.old id }
    requires cut { (node : AnyNode) → node_of pool.old id ≡ Some node → cut_of flags.now node ≡ None }
    requires rows { AreRowsInStacks flows.now rows.now }
    requires engine { L.is_true lowerer.old flows.now book.old pool.old }
    requires book { AreTrue flows.now book.old }
    ensures live { IfOk result (IsLive pool.new) }
    ensures tree { IfOk result (IsMadeOf pool.old pool.new (lower flows.now flags.now at) id) }
    ensures told { OnOk result (MeetsTree pool.old (L.told lowerer.old) (L.told lowerer.new) (pieces flows.now flags.now at) id) }
    ensures engine { L.is_true lowerer.new flows.now book.new pool.new }
    ensures book { BookAfter flows.now book.old book.new }
    ensures grown { Grows pool.old pool.new }
{
    if let Some(stack) = stack_in(flows, at.flow, pool.get(id)) {
        lowerer.pass_stack(flows, stack)?;
        return Ok(id);
    }
    let place = inside(flows, rows, at, pool.get(id));
    let ids = ids_within(alloc, pool, id)?;
    let made = lower_all(
        alloc,
        lowerer,
        flows,
        flags,
        rows,
        place,
        ids.as_slice(),
        book,
        pool,
    )?;
    with_others(pool, id, made)
}

/// Lowers the cut pieces in fragments that stand in one.
#[cycle(lowering)]
fn lower_all<L: Lowerer>(
    alloc: Global,
    lowerer: &mut L,
    flows: &Flows,
    flags: &[bool],
    rows: &[LaidRow],
    at: Within,
    ids: &[FragId],
    book: &mut Book,
    pool: &mut Pool,
) -> Result<List<FragId>, NoMemory>
    requires live { All (IsLive pool.old) ids.now }
    requires rows { AreRowsInStacks flows.now rows.now }
    requires engine { L.is_true lowerer.old flows.now book.old pool.old }
    requires book { AreTrue flows.now book.old }
    ensures live { IfOk result (All (IsLive pool.new)) }
    ensures trees { IfOk result (AreMadeOf pool.old pool.new (lower flows.now flags.now at) ids.now) }
    ensures told { OnOk result (MeetsTrees pool.old (L.told lowerer.old) (L.told lowerer.new)
        (all_pieces flows.now flags.now at) ids.now) }
    ensures engine { L.is_true lowerer.new flows.now book.new pool.new }
    ensures book { BookAfter flows.now book.old book.new }
    ensures grown { Grows pool.old pool.new }
{
    let mut made = List::new(alloc);
    for id in ids {
        let one = lower_tree(alloc, lowerer, flows, flags, rows, at, *id, book, pool)?;
        made.push(one)?;
    }
    Ok(made)
}

/// Lowers the cut pieces in the columns of a piece of a row that was lowered to this height.
#[cycle(lowering)]
fn lower_columns<L: Lowerer>(
    alloc: Global,
    lowerer: &mut L,
    flows: &Flows,
    flags: &[bool],
    rows: &[LaidRow],
    at: Within,
    row: u32,
    height: Units,
    columns: List<FragId>,
    book: &mut Book,
    pool: &mut Pool,
) -> Result<List<FragId>, NoMemory>
    requires row { row < length flows.now.rows }
    requires live { All (IsLive pool.old) columns }
    requires rows { AreRowsInStacks flows.now rows.now }
    requires engine { L.is_true lowerer.old flows.now book.old pool.old }
    requires book { AreTrue flows.now book.old }
    ensures live { IfOk result (All (IsLive pool.new)) }
    ensures trees { IfOk result (AreMadeOf pool.old pool.new (lower_inside flows.now flags.now at.nested row height) columns) }
    ensures told { OnOk result (MeetsTrees pool.old (L.told lowerer.old) (L.told lowerer.new)
        (pieces_inside flows.now flags.now at.nested row height) columns) }
    ensures engine { L.is_true lowerer.new flows.now book.new pool.new }
    ensures book { BookAfter flows.now book.old book.new }
    ensures grown { Grows pool.old pool.new }
{
    if at.nested == 0 {
        return Ok(columns);
    }
    let place = Within {
        flow: row_at(flows, row).flow,
        room: height,
        nested: at.nested - 1,
        depth: at.depth,
    };
    lower_all(
        alloc,
        lowerer,
        flows,
        flags,
        rows,
        place,
        columns.as_slice(),
        book,
        pool,
    )
}

/// Lowers a cut piece, and then the cut pieces in its columns at its least height.
#[cycle(lowering)]
fn lower_cut<L: Lowerer>(
    alloc: Global,
    lowerer: &mut L,
    flows: &Flows,
    flags: &[bool],
    rows: &[LaidRow],
    at: Within,
    cut: Cut,
    book: &mut Book,
    pool: &mut Pool,
) -> Result<FragId, NoMemory>
    requires flagged { is_flagged flags.now cut.row ≡ true }
    requires rows { AreRowsInStacks flows.now rows.now }
    requires engine { L.is_true lowerer.old flows.now book.old pool.old }
    requires book { AreTrue flows.now book.old }
    ensures live { IfOk result (IsLive pool.new) }
    ensures tree { (columns : PlainTrees) → IfOk result (λ made.
        StandsFor pool.new made (lower flows.now flags.now at (row_piece cut.row cut.from cut.y None columns))) }
    ensures told { (columns : PlainTrees) → OnOk result (Meets (L.told lowerer.old) (L.told lowerer.new)
        (λ stacks. pieces flows.now flags.now at stacks (row_piece cut.row cut.from cut.y None columns))) }
    ensures engine { L.is_true lowerer.new flows.now book.new pool.new }
    ensures book { BookAfter flows.now book.old book.new }
    ensures grown { Grows pool.old pool.new }
{
    // No row stands deeper than in three.
    if cut.row >= flow_counts(flows).rows || !is_before_end(alloc, flows, cut.row, &cut.from, 4) {
        return Err(NoMemory);
    }
    let height = at.room.saturating_sub(cut.y);
    let found = lowerer.lower(flows, cut.row, &cut.from, height, book, pool)?;
    let ids = ids_within(alloc, pool, found.frag)?;
    let columns = lower_columns(
        alloc,
        lowerer,
        flows,
        flags,
        rows,
        at,
        cut.row,
        found.height,
        ids,
        book,
        pool,
    )?;
    added(
        pool,
        Node::RowPiece {
            row: cut.row,
            from: cut.from,
            y: cut.y,
            height: Some(found.height),
            columns,
        },
    )
}
