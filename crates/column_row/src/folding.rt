//! Columns of a row one after another.

ghost use Rattle.std.specs.Prelude.{◌≡◌, ℕ, ◌+◌, ◌^◌, ◌<◌, ◌≤◌, ◌++◌, [], ◌∷◌, List as Items, IfOk, OnOk, OnErr, All, length, None};
ghost use Rattle.mc_base.specs.PlainTree.{PlainTrees, row_piece};
ghost use Rattle.flow_data.specs.Flows.{flow_in, flow_of, rows_in};
ghost use Rattle.flow_data.specs.Soundness.{NestsAtMost};
ghost use Rattle.flow_list.specs.Book.{after_uses};
ghost use Rattle.flow_list.specs.Certificate.{uses_of};
ghost use Rattle.flow_list.specs.Column.{Column, column as column_of};
ghost use Rattle.flow_list.specs.Counts.{raised};
ghost use Rattle.flow_list.specs.Entries.{uses_in};
ghost use Rattle.flow_list.specs.Folds.{columns_made, fold_in};
ghost use Rattle.flow_list.specs.Looks.{look_cost};
ghost use Rattle.flow_list.specs.Rows.{all_rows, end_of};
ghost use Rattle.flow_list.specs.Tokens.{IsPlace, IsPlaceBefore, Token as Place, is_end};
ghost use Rattle.frag_pool.specs.Growing.{Grows};
ghost use Rattle.frag_pool.specs.Nodes.{IsLive, SameTrial};
ghost use Rattle.frag_pool.specs.Standing.{AllStandFor, StandsFor};
ghost use Rattle.inner_rows.specs.Filling.{row_tree};
ghost use Rattle.inner_rows.specs.TrueBook.{AreTrue, BookAfter};
ghost use Rattle.column_row.specs.Adding.{AreFragments, IsSoFar, is_over};
ghost use Rattle.column_row.specs.Folding.{IsFold, folding_of, looks_cost};

use crate::adding::{SoFar, none_yet, with_column};
use block_flow::column;
use column_laws::flows_are_sound;
use flow_list::{Book, ColLine, Flows, Tally, flow_counts, item_count, row_at};
use frag_maker::add_node;
use frag_pool::Pool;
use inner_rows::InnerRows;
use mc_base::{FragId, Level, List, NoMemory, Node, Token, Units};
use range_laws::uses_enter;
use std::alloc::Global;

/// Which columns are made: all that are asked for, or those up to and with the first that overflows or ends at a bad break.
#[derive(Clone, Copy, Debug, PartialEq, Eq)]
pub enum FoldMode {
    All,
    Fit,
}

/// What is told of columns of a row together: how many they are, where they end and whether that is the row's end, whether they
/// reach it and none breaks a rule, and whether one ended at a break that wasn't forced. Then the greatest level among them,
/// whether one overflows, and how far the longest reaches. `short` and `lines` are taken over the columns up to and with the
/// first that overflows: how far the least height at which one may change is above theirs, none where there is no such height,
/// and how they came to be. Heights are in units. The fragment is a row piece at the top, without a height.
#[derive(Drop)]
pub struct FoldOut {
    pub columns: u32,
    pub end: Token,
    pub at_end: bool,
    pub fits: bool,
    pub unforced: bool,
    pub level: Level,
    pub overflow: bool,
    pub extent: Units,
    pub short: Option<Units>,
    pub lines: List<ColLine>,
    pub frag: FragId,
}

/// Whether a place is a flow's end.
fn is_at_end(flows: &Flows, flow: u32, place: &Token) -> bool
    requires { flow < length flows.now.flows }
    ensures { result ≡ is_end (flow_of flows.now flow) place.now }
{
    place.item() >= item_count(flows, flow)
}

/// Whether no further column is made after these.
fn is_done(flows: &Flows, flow: u32, mode: FoldMode, told: &SoFar) -> bool
    requires { flow < length flows.now.flows }
    ensures { result ≡ is_over (folding_of mode) (flow_of flows.now flow) told.now.end told.now.broken }
{
    let ends = is_at_end(flows, flow, &told.end);
    match mode {
        FoldMode::All => ends,
        FoldMode::Fit => ends || told.broken,
    }
}

/// The next column of a row, which begins where the ones before it end, with what is told of them together.
fn next_column<I: InnerRows, C: Tally>(
    alloc: Global,
    inner: &mut I,
    flows: &Flows,
    row: u32,
    height: Units,
    told: SoFar,
    book: &mut Book,
    pool: &mut Pool,
    tally: &mut C,
) -> Result<SoFar, NoMemory>
    requires row { row < length flows.now.rows }
    requires place { IsPlaceBefore flows.now (flow_in flows.now row) told.end }
    requires nests { All (NestsAtMost flows.now (I.depth inner.old)) (rows_in (flow_in flows.now row)) }
    requires deep { I.depth inner.old ≤ 2 }
    requires count { told.columns + 1 < 2 ^ 32 }
    requires engine { I.is_true inner.old flows.now book.old pool.old }
    requires book { AreTrue flows.now book.old }
    ensures told { IfOk result (λ out. (q : Place) (cs : Items Column) → IsSoFar (flow_in flows.now row) q height cs told →
        IsSoFar (flow_in flows.now row) q height
        (cs ++ column_of (all_rows flows.now) flows.now (flow_in flows.now row) told.end height ∷ []) out) }
    ensures place { IfOk result (λ out. IsPlace flows.now (flow_in flows.now row) out.end) }
    ensures frags { IfOk result (λ out. (q : Place) (cs : Items Column) → end_of q cs ≡ told.end →
        AreFragments flows.now pool.old row q height cs told.frags →
        AreFragments flows.now pool.new row q height
        (cs ++ column_of (all_rows flows.now) flows.now (flow_in flows.now row) told.end height ∷ []) out.frags) }
    ensures depth { I.depth inner.new ≡ I.depth inner.old }
    ensures engine { I.is_true inner.new flows.now book.new pool.new }
    ensures book { BookAfter flows.now book.old book.new }
    ensures uses { OnOk result (uses_in book.new ≡ after_uses flows.now (uses_in book.old)
        (column_of (all_rows flows.now) flows.now (flow_in flows.now row) told.end height).uses) }
    ensures grown { Grows pool.old pool.new }
    ensures read { C.read_count tally.new ≤ C.read_count tally.old
        + look_cost (all_rows flows.now) flows.now (flow_in flows.now row) told.end height }
    ensures folds { C.fold_count tally.new ≡ C.fold_count tally.old }
{
    // In sealed flows, which are sound, this is a law.
    let _counts = flow_counts(flows);
    flows_are_sound();
    let flow = row_at(flows, row).flow;
    let made = column(
        alloc, inner, flows, flow, &told.end, height, book, pool, tally,
    )?;
    with_column(flows, flow, told, made)
}

/// The columns of a row from a place on, with what is told of them together.
fn made_columns<I: InnerRows, C: Tally>(
    alloc: Global,
    inner: &mut I,
    flows: &Flows,
    row: u32,
    from: &Token,
    height: Units,
    most: u32,
    mode: FoldMode,
    book: &mut Book,
    pool: &mut Pool,
    tally: &mut C,
) -> Result<SoFar, NoMemory>
    requires row { row < length flows.now.rows }
    requires place { IsPlace flows.now (flow_in flows.now row) from.now }
    requires nests { All (NestsAtMost flows.now (I.depth inner.old)) (rows_in (flow_in flows.now row)) }
    requires deep { I.depth inner.old ≤ 2 }
    requires engine { I.is_true inner.old flows.now book.old pool.old }
    requires book { AreTrue flows.now book.old }
    ensures told { IfOk result (IsSoFar (flow_in flows.now row) from.now height
        (columns_made (folding_of mode) (all_rows flows.now) flows.now (flow_in flows.now row) most from.now height)) }
    ensures frags { IfOk result (λ out. AreFragments flows.now pool.new row from.now height
        (columns_made (folding_of mode) (all_rows flows.now) flows.now (flow_in flows.now row) most from.now height) out.frags) }
    ensures depth { I.depth inner.new ≡ I.depth inner.old }
    ensures engine { I.is_true inner.new flows.now book.new pool.new }
    ensures book { BookAfter flows.now book.old book.new }
    ensures uses { OnOk result (uses_in book.new ≡ after_uses flows.now (uses_in book.old)
        (uses_of (columns_made (folding_of mode) (all_rows flows.now) flows.now (flow_in flows.now row) most from.now height))) }
    ensures grown { Grows pool.old pool.new }
    ensures read { C.read_count tally.new ≤ C.read_count tally.old + looks_cost flows.now (flow_in flows.now row) from.now height
        (columns_made (folding_of mode) (all_rows flows.now) flows.now (flow_in flows.now row) most from.now height) }
    ensures folds { C.fold_count tally.new ≡ C.fold_count tally.old }
{
    // In sealed flows, which are sound, the flow of a row is one of theirs. Entering one list after another is a law.
    let _counts = flow_counts(flows);
    uses_enter();
    let flow = row_at(flows, row).flow;
    let mut told = none_yet(alloc, from);
    for _ in 0..most {
        if is_done(flows, flow, mode, &told) {
            return Ok(told);
        }
        told = next_column(alloc, inner, flows, row, height, told, book, pool, tally)?;
    }
    Ok(told)
}

/// A row piece at the top, without a height, with these columns.
fn piece_of(
    pool: &mut Pool,
    row: u32,
    from: &Token,
    columns: List<FragId>,
) -> Result<FragId, NoMemory>
    requires { All (IsLive pool.old) columns }
    ensures frag { IfOk result (λ id. (trees : PlainTrees) → AllStandFor pool.old columns trees →
        StandsFor pool.new id (row_piece row from.now 0 None trees)) }
    ensures grown { Grows pool.old pool.new }
{
    let node = Node::RowPiece {
        row,
        from: from.copy(),
        y: 0,
        height: None,
        columns,
    };
    add_node(pool, node)
}

/// The columns of a row from a place on, and the piece of the row that they make.
fn made_fold<I: InnerRows, C: Tally>(
    alloc: Global,
    inner: &mut I,
    flows: &Flows,
    row: u32,
    from: &Token,
    height: Units,
    most: u32,
    mode: FoldMode,
    book: &mut Book,
    pool: &mut Pool,
    tally: &mut C,
) -> Result<FoldOut, NoMemory>
    requires row { row < length flows.now.rows }
    requires place { IsPlace flows.now (flow_in flows.now row) from.now }
    requires nests { All (NestsAtMost flows.now (I.depth inner.old)) (rows_in (flow_in flows.now row)) }
    requires deep { I.depth inner.old ≤ 2 }
    requires engine { I.is_true inner.old flows.now book.old pool.old }
    requires book { AreTrue flows.now book.old }
    ensures fold { IfOk result (IsFold (fold_in (folding_of mode) (all_rows flows.now) flows.now row most from.now height)) }
    ensures frag { IfOk result (λ out. StandsFor pool.new out.frag (row_tree flows.now row from.now height None
        (columns_made (folding_of mode) (all_rows flows.now) flows.now (flow_in flows.now row) most from.now height))) }
    ensures depth { I.depth inner.new ≡ I.depth inner.old }
    ensures engine { I.is_true inner.new flows.now book.new pool.new }
    ensures book { BookAfter flows.now book.old book.new }
    ensures uses { OnOk result (uses_in book.new ≡ after_uses flows.now (uses_in book.old)
        (uses_of (columns_made (folding_of mode) (all_rows flows.now) flows.now (flow_in flows.now row) most from.now height))) }
    ensures grown { Grows pool.old pool.new }
    ensures read { C.read_count tally.new ≤ C.read_count tally.old + looks_cost flows.now (flow_in flows.now row) from.now height
        (columns_made (folding_of mode) (all_rows flows.now) flows.now (flow_in flows.now row) most from.now height) }
    ensures folds { C.fold_count tally.new ≡ C.fold_count tally.old }
{
    // In sealed flows, which are sound, the flow of a row is one of theirs.
    let _counts = flow_counts(flows);
    let told = made_columns(
        alloc, inner, flows, row, from, height, most, mode, book, pool, tally,
    )?;
    let at_end = is_at_end(flows, row_at(flows, row).flow, &told.end);
    let frag = piece_of(pool, row, from, told.frags)?;
    Ok(FoldOut {
        columns: told.columns,
        end: told.end,
        at_end,
        fits: at_end && !told.broken,
        unforced: told.unforced,
        level: told.level,
        overflow: told.overflow,
        extent: told.extent,
        short: told.short,
        lines: told.lines,
        frag,
    })
}

/// Makes columns of a row at a height, in units, from a place on: up to the row's end or `most` of them, and in mode `Fit` no
/// more after the first that overflows or ends at a break that breaks a rule (CSS Fragmentation 3, sections 4.4 and 4.5). Each
/// begins where the one before it ends. What the columns use is entered in the book, in order, and one fold is counted.
///
/// When out of memory, the region's trial nodes are as they were, and the book may have further true entries; else what was live
/// is live and unchanged.
pub fn fold<I: InnerRows, C: Tally>(
    alloc: Global,
    inner: &mut I,
    flows: &Flows,
    row: u32,
    from: &Token,
    height: Units,
    most: u32,
    mode: FoldMode,
    book: &mut Book,
    pool: &mut Pool,
    tally: &mut C,
) -> Result<FoldOut, NoMemory>
    requires row { row < length flows.now.rows }
    requires place { IsPlace flows.now (flow_in flows.now row) from.now }
    requires nests { All (NestsAtMost flows.now (I.depth inner.old)) (rows_in (flow_in flows.now row)) }
    requires deep { I.depth inner.old ≤ 2 }
    requires engine { I.is_true inner.old flows.now book.old pool.old }
    requires book { AreTrue flows.now book.old }
    ensures fold { IfOk result (IsFold (fold_in (folding_of mode) (all_rows flows.now) flows.now row most from.now height)) }
    ensures frag { IfOk result (λ out. StandsFor pool.new out.frag (row_tree flows.now row from.now height None
        (columns_made (folding_of mode) (all_rows flows.now) flows.now (flow_in flows.now row) most from.now height))) }
    ensures depth { I.depth inner.new ≡ I.depth inner.old }
    ensures engine { I.is_true inner.new flows.now book.new pool.new }
    ensures book { BookAfter flows.now book.old book.new }
    ensures uses { OnOk result (uses_in book.new ≡ after_uses flows.now (uses_in book.old)
        (uses_of (columns_made (folding_of mode) (all_rows flows.now) flows.now (flow_in flows.now row) most from.now height))) }
    ensures grown { OnOk result (Grows pool.old pool.new) }
    ensures refused { OnErr result (SameTrial pool.old pool.new) }
    ensures read { C.read_count tally.new ≤ C.read_count tally.old + looks_cost flows.now (flow_in flows.now row) from.now height
        (columns_made (folding_of mode) (all_rows flows.now) flows.now (flow_in flows.now row) most from.now height) }
    ensures folds { C.fold_count tally.new ≡ raised (C.fold_count tally.old) 1 }
{
    tally.fold();
    let mark = pool.mark();
    match made_fold(
        alloc, inner, flows, row, from, height, most, mode, book, pool, tally,
    ) {
        Ok(made) => Ok(made),
        Err(full) => {
            pool.release(&mark);
            Err(full)
        }
    }
}
