//! Deciding a column, and making it.

ghost use Rattle.std.specs.Prelude.{◌≡◌, ◌+◌, ◌<◌, ◌≤◌, All, IfOk, IfSome, OnErr, OnOk, length};
ghost use Rattle.flow_data.specs.Flows.{flow_in, flow_of, rows_in};
ghost use Rattle.flow_data.specs.Soundness.{NestsAtMost};
ghost use Rattle.flow_list.specs.Book.{after_uses};
ghost use Rattle.flow_list.specs.Column.{column as column_of};
ghost use Rattle.flow_list.specs.Entries.{uses_in};
ghost use Rattle.flow_list.specs.Looks.{look_cost};
ghost use Rattle.flow_list.specs.Rows.{all_rows};
ghost use Rattle.flow_list.specs.Tokens.{IsPlaceBefore};
ghost use Rattle.frag_pool.specs.Growing.{Grows};
ghost use Rattle.frag_pool.specs.Nodes.{SameTrial};
ghost use Rattle.frag_pool.specs.Standing.{StandsFor};
ghost use Rattle.inner_rows.specs.Filling.{fill_tree};
ghost use Rattle.inner_rows.specs.TrueBook.{AreTrue, BookAfter};
ghost use Rattle.column_maker.specs.Making.{tree_of_column};
ghost use Rattle.column_walk.specs.Deciding.{IsRowBefore};
ghost use Rattle.block_flow.specs.Columns.{IsColumn, IsCutOf, uses_filled};

use column_maker::{Cut, Decided, make_column};
use column_walk::{FilledRow, decide};
use flow_list::{Book, ColLine, Counts, Flows, Tally};
use frag_pool::Pool;
use inner_rows::InnerRows;
use mc_base::{FragId, Level, List, NoMemory, Token, Units};
use range_laws::uses_enter;
use std::alloc::Global;

/// A column: the place where it ends and the level of that break, whether it overflows, and how far it reaches. `short` says how
/// far the least height at which it may change is above its own, none where there is no such height, and `lines` how it came to
/// be. Heights are in units. The fragment is live in the region.
#[derive(Drop)]
pub struct ColumnOut {
    pub end: Token,
    pub level: Level,
    pub overflow: bool,
    pub extent: Units,
    pub short: Option<Units>,
    pub lines: List<ColLine>,
    pub frag: FragId,
}

/// The work inside a row, all together.
fn spent(counts: Counts) -> u64 {
    counts
        .reads
        .saturating_add(counts.below)
        .saturating_add(counts.folds)
}

/// What is made once more of the row that a column fills.
fn fill_again<I: InnerRows, C: Tally>(
    inner: &mut I,
    flows: &Flows,
    row: &FilledRow,
    book: &mut Book,
    pool: &mut Pool,
    tally: &mut C,
) -> Result<Cut, NoMemory>
    requires row { IsRowBefore flows.now (I.depth inner.old) row.now }
    requires engine { I.is_true inner.old flows.now book.old pool.old }
    requires book { AreTrue flows.now book.old }
    ensures room { IfOk result (λ cut. cut.room ≡ row.now.height) }
    ensures frag { IfOk result (λ cut.
        StandsFor pool.new cut.made (fill_tree flows.now row.now.row row.now.from row.now.height)) }
    ensures depth { I.depth inner.new ≡ I.depth inner.old }
    ensures engine { I.is_true inner.new flows.now book.new pool.new }
    ensures book { BookAfter flows.now book.old book.new }
    ensures uses { OnOk result (uses_in book.new ≡ after_uses flows.now (uses_in book.old)
        ((all_rows flows.now).fill row.now.row row.now.from row.now.height).uses) }
    ensures grown { Grows pool.old pool.new }
    ensures read { C.read_count tally.new ≡ C.read_count tally.old }
    ensures folds { C.fold_count tally.new ≡ C.fold_count tally.old }
{
    let mut counts = Counts {
        reads: 0,
        below: 0,
        folds: 0,
    };
    let filled = inner.fill(
        flows,
        row.row,
        &row.from,
        row.height,
        book,
        pool,
        &mut counts,
    );
    tally.below(spent(counts));
    let filled = filled?;
    Ok(Cut {
        room: row.height,
        made: filled.frag,
    })
}

/// What is made of the row that a column fills, if it fills one.
fn cut_of<I: InnerRows, C: Tally>(
    inner: &mut I,
    flows: &Flows,
    filled: &Option<FilledRow>,
    book: &mut Book,
    pool: &mut Pool,
    tally: &mut C,
) -> Result<Option<Cut>, NoMemory>
    requires row { IfSome filled.now (IsRowBefore flows.now (I.depth inner.old)) }
    requires engine { I.is_true inner.old flows.now book.old pool.old }
    requires book { AreTrue flows.now book.old }
    ensures cut { IfOk result (IsCutOf flows.now pool.new filled.now) }
    ensures depth { I.depth inner.new ≡ I.depth inner.old }
    ensures engine { I.is_true inner.new flows.now book.new pool.new }
    ensures book { BookAfter flows.now book.old book.new }
    ensures uses { OnOk result (uses_in book.new
        ≡ after_uses flows.now (uses_in book.old) (uses_filled flows.now filled.now)) }
    ensures grown { Grows pool.old pool.new }
    ensures read { C.read_count tally.new ≡ C.read_count tally.old }
    ensures folds { C.fold_count tally.new ≡ C.fold_count tally.old }
{
    uses_enter();
    match filled {
        None => Ok(None),
        Some(row) => {
            let cut = fill_again(inner, flows, row, book, pool, tally)?;
            Ok(Some(cut))
        }
    }
}

/// The column that begins at a place before the flow's end, decided and made.
fn made_column<I: InnerRows, C: Tally>(
    alloc: Global,
    inner: &mut I,
    flows: &Flows,
    flow: u32,
    from: &Token,
    height: Units,
    book: &mut Book,
    pool: &mut Pool,
    tally: &mut C,
) -> Result<ColumnOut, NoMemory>
    requires flow { flow < length flows.now.flows }
    requires place { IsPlaceBefore flows.now (flow_of flows.now flow) from.now }
    requires nests { All (NestsAtMost flows.now (I.depth inner.old)) (rows_in (flow_of flows.now flow)) }
    requires deep { I.depth inner.old ≤ 2 }
    requires some { All (λ r. 0 < length (flow_in flows.now r).items) (rows_in (flow_of flows.now flow)) }
    requires engine { I.is_true inner.old flows.now book.old pool.old }
    requires book { AreTrue flows.now book.old }
    ensures column { IfOk result
        (IsColumn height (column_of (all_rows flows.now) flows.now (flow_of flows.now flow) from.now height)) }
    ensures frag { IfOk result (λ out. StandsFor pool.new out.frag (tree_of_column flows.now flow from.now height)) }
    ensures depth { I.depth inner.new ≡ I.depth inner.old }
    ensures engine { I.is_true inner.new flows.now book.new pool.new }
    ensures book { BookAfter flows.now book.old book.new }
    ensures uses { OnOk result (uses_in book.new ≡ after_uses flows.now (uses_in book.old)
        (column_of (all_rows flows.now) flows.now (flow_of flows.now flow) from.now height).uses) }
    ensures grown { Grows pool.old pool.new }
    ensures read { C.read_count tally.new
        ≤ C.read_count tally.old + look_cost (all_rows flows.now) flows.now (flow_of flows.now flow) from.now height }
    ensures folds { C.fold_count tally.new ≡ C.fold_count tally.old }
{
    uses_enter();
    let decision = decide(alloc, inner, flows, flow, from, height, book, pool, tally)?;
    let cut = cut_of(inner, flows, &decision.filled, book, pool, tally)?;
    let decided = Decided {
        end: decision.end,
        extent: decision.extent,
        cut,
    };
    let frag = make_column(
        alloc, inner, flows, flow, from, height, &decided, book, pool, tally,
    )?;
    Ok(ColumnOut {
        end: decided.end,
        level: decision.level,
        overflow: decision.overflow,
        extent: decided.extent,
        short: decision.short,
        lines: decision.lines,
        frag,
    })
}

/// The column of a flow that begins at a place before its end, at a height in units, with its fragment.
///
/// It ends where the definition says: of the seams up to the first item that there is no room for, and the place within that
/// item where it is a row, at the one of least level, and among equals at the latest (CSS Fragmentation 3, section 4.5). The book
/// gets the sizes that the column uses, where they aren't there. There are at most two reads for each item up to its stop, and
/// two more.
///
/// The rows of the flow have an item each, and a place within one has at most two numbers. When out of memory, the trial nodes
/// are as they were, and the book may have further true entries; else what was live is live and unchanged.
pub fn column<I: InnerRows, C: Tally>(
    alloc: Global,
    inner: &mut I,
    flows: &Flows,
    flow: u32,
    from: &Token,
    height: Units,
    book: &mut Book,
    pool: &mut Pool,
    tally: &mut C,
) -> Result<ColumnOut, NoMemory>
    requires flow { flow < length flows.now.flows }
    requires place { IsPlaceBefore flows.now (flow_of flows.now flow) from.now }
    requires nests { All (NestsAtMost flows.now (I.depth inner.old)) (rows_in (flow_of flows.now flow)) }
    requires deep { I.depth inner.old ≤ 2 }
    requires some { All (λ r. 0 < length (flow_in flows.now r).items) (rows_in (flow_of flows.now flow)) }
    requires engine { I.is_true inner.old flows.now book.old pool.old }
    requires book { AreTrue flows.now book.old }
    ensures column { IfOk result
        (IsColumn height (column_of (all_rows flows.now) flows.now (flow_of flows.now flow) from.now height)) }
    ensures frag { IfOk result (λ out. StandsFor pool.new out.frag (tree_of_column flows.now flow from.now height)) }
    ensures depth { I.depth inner.new ≡ I.depth inner.old }
    ensures engine { I.is_true inner.new flows.now book.new pool.new }
    ensures book { BookAfter flows.now book.old book.new }
    ensures uses { OnOk result (uses_in book.new ≡ after_uses flows.now (uses_in book.old)
        (column_of (all_rows flows.now) flows.now (flow_of flows.now flow) from.now height).uses) }
    ensures grown { OnOk result (Grows pool.old pool.new) }
    ensures refused { OnErr result (SameTrial pool.old pool.new) }
    ensures read { C.read_count tally.new
        ≤ C.read_count tally.old + look_cost (all_rows flows.now) flows.now (flow_of flows.now flow) from.now height }
    ensures folds { C.fold_count tally.new ≡ C.fold_count tally.old }
{
    let mark = pool.mark();
    match made_column(alloc, inner, flows, flow, from, height, book, pool, tally) {
        Ok(made) => Ok(made),
        Err(full) => {
            pool.release(&mark);
            Err(full)
        }
    }
}
