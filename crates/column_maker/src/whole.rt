//! A row that stands whole in a column.

ghost use Rattle.std.specs.Prelude.{◌≡◌, ℕ, ◌<◌, ◌++◌, IfOk, IfSome, List, MatchOption, None, OnOk};
ghost use Rattle.std.specs.Prelude.{length, true};
ghost use Rattle.flow_data.specs.Flows.{flow_in};
ghost use Rattle.flow_data.specs.Soundness.{NestsAtMost};
ghost use Rattle.flow_list.specs.Certificate.{Use, stands_in};
ghost use Rattle.flow_list.specs.Entries.{uses_in};
ghost use Rattle.flow_list.specs.Rows.{all_rows, left_in};
ghost use Rattle.flow_list.specs.Tokens.{IsPlaceBefore};
ghost use Rattle.frag_pool.specs.Growing.{Grows};
ghost use Rattle.frag_pool.specs.Standing.{AllStandFor, StandsFor};
ghost use Rattle.mc_base.specs.PlainTree.{plain_trees, row_piece};
ghost use Rattle.inner_rows.specs.TrueBook.{AreTrue, BookAfter};
ghost use Rattle.column_maker.specs.Making.{columns_in, whole_at};
ghost use Rattle.column_maker.specs.Wholes.{IsPart};

use flow_list::{Book, Counts, Flows, flow_counts};
use frag_maker::{add_node, ids_in};
use frag_pool::Pool;
use inner_rows::InnerRows;
use mc_base::{FragId, List, NoMemory, Node, Token, Units};
use range_laws::uses_enter;
use std::alloc::Global;

/// Adds these ids.
fn push_all(into: &mut List<FragId>, ids: &[FragId]) -> Result<(), NoMemory>
    ensures { OnOk result (into.new ≡ into.old ++ ids.now) }
{
    for id in ids {
        into.push(*id)?;
    }
    Ok(())
}

/// Adds the columns of one fill of a row, from a place before its end on, and tells where the next fill begins, if the row's end
/// isn't reached.
fn add_fill<I: InnerRows>(
    inner: &mut I,
    flows: &Flows,
    row: u32,
    at: &Token,
    height: Units,
    columns: &mut List<FragId>,
    book: &mut Book,
    pool: &mut Pool,
    tally: &mut Counts,
) -> Result<Option<Token>, NoMemory>
    requires row { row < length flows.now.rows }
    requires place { IsPlaceBefore flows.now (flow_in flows.now row) at.now }
    requires nests { NestsAtMost flows.now (I.depth inner.old) row }
    requires engine { I.is_true inner.old flows.now book.old pool.old }
    requires book { AreTrue flows.now book.old }
    ensures columns { (from : List ℕ) (stand : List Use) → IsPart flows.now row from height stand pool.old columns.old at.now →
        IfOk result (λ next. MatchOption next
        (AllStandFor pool.new columns.new (plain_trees (columns_in flows.now (whole_at flows.now row from height))))
        (λ t. IsPart flows.now row from height stand pool.new columns.new t)) }
    ensures uses { (from : List ℕ) → IsPart flows.now row from height (uses_in book.old) pool.old columns.old at.now →
        OnOk result (uses_in book.new ≡ uses_in book.old) }
    ensures place { IfOk result (λ next. IfSome next (λ t. IsPlaceBefore flows.now (flow_in flows.now row) t)) }
    ensures fewer { IfOk result (λ next. IfSome next (λ t.
        left_in (all_rows flows.now) (flow_in flows.now row) t < left_in (all_rows flows.now) (flow_in flows.now row) at.now)) }
    ensures depth { I.depth inner.new ≡ I.depth inner.old }
    ensures engine { I.is_true inner.new flows.now book.new pool.new }
    ensures book { BookAfter flows.now book.old book.new }
    ensures grown { Grows pool.old pool.new }
{
    // Sealed flows are sound.
    let _counts = flow_counts(flows);
    uses_enter();
    let filled = inner.fill(flows, row, at, height, book, pool, tally)?;
    push_all(columns, ids_in(pool.get(filled.frag)))?;
    if filled.at_end {
        Ok(None)
    } else {
        Ok(Some(filled.end))
    }
}

/// A piece of a row that has all its columns from a place on, at its size, which stands in the book: those of its fills, one
/// after another.
pub fn whole_row<I: InnerRows>(
    alloc: Global,
    inner: &mut I,
    flows: &Flows,
    row: u32,
    from: &Token,
    height: Units,
    book: &mut Book,
    pool: &mut Pool,
    tally: &mut Counts,
) -> Result<FragId, NoMemory>
    requires row { row < length flows.now.rows }
    requires place { IsPlaceBefore flows.now (flow_in flows.now row) from.now }
    requires nests { NestsAtMost flows.now (I.depth inner.old) row }
    requires engine { I.is_true inner.old flows.now book.old pool.old }
    requires book { AreTrue flows.now book.old }
    requires size { height ≡ (all_rows flows.now).size row from.now }
    requires stands { stands_in (uses_in book.old) (row, from.now) ≡ true }
    ensures frag { IfOk result (λ id. StandsFor pool.new id (row_piece row from.now 0 None
        (plain_trees (columns_in flows.now (whole_at flows.now row from.now height))))) }
    ensures uses { OnOk result (uses_in book.new ≡ uses_in book.old) }
    ensures depth { I.depth inner.new ≡ I.depth inner.old }
    ensures engine { I.is_true inner.new flows.now book.new pool.new }
    ensures book { BookAfter flows.now book.old book.new }
    ensures grown { Grows pool.old pool.new }
{
    // Sealed flows are sound.
    let _counts = flow_counts(flows);
    let mut columns = List::new(alloc);
    let mut at = from.copy();
    while let Some(next) = add_fill(
        inner,
        flows,
        row,
        &at,
        height,
        &mut columns,
        book,
        pool,
        tally,
    )? {
        at = next;
    }
    let id = add_node(
        pool,
        Node::RowPiece {
            row,
            from: from.copy(),
            y: 0,
            height: None,
            columns,
        },
    )?;
    Ok(id)
}
