//! Items that stand whole in a column.

ghost use Rattle.std.specs.Prelude.{◌≡◌, ◌+◌, ◌<◌, ◌≤◌, ◌^◌, ◌∷◌, ◌++◌, [], All, IfOk, OnOk, length, drop};
ghost use Rattle.flow_data.specs.Flows.{flow_of, item_of, row_in, rows_in};
ghost use Rattle.flow_data.specs.Soundness.{NestsAtMost};
ghost use Rattle.flow_list.specs.Column.{height_of, row_from, row_list, strip_behind};
ghost use Rattle.flow_list.specs.Book.{after_uses};
ghost use Rattle.flow_list.specs.Counts.{raised};
ghost use Rattle.flow_list.specs.Entries.{uses_in};
ghost use Rattle.flow_list.specs.Fragments.{laid_item};
ghost use Rattle.flow_list.specs.Rows.{all_rows};
ghost use Rattle.flow_list.specs.Strip.{put};
ghost use Rattle.frag_pool.specs.Growing.{Grows};
ghost use Rattle.column_places.specs.Placing.{HasMargin, Leads, rows_of, strip_of};
ghost use Rattle.inner_rows.specs.TrueBook.{AreTrue, BookAfter};
ghost use Rattle.column_maker.specs.Making.{AllHaveColumns, IsTakenFrom};
ghost use Rattle.column_maker.specs.Walking.{HasRoom, item_laid, item_passed, strip_next};

use crate::whole::whole_row;
use column_places::Placing;
use flow_list::{Book, Counts, Flows, Item, Tally, flow_counts, item_at, seam_at};
use frag_maker::MadeRow;
use frag_pool::Pool;
use inner_rows::InnerRows;
use mc_base::{NoMemory, Token};
use range_laws::uses_enter;
use std::alloc::Global;

/// Lays an item, which is taken from a place.
fn stand_one<I: InnerRows>(
    alloc: Global,
    inner: &mut I,
    flows: &Flows,
    k: u32,
    item: Item,
    from: &Token,
    at: &mut Placing,
    book: &mut Book,
    pool: &mut Pool,
    tally: &mut Counts,
) -> Result<(), NoMemory>
    requires known { All (λ r. r < length flows.now.rows) (row_in item) }
    requires place { IsTakenFrom flows.now item from.now }
    requires nests { All (NestsAtMost flows.now (I.depth inner.old)) (row_in item) }
    requires engine { I.is_true inner.old flows.now book.old pool.old }
    requires book { AreTrue flows.now book.old }
    requires margin { HasMargin at.old }
    requires room { at.old.y + at.old.margin + height_of (all_rows flows.now) item from.now < 2 ^ 63 }
    requires made { AllHaveColumns flows.now pool.old (rows_of at.old) }
    ensures leads { OnOk result (Leads at.old (laid_item (all_rows flows.now) item k from.now ∷ [])
        (put (strip_of at.old) (height_of (all_rows flows.now) item from.now)) at.new) }
    ensures made { OnOk result (AllHaveColumns flows.now pool.new (rows_of at.new)) }
    ensures uses { OnOk result (uses_in book.new
        ≡ after_uses flows.now (uses_in book.old) (row_list (row_from item from.now))) }
    ensures depth { I.depth inner.new ≡ I.depth inner.old }
    ensures engine { I.is_true inner.new flows.now book.new pool.new }
    ensures book { BookAfter flows.now book.old book.new }
    ensures grown { Grows pool.old pool.new }
{
    uses_enter();
    match item {
        Item::Atom { height, .. } => {
            at.stand(alloc, k, height)?;
            Ok(())
        }
        Item::Row(row) => {
            let height = inner.size(flows, row, from, book, pool, tally)?;
            let made = whole_row(alloc, inner, flows, row, from, height, book, pool, tally)?;
            at.stand_row(
                alloc,
                MadeRow {
                    row,
                    from: from.copy(),
                    height,
                    made_at: Some(height),
                    filled: false,
                    made,
                },
            )?;
            Ok(())
        }
    }
}

/// Lays item `k` of a flow, which is taken from a place, and the tail of the seam after it.
pub fn stand_item<I: InnerRows, C: Tally>(
    alloc: Global,
    inner: &mut I,
    flows: &Flows,
    flow: u32,
    k: u32,
    from: &Token,
    at: &mut Placing,
    book: &mut Book,
    pool: &mut Pool,
    tally: &mut C,
) -> Result<(), NoMemory>
    requires flow { flow < length flows.now.flows }
    requires item { k < length (flow_of flows.now flow).items }
    requires place { IsTakenFrom flows.now (item_of (flow_of flows.now flow) k) from.now }
    requires nests { All (NestsAtMost flows.now (I.depth inner.old)) (rows_in (flow_of flows.now flow)) }
    requires engine { I.is_true inner.old flows.now book.old pool.old }
    requires book { AreTrue flows.now book.old }
    requires margin { HasMargin at.old }
    requires room { HasRoom flows.now (flow_of flows.now flow) k from.now (strip_of at.old) }
    requires made { AllHaveColumns flows.now pool.old (rows_of at.old) }
    ensures leads { OnOk result (Leads at.old
        (item_laid (all_rows flows.now) (flow_of flows.now flow) (strip_of at.old) k from.now)
        (strip_behind (all_rows flows.now) (flow_of flows.now flow) (strip_of at.old) k from.now) at.new) }
    ensures made { OnOk result (AllHaveColumns flows.now pool.new (rows_of at.new)) }
    ensures uses { OnOk result (uses_in book.new ≡ after_uses flows.now (uses_in book.old)
        (row_list (row_from (item_of (flow_of flows.now flow) k) from.now))) }
    ensures depth { I.depth inner.new ≡ I.depth inner.old }
    ensures engine { I.is_true inner.new flows.now book.new pool.new }
    ensures book { BookAfter flows.now book.old book.new }
    ensures grown { Grows pool.old pool.new }
    ensures reads { C.read_count tally.new ≡ raised (C.read_count tally.old) 1 }
    ensures folds { C.fold_count tally.new ≡ C.fold_count tally.old }
{
    // Sealed flows are sound.
    let _counts = flow_counts(flows);
    let item = item_at(flows, flow, k, tally);
    let mut counts = Counts {
        reads: 0,
        below: 0,
        folds: 0,
    };
    let stood = stand_one(
        alloc,
        inner,
        flows,
        k,
        item,
        from,
        at,
        book,
        pool,
        &mut counts,
    );
    tally.below(
        counts
            .reads
            .saturating_add(counts.below)
            .saturating_add(counts.folds),
    );
    stood?;
    at.lay_all(alloc, seam_at(flows, flow, k + 1).tail.as_slice())?;
    Ok(())
}

/// Lays item `k` of a flow, the tail of the seam after it, and the head before the next item.
pub fn pass_item<I: InnerRows, C: Tally>(
    alloc: Global,
    inner: &mut I,
    flows: &Flows,
    flow: u32,
    k: u32,
    from: &Token,
    at: &mut Placing,
    book: &mut Book,
    pool: &mut Pool,
    tally: &mut C,
) -> Result<(), NoMemory>
    requires flow { flow < length flows.now.flows }
    requires item { k < length (flow_of flows.now flow).items }
    requires place { IsTakenFrom flows.now (item_of (flow_of flows.now flow) k) from.now }
    requires nests { All (NestsAtMost flows.now (I.depth inner.old)) (rows_in (flow_of flows.now flow)) }
    requires engine { I.is_true inner.old flows.now book.old pool.old }
    requires book { AreTrue flows.now book.old }
    requires margin { HasMargin at.old }
    requires room { HasRoom flows.now (flow_of flows.now flow) k from.now (strip_of at.old) }
    requires made { AllHaveColumns flows.now pool.old (rows_of at.old) }
    ensures leads { OnOk result (Leads at.old
        (item_passed (all_rows flows.now) (flow_of flows.now flow) (strip_of at.old) k from.now)
        (strip_next (all_rows flows.now) (flow_of flows.now flow) (strip_of at.old) k from.now) at.new) }
    ensures made { OnOk result (AllHaveColumns flows.now pool.new (rows_of at.new)) }
    ensures uses { OnOk result (uses_in book.new ≡ after_uses flows.now (uses_in book.old)
        (row_list (row_from (item_of (flow_of flows.now flow) k) from.now))) }
    ensures depth { I.depth inner.new ≡ I.depth inner.old }
    ensures engine { I.is_true inner.new flows.now book.new pool.new }
    ensures book { BookAfter flows.now book.old book.new }
    ensures grown { Grows pool.old pool.new }
    ensures reads { C.read_count tally.new ≡ raised (C.read_count tally.old) 1 }
    ensures folds { C.fold_count tally.new ≡ C.fold_count tally.old }
{
    // Sealed flows are sound.
    let _counts = flow_counts(flows);
    stand_item(alloc, inner, flows, flow, k, from, at, book, pool, tally)?;
    at.lay_all(alloc, seam_at(flows, flow, k + 1).head.as_slice())?;
    Ok(())
}
