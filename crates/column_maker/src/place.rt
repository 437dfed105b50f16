//! What is placed in a column that was decided.

ghost use Rattle.std.specs.Prelude.{◌≡◌, ◌+◌, ◌<◌, ◌≤◌, ◌^◌, ◌∷◌, ◌++◌, [], All, IfOk, IfSome, List, OnOk, length, map};
ghost use Rattle.std.specs.Option.{option_map};
ghost use Rattle.flow_data.specs.Flows.{flow_in, flow_of, item_of, rows_in};
ghost use Rattle.flow_data.specs.Soundness.{NestsAtMost};
ghost use Rattle.flow_list.specs.Column.{column, height_of};
ghost use Rattle.flow_list.specs.Book.{after_uses};
ghost use Rattle.flow_list.specs.Counts.{raised};
ghost use Rattle.flow_list.specs.Entries.{uses_in};
ghost use Rattle.flow_list.specs.Placing.{Laid};
ghost use Rattle.flow_list.specs.Rows.{all_rows};
ghost use Rattle.flow_list.specs.Tokens.{IsPlaceBefore, within};
ghost use Rattle.frag_pool.specs.Growing.{Grows};
ghost use Rattle.frag_maker.specs.Building.{RowsAreMade, placed_as};
ghost use Rattle.column_places.specs.Placing.{HasMargin, rows_of, strip_of, with_more};
ghost use Rattle.inner_rows.specs.TrueBook.{AreTrue, BookAfter};
ghost use Rattle.column_maker.specs.Making.{AllHaveColumns, HasColumns, IsEnding, IsTakenFrom, columns_in, cut_laid, cut_room};
ghost use Rattle.column_maker.specs.Making.{cut_row, ends_at_seam, items_in, last_item, last_laid, last_rows};
ghost use Rattle.column_maker.specs.Making.{placed_to, row_number, rows_in_column};
ghost use Rattle.column_maker.specs.Walking.{HasRoom};

use crate::begin::begin_column;
use crate::items::{pass_item, stand_item};
use column_places::Placing;
use flow_list::{Book, Flows, Item, Tally, flow_counts, item_at, seam_at};
use frag_maker::{MadeRow, Placed};
use frag_pool::Pool;
use inner_rows::InnerRows;
use mc_base::{FragId, NoMemory, Token, Units};
use range_laws::uses_enter;
use std::alloc::Global;

/// A row that is filled where a column ends: the room that it has, in units, and a fragment of what it makes of that.
#[derive(Clone, Copy, Debug, PartialEq, Eq)]
pub struct Cut {
    pub room: Units,
    pub made: FragId,
}

/// The item in which a column ends.
fn last_of(end: &Token) -> u32
    ensures { result ≡ last_item end.now }
{
    match end.rest() {
        Some(_within) => end.item(),
        None => end.item().saturating_sub(1),
    }
}

/// The place within the first item of a column, where it is entered; else an item's start.
fn taken_first(alloc: Global, from: &Token) -> Token
    ensures { result ≡ within from.now }
{
    match from.rest() {
        Some(rest) => rest,
        None => Token::start(alloc, 0),
    }
}

/// Whether a column ends at a seam, and not within a row.
fn is_at_seam(end: &Token) -> bool
    ensures { result ≡ ends_at_seam end.now }
{
    end.rest().is_none()
}

/// The number of a row.
fn row_of_item(item: Item) -> u32
    ensures { result ≡ row_number item }
{
    match item {
        Item::Row(row) => row,
        Item::Atom { .. } => 0,
    }
}

/// Lays the row that is filled where a column ends, and where its end was reached the tail of the seam after it.
fn stand_cut<C: Tally>(
    alloc: Global,
    flows: &Flows,
    flow: u32,
    k: u32,
    from: &Token,
    cut: Cut,
    reached: bool,
    at: &mut Placing,
    tally: &mut C,
) -> Result<(), NoMemory>
    requires flow { flow < length flows.now.flows }
    requires item { k < length (flow_of flows.now flow).items }
    requires low { cut.room ≤ height_of (all_rows flows.now) (item_of (flow_of flows.now flow) k) from.now }
    requires margin { HasMargin at.old }
    requires room { HasRoom flows.now (flow_of flows.now flow) k from.now (strip_of at.old) }
    ensures places { OnOk result ((more : List Laid) →
        with_more at.old (cut_laid (flow_of flows.now flow) k cut.room reached (strip_of at.old) from.now ++ more)
        ≡ with_more at.new more) }
    ensures margin { OnOk result (HasMargin at.new) }
    ensures room { OnOk result (at.new.y + at.new.margin < 2 ^ 63) }
    ensures rows { OnOk result (rows_of at.new
        ≡ rows_of at.old ++ cut_row (flow_of flows.now flow) k from.now cut.room cut.made ∷ []) }
    ensures reads { C.read_count tally.new ≡ raised (C.read_count tally.old) 1 }
    ensures folds { C.fold_count tally.new ≡ C.fold_count tally.old }
{
    // Sealed flows are sound.
    let _counts = flow_counts(flows);
    let row = row_of_item(item_at(flows, flow, k, tally));
    at.stand_row(
        alloc,
        MadeRow {
            row,
            from: from.copy(),
            height: cut.room,
            made_at: Some(cut.room),
            filled: true,
            made: cut.made,
        },
    )?;
    if reached {
        at.lay_all(alloc, seam_at(flows, flow, k + 1).tail.as_slice())?;
    }
    Ok(())
}

/// Lays the last item of a column: whole, or as far as it goes.
fn stand_last<I: InnerRows, C: Tally>(
    alloc: Global,
    inner: &mut I,
    flows: &Flows,
    flow: u32,
    k: u32,
    from: &Token,
    cut: Option<Cut>,
    reached: bool,
    at: &mut Placing,
    book: &mut Book,
    pool: &mut Pool,
    tally: &mut C,
) -> Result<(), NoMemory>
    requires flow { flow < length flows.now.flows }
    requires item { k < length (flow_of flows.now flow).items }
    requires place { IsTakenFrom flows.now (item_of (flow_of flows.now flow) k) from.now }
    requires nests { All (NestsAtMost flows.now (I.depth inner.old)) (rows_in (flow_of flows.now flow)) }
    requires engine { I.is_true inner.old flows.now book.old pool.old }
    requires book { AreTrue flows.now book.old }
    requires cut { IfSome cut (λ c. (c.room ≤ height_of (all_rows flows.now) (item_of (flow_of flows.now flow) k) from.now)
        × HasColumns flows.now pool.old (cut_row (flow_of flows.now flow) k from.now c.room c.made)) }
    requires margin { HasMargin at.old }
    requires room { HasRoom flows.now (flow_of flows.now flow) k from.now (strip_of at.old) }
    requires made { AllHaveColumns flows.now pool.old (rows_of at.old) }
    ensures places { OnOk result ((more : List Laid) →
        with_more at.old (last_laid flows.now (flow_of flows.now flow) k (option_map cut_room cut) reached (strip_of at.old)
        from.now
        ++ more) ≡ with_more at.new more) }
    ensures margin { OnOk result (HasMargin at.new) }
    ensures room { OnOk result (at.new.y + at.new.margin < 2 ^ 63) }
    ensures made { OnOk result (AllHaveColumns flows.now pool.new (rows_of at.new)) }
    ensures uses { OnOk result (uses_in book.new ≡ after_uses flows.now (uses_in book.old)
        (last_rows (flow_of flows.now flow) k (option_map cut_room cut) from.now)) }
    ensures depth { I.depth inner.new ≡ I.depth inner.old }
    ensures engine { I.is_true inner.new flows.now book.new pool.new }
    ensures book { BookAfter flows.now book.old book.new }
    ensures grown { Grows pool.old pool.new }
    ensures reads { C.read_count tally.new ≡ raised (C.read_count tally.old) 1 }
    ensures folds { C.fold_count tally.new ≡ C.fold_count tally.old }
{
    match cut {
        Some(cut) => {
            uses_enter();
            stand_cut(alloc, flows, flow, k, from, cut, reached, at, tally)?;
            Ok(())
        }
        None => {
            // Sealed flows are sound.
            let _counts = flow_counts(flows);
            stand_item(alloc, inner, flows, flow, k, from, at, book, pool, tally)?;
            Ok(())
        }
    }
}

/// What is placed in the column of a flow that begins at a place before its end, has this height and ends there: whole items up
/// to its last one, and that one whole too, or where it is filled as far as it goes. When out of memory, all that was live is
/// live and unchanged, and the trial nodes made so far are the caller's to release.
pub fn place_column<I: InnerRows, C: Tally>(
    alloc: Global,
    inner: &mut I,
    flows: &Flows,
    flow: u32,
    from: &Token,
    height: Units,
    end: &Token,
    cut: Option<Cut>,
    book: &mut Book,
    pool: &mut Pool,
    tally: &mut C,
) -> Result<Vec<Placed>, NoMemory>
    requires flow { flow < length flows.now.flows }
    requires place { IsPlaceBefore flows.now (flow_of flows.now flow) from.now }
    requires nests { All (NestsAtMost flows.now (I.depth inner.old)) (rows_in (flow_of flows.now flow)) }
    requires some { All (λ r. 0 < length (flow_in flows.now r).items) (rows_in (flow_of flows.now flow)) }
    requires engine { I.is_true inner.old flows.now book.old pool.old }
    requires book { AreTrue flows.now book.old }
    requires end { end.now ≡ (column (all_rows flows.now) flows.now (flow_of flows.now flow) from.now height).end }
    requires cut { IsEnding flows.now pool.old (flow_of flows.now flow) from.now height end.now cut }
    ensures placed { IfOk result (λ placed.
        map placed_as placed.items ≡ placed_to flows.now (flow_of flows.now flow) from.now height end.now) }
    ensures made { IfOk result (λ placed. RowsAreMade pool.new (columns_in flows.now) placed.items) }
    ensures uses { OnOk result (uses_in book.new ≡ after_uses flows.now (uses_in book.old)
        (rows_in_column (flow_of flows.now flow) from.now end.now (option_map cut_room cut))) }
    ensures reads { C.read_count tally.new ≤ C.read_count tally.old + items_in from.now end.now }
    ensures depth { I.depth inner.new ≡ I.depth inner.old }
    ensures engine { I.is_true inner.new flows.now book.new pool.new }
    ensures book { BookAfter flows.now book.old book.new }
    ensures grown { Grows pool.old pool.new }
    ensures folds { C.fold_count tally.new ≡ C.fold_count tally.old }
{
    // Sealed flows are sound.
    let _counts = flow_counts(flows);
    uses_enter();
    let mut at = begin_column(alloc, flows, flow, from)?;
    let last = last_of(end);
    let mut taken = taken_first(alloc, from);
    for k in from.item()..last {
        pass_item(
            alloc, inner, flows, flow, k, &taken, &mut at, book, pool, tally,
        )?;
        taken = Token::start(alloc, 0);
    }
    let reached = is_at_seam(end);
    stand_last(
        alloc, inner, flows, flow, last, &taken, cut, reached, &mut at, book, pool, tally,
    )?;
    at.finish(alloc)?;
    Ok(at.placed)
}
