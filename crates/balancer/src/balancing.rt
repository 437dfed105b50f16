//! The least height of a row.

ghost use Rattle.std.specs.Prelude.{◌≡◌, ℕ, ◌+◌, ◌^◌, ◌<◌, ◌≤◌, IfOk, IfSome, OnOk, OnErr, All, false, length, None, Some};
ghost use Rattle.flow_data.specs.Flows.{flow_in, rows_in};
ghost use Rattle.flow_data.specs.Soundness.{NestsAtMost};
ghost use Rattle.flow_list.specs.Book.{after_uses};
ghost use Rattle.flow_list.specs.Certificate.{columns_from, uses_of};
ghost use Rattle.flow_list.specs.Counts.{raised};
ghost use Rattle.flow_list.specs.Entries.{uses_in};
ghost use Rattle.flow_list.specs.RowHeights.{balanced_fits, balanced_height};
ghost use Rattle.flow_list.specs.Tokens.{IsPlace};
ghost use Rattle.frag_pool.specs.Growing.{Grows};
ghost use Rattle.frag_pool.specs.Nodes.{SameTrial};
ghost use Rattle.frag_pool.specs.Standing.{StandsFor};
ghost use Rattle.inner_rows.specs.Filling.{row_tree};
ghost use Rattle.inner_rows.specs.TrueBook.{AreTrue, BookAfter};
ghost use Rattle.balancer.specs.Balancing.{IsBalanced, balanced_uses, limit_of};
ghost use Rattle.balancer.specs.Cost.{balanced_cost, columns_cost};

use crate::search::search;
use crate::standing::with_height;
use column_laws::{columns_are_few, columns_follow, flows_are_sound};
use column_row::{FoldMode, fold};
use flow_laws::ranges_account;
use flow_list::{Book, Flows, Range, Tally, flow_counts};
use frag_pool::Pool;
use inner_rows::InnerRows;
use mc_base::{FragId, List, NoMemory, Token, Units};
use range_laws::{own_columns_enter, uses_enter};
use std::alloc::Global;

/// A balanced row: its height in units, whether it fits, the ranges of lesser heights that don't, and its fragment, a row piece
/// at the top with this height.
#[derive(Drop)]
pub struct Balanced {
    pub height: Units,
    pub fits: bool,
    pub ranges: List<Range>,
    pub frag: FragId,
}

/// What is available, and no limit where that is the greatest number of 64 bits: no row is as high.
fn limit(available: Option<Units>) -> Option<Units>
    ensures { result ≡ limit_of available }
{
    match available {
        None => None,
        Some(available) => {
            if available < u64::MAX {
                Some(available)
            } else {
                None
            }
        }
    }
}

/// What is available, the height of a row that is too high for it.
fn height_within(available: Option<Units>, other: Units) -> Units
    ensures { (size : ℕ) → balanced_fits available size ≡ false → result ≡ balanced_height available size }
{
    match available {
        None => other,
        Some(available) => available,
    }
}

/// The fragment of all columns of a row from a place on at a height: a row piece at the top without a height.
fn whole_piece<I: InnerRows, C: Tally>(
    alloc: Global,
    inner: &mut I,
    flows: &Flows,
    row: u32,
    from: &Token,
    height: Units,
    book: &mut Book,
    pool: &mut Pool,
    tally: &mut C,
) -> Result<FragId, NoMemory>
    requires row { row < length flows.now.rows }
    requires place { IsPlace flows.now (flow_in flows.now row) from.now }
    requires nests { All (NestsAtMost flows.now (I.depth inner.old)) (rows_in (flow_in flows.now row)) }
    requires deep { I.depth inner.old ≤ 2 }
    requires engine { I.is_true inner.old flows.now book.old pool.old }
    requires book { AreTrue flows.now book.old }
    ensures frag { IfOk result (λ frag. StandsFor pool.new frag (row_tree flows.now row from.now height None
        (columns_from flows.now row from.now height))) }
    ensures depth { I.depth inner.new ≡ I.depth inner.old }
    ensures engine { I.is_true inner.new flows.now book.new pool.new }
    ensures book { BookAfter flows.now book.old book.new }
    ensures uses { OnOk result (uses_in book.new
        ≡ after_uses flows.now (uses_in book.old) (uses_of (columns_from flows.now row from.now height))) }
    ensures grown { OnOk result (Grows pool.old pool.new) }
    ensures refused { OnErr result (SameTrial pool.old pool.new) }
    ensures reads { C.read_count tally.new ≤ C.read_count tally.old + columns_cost flows.now row from.now height }
    ensures folds { C.fold_count tally.new ≡ raised (C.fold_count tally.old) 1 }
{
    // In sealed flows, which are sound, these are laws: there are fewer columns than 2^32.
    let _counts = flow_counts(flows);
    columns_follow();
    columns_are_few();
    flows_are_sound();
    let made = fold(
        alloc,
        inner,
        flows,
        row,
        from,
        height,
        u32::MAX,
        FoldMode::All,
        book,
        pool,
        tally,
    )?;
    Ok(made.frag)
}

/// The row at its least height, or at what is available. What was live in the region stays as it was, also where there is no
/// memory.
fn balance<I: InnerRows, C: Tally>(
    alloc: Global,
    inner: &mut I,
    flows: &Flows,
    row: u32,
    from: &Token,
    available: Option<Units>,
    book: &mut Book,
    pool: &mut Pool,
    tally: &mut C,
) -> Result<Balanced, NoMemory>
    requires row { row < length flows.now.rows }
    requires place { IsPlace flows.now (flow_in flows.now row) from.now }
    requires nests { All (NestsAtMost flows.now (I.depth inner.old)) (rows_in (flow_in flows.now row)) }
    requires deep { I.depth inner.old ≤ 2 }
    requires engine { I.is_true inner.old flows.now book.old pool.old }
    requires book { AreTrue flows.now book.old }
    requires available { IfSome available (λ a. a + 1 < 2 ^ 64) }
    ensures least { IfOk result (IsBalanced flows.now row from.now available) }
    ensures frag { IfOk result (λ out. StandsFor pool.new out.frag (row_tree flows.now row from.now out.height (Some out.height)
        (columns_from flows.now row from.now out.height))) }
    ensures depth { I.depth inner.new ≡ I.depth inner.old }
    ensures engine { I.is_true inner.new flows.now book.new pool.new }
    ensures book { BookAfter flows.now book.old book.new }
    ensures uses { OnOk result (uses_in book.new
        ≡ after_uses flows.now (uses_in book.old) (balanced_uses flows.now row from.now available)) }
    ensures grown { Grows pool.old pool.new }
    ensures folds { IfOk result (λ out. C.fold_count tally.new ≤ C.fold_count tally.old + (length out.ranges + 1)) }
    ensures reads { IfOk result (λ out. C.read_count tally.new
        ≤ C.read_count tally.old + balanced_cost flows.now row from.now out.ranges out.height) }
{
    // In sealed flows, which are sound, these are laws.
    let _counts = flow_counts(flows);
    own_columns_enter();
    uses_enter();
    let found = search(alloc, inner, flows, row, from, available, book, pool, tally)?;
    let ranges = found.ranges;
    match found.frag {
        Some(piece) => {
            let height = found.height;
            let frag = with_height(alloc, pool, piece, row, from, height)?;
            Ok(Balanced {
                height,
                fits: true,
                ranges,
                frag,
            })
        }
        None => {
            let height = height_within(available, found.height);
            let piece = whole_piece(alloc, inner, flows, row, from, height, book, pool, tally)?;
            let frag = with_height(alloc, pool, piece, row, from, height)?;
            Ok(Balanced {
                height,
                fits: false,
                ranges,
                frag,
            })
        }
    }
}

/// The least height in units (1 unit is 1/64 px) at which a row fits from a place on, or what is available where none up to that
/// fits, and the ranges of lesser heights, each with the reason why none of them fits (CSS Multi-column 1, section 7.1, leaves
/// the height of balanced columns open; that it is the least is this project's own). The book gets the sizes that the ranges and
/// the row's own columns use, where they aren't there.
///
/// Columns are made once for each range at most, and once for the row. For the ranges and the row's own columns, items are read
/// as often as those columns ask for, and each item from the place on twice more.
///
/// When out of memory, the region's trial nodes are as they were, and the book may have further true entries; else what was live
/// is live and unchanged.
pub fn least<I: InnerRows, C: Tally>(
    alloc: Global,
    inner: &mut I,
    flows: &Flows,
    row: u32,
    from: &Token,
    available: Option<Units>,
    book: &mut Book,
    pool: &mut Pool,
    tally: &mut C,
) -> Result<Balanced, NoMemory>
    requires row { row < length flows.now.rows }
    requires place { IsPlace flows.now (flow_in flows.now row) from.now }
    requires nests { All (NestsAtMost flows.now (I.depth inner.old)) (rows_in (flow_in flows.now row)) }
    requires deep { I.depth inner.old ≤ 2 }
    requires engine { I.is_true inner.old flows.now book.old pool.old }
    requires book { AreTrue flows.now book.old }
    ensures least { IfOk result (IsBalanced flows.now row from.now available) }
    ensures frag { IfOk result (λ out. StandsFor pool.new out.frag (row_tree flows.now row from.now out.height (Some out.height)
        (columns_from flows.now row from.now out.height))) }
    ensures depth { I.depth inner.new ≡ I.depth inner.old }
    ensures engine { I.is_true inner.new flows.now book.new pool.new }
    ensures book { BookAfter flows.now book.old book.new }
    ensures uses { OnOk result (uses_in book.new
        ≡ after_uses flows.now (uses_in book.old) (balanced_uses flows.now row from.now available)) }
    ensures grown { OnOk result (Grows pool.old pool.new) }
    ensures refused { OnErr result (SameTrial pool.old pool.new) }
    ensures folds { IfOk result (λ out. C.fold_count tally.new ≤ C.fold_count tally.old + (length out.ranges + 1)) }
    ensures reads { IfOk result (λ out. C.read_count tally.new
        ≤ C.read_count tally.old + balanced_cost flows.now row from.now out.ranges out.height) }
{
    // In sealed flows, which are sound, these are laws.
    let _counts = flow_counts(flows);
    ranges_account();
    flows_are_sound();
    let mark = pool.mark();
    match balance(
        alloc,
        inner,
        flows,
        row,
        from,
        limit(available),
        book,
        pool,
        tally,
    ) {
        Ok(made) => Ok(made),
        Err(_) => {
            pool.release(&mark);
            Err(NoMemory)
        }
    }
}
