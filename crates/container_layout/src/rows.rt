//! A row directly in a stack: balanced at its least height, or with `column-fill: auto` filled at what is available.

ghost use Rattle.std.specs.Prelude.{◌≡◌, ◌<◌, IfOk, OnOk, Some, false, length, true};
ghost use Rattle.flow_data.specs.Flows.{row_of};
ghost use Rattle.flow_list.specs.Book.{after_uses};
ghost use Rattle.flow_list.specs.Certificate.{row_ranges, row_uses};
ghost use Rattle.flow_list.specs.Entries.{uses_in};
ghost use Rattle.flow_list.specs.RowHeights.{fill_limit, filled_to, row_height as height_of};
ghost use Rattle.frag_pool.specs.Growing.{Grows};
ghost use Rattle.frag_pool.specs.Standing.{StandsFor};
ghost use Rattle.inner_rows.specs.TrueBook.{AreTrue, BookAfter};
ghost use Rattle.container_layout.specs.Laid.{piece_in_stack, row_fits};

use crate::pieces::piece_with;
use balancer::least;
use column_row::{FoldMode, fold};
use flow_list::{Book, Counts, Flows, Range, flow_counts, row_at};
use frag_pool::Pool;
use inner_rows::InnerRows;
use mc_base::{FragId, List, NoMemory, Token, Units};
use std::alloc::Global;

/// A row that was laid out: its height in units, whether it fits, the ranges of lesser heights that don't, and a piece of it at
/// the top with this height.
#[derive(Drop)]
pub struct RowMade {
    pub height: Units,
    pub fits: bool,
    pub ranges: List<Range>,
    pub frag: FragId,
}

/// Counts of no work.
fn no_counts() -> Counts
    ensures reads { result.reads ≡ 0 }
    ensures below { result.below ≡ 0 }
    ensures folds { result.folds ≡ 0 }
{
    Counts {
        reads: 0,
        below: 0,
        folds: 0,
    }
}

/// The least height that fits, or what is available where that is less.
fn balanced_row<I: InnerRows>(
    alloc: Global,
    inner: &mut I,
    flows: &Flows,
    row: u32,
    available: Option<Units>,
    book: &mut Book,
    pool: &mut Pool,
) -> Result<RowMade, NoMemory>
    requires row { row < length flows.now.rows }
    requires balanced { (row_of flows.now row).auto ≡ false }
    requires depth { I.depth inner.old ≡ 2 }
    requires engine { I.is_true inner.old flows.now book.old pool.old }
    requires book { AreTrue flows.now book.old }
    ensures height { IfOk result (λ made. made.height ≡ height_of flows.now row available) }
    ensures fits { IfOk result (λ made. made.fits ≡ row_fits flows.now row available) }
    ensures ranges { IfOk result (λ made. made.ranges ≡ row_ranges flows.now row available) }
    ensures frag { IfOk result (λ made. StandsFor pool.new made.frag
        (piece_in_stack flows.now row available (Some (height_of flows.now row available)))) }
    ensures depth { I.depth inner.new ≡ I.depth inner.old }
    ensures engine { I.is_true inner.new flows.now book.new pool.new }
    ensures book { BookAfter flows.now book.old book.new }
    ensures uses { OnOk result (uses_in book.new
        ≡ after_uses flows.now (uses_in book.old) (row_uses flows.now row available)) }
    ensures grown { Grows pool.old pool.new }
{
    // Sealed flows are sound.
    let _counts = flow_counts(flows);
    let start = Token::start(alloc, 0);
    let mut tally = no_counts();
    let made = least(
        alloc, inner, flows, row, &start, available, book, pool, &mut tally,
    )?;
    Ok(RowMade {
        height: made.height,
        fits: made.fits,
        ranges: made.ranges,
        frag: made.frag,
    })
}

/// The height of the columns of a row with `column-fill: auto`: what is available, or more than any column needs.
fn limit_of(available: Option<Units>) -> Units
    ensures { result ≡ fill_limit available }
{
    match available {
        None => Units::MAX,
        Some(most) => most,
    }
}

/// The height of such a row whose longest column reaches this far: what is available where a column was broken, or reaches
/// further.
fn filled(available: Option<Units>, extent: Units, unforced: bool) -> Units
    ensures { result ≡ filled_to available extent unforced }
{
    match available {
        None => extent,
        Some(most) => {
            if unforced || extent > most {
                most
            } else {
                extent
            }
        }
    }
}

/// All columns at what is available.
fn filled_row<I: InnerRows>(
    alloc: Global,
    inner: &mut I,
    flows: &Flows,
    row: u32,
    available: Option<Units>,
    book: &mut Book,
    pool: &mut Pool,
) -> Result<RowMade, NoMemory>
    requires row { row < length flows.now.rows }
    requires auto { (row_of flows.now row).auto ≡ true }
    requires depth { I.depth inner.old ≡ 2 }
    requires engine { I.is_true inner.old flows.now book.old pool.old }
    requires book { AreTrue flows.now book.old }
    ensures height { IfOk result (λ made. made.height ≡ height_of flows.now row available) }
    ensures fits { IfOk result (λ made. made.fits ≡ row_fits flows.now row available) }
    ensures ranges { IfOk result (λ made. made.ranges ≡ row_ranges flows.now row available) }
    ensures frag { IfOk result (λ made. StandsFor pool.new made.frag
        (piece_in_stack flows.now row available (Some (height_of flows.now row available)))) }
    ensures depth { I.depth inner.new ≡ I.depth inner.old }
    ensures engine { I.is_true inner.new flows.now book.new pool.new }
    ensures book { BookAfter flows.now book.old book.new }
    ensures uses { OnOk result (uses_in book.new
        ≡ after_uses flows.now (uses_in book.old) (row_uses flows.now row available)) }
    ensures grown { Grows pool.old pool.new }
{
    // Sealed flows are sound.
    let _counts = flow_counts(flows);
    let start = Token::start(alloc, 0);
    let limit = limit_of(available);
    let mut tally = no_counts();
    let made = fold(
        alloc,
        inner,
        flows,
        row,
        &start,
        limit,
        u32::MAX,
        FoldMode::All,
        book,
        pool,
        &mut tally,
    )?;
    let height = filled(available, made.extent, made.unforced);
    let frag = piece_with(alloc, pool, made.frag, row, Some(height))?;
    Ok(RowMade {
        height,
        fits: made.fits,
        ranges: List::new(alloc),
        frag,
    })
}

/// Lays a row directly in a stack out, where this much height is available, in units. The book gets the sizes that it uses,
/// where they aren't there. What was live in the region is live and unchanged; when out of memory, the trial nodes made so far
/// are the caller's to release, and the book may have further true entries.
pub fn make_row<I: InnerRows>(
    alloc: Global,
    inner: &mut I,
    flows: &Flows,
    row: u32,
    available: Option<Units>,
    book: &mut Book,
    pool: &mut Pool,
) -> Result<RowMade, NoMemory>
    requires row { row < length flows.now.rows }
    requires depth { I.depth inner.old ≡ 2 }
    requires engine { I.is_true inner.old flows.now book.old pool.old }
    requires book { AreTrue flows.now book.old }
    ensures height { IfOk result (λ made. made.height ≡ height_of flows.now row available) }
    ensures fits { IfOk result (λ made. made.fits ≡ row_fits flows.now row available) }
    ensures ranges { IfOk result (λ made. made.ranges ≡ row_ranges flows.now row available) }
    ensures frag { IfOk result (λ made. StandsFor pool.new made.frag
        (piece_in_stack flows.now row available (Some (height_of flows.now row available)))) }
    ensures depth { I.depth inner.new ≡ I.depth inner.old }
    ensures engine { I.is_true inner.new flows.now book.new pool.new }
    ensures book { BookAfter flows.now book.old book.new }
    ensures uses { OnOk result (uses_in book.new
        ≡ after_uses flows.now (uses_in book.old) (row_uses flows.now row available)) }
    ensures grown { Grows pool.old pool.new }
{
    if row_at(flows, row).auto {
        filled_row(alloc, inner, flows, row, available, book, pool)
    } else {
        balanced_row(alloc, inner, flows, row, available, book, pool)
    }
}
