//! The rows directly in stacks, one after another by their numbers.

ghost use Rattle.std.specs.Prelude.{◌≡◌, ◌<◌, ◌++◌, [], IfOk, IfSome, List, None, OnOk, get_or, length};
ghost use Rattle.flow_list.specs.Book.{after_uses};
ghost use Rattle.flow_list.specs.Certificate.{StackRow, book_behind, book_of, row_uses, rows_in_stacks};
ghost use Rattle.flow_list.specs.Entries.{uses_in};
ghost use Rattle.flow_list.specs.RowHeights.{row_height as height_of};
ghost use Rattle.frag_pool.specs.Growing.{Grows};
ghost use Rattle.frag_pool.specs.Nodes.{SameTrial};
ghost use Rattle.inner_rows.specs.TrueBook.{AreTrue, BookAfter};
ghost use Rattle.container_layout.specs.Found.{HasFound, HasStanding, IsStanding, row_found, row_standing, rows_of_stacks};
ghost use Rattle.container_layout.specs.Laid.{AreLaidAfter, IsLaidRow};

use crate::find::Found;
use crate::rows::make_row;
use flow_list::{Book, Flows, LaidRow, flow_counts, row_at};
use frag_pool::Pool;
use inner_rows::InnerRows;
use mc_base::{FragId, List, NoMemory, Units};
use std::alloc::Global;

/// A row directly in a stack as it stands there: the height that is available to it, none where that is unlimited, its own
/// height, in units, and a piece of it at the top with that height.
#[derive(Clone, Copy)]
pub struct Stands {
    pub available: Option<Units>,
    pub height: Units,
    pub frag: FragId,
}

/// The rows directly in stacks, laid out in document order, and each under its number.
#[derive(Drop)]
pub struct RowsLaid {
    pub rows: List<LaidRow>,
    pub stand: Vec<Option<Stands>>,
}

/// Lays a row directly in a stack out. Its fragment is a kept one.
fn kept_row<I: InnerRows>(
    alloc: Global,
    inner: &mut I,
    flows: &Flows,
    row: u32,
    available: Option<Units>,
    book: &mut Book,
    pool: &mut Pool,
) -> Result<LaidRow, NoMemory>
    requires row { row < length flows.now.rows }
    requires depth { I.depth inner.old ≡ 2 }
    requires engine { I.is_true inner.old flows.now book.old pool.old }
    requires book { AreTrue flows.now book.old }
    ensures laid { IfOk result (IsLaidRow flows.now pool.new (record { row = row; available = available })) }
    ensures before { IfOk result (λ laid. laid.before ≡ length (uses_in book.new)) }
    ensures depth { I.depth inner.new ≡ I.depth inner.old }
    ensures engine { I.is_true inner.new flows.now book.new pool.new }
    ensures book { BookAfter flows.now book.old book.new }
    ensures uses { OnOk result (uses_in book.new
        ≡ after_uses flows.now (uses_in book.old) (row_uses flows.now row available)) }
    ensures grown { Grows pool.old pool.new }
{
    let made = make_row(alloc, inner, flows, row, available, book, pool)?;
    let frag = pool.promote(made.frag)?;
    Ok(LaidRow {
        row,
        available,
        height: made.height,
        auto: row_at(flows, row).auto,
        fits: made.fits,
        ranges: made.ranges,
        frag,
        before: book.count(),
    })
}

/// Lays a row directly in a stack out, and gives up the trial nodes that this took.
fn lay_row<I: InnerRows>(
    alloc: Global,
    inner: &mut I,
    flows: &Flows,
    row: u32,
    available: Option<Units>,
    book: &mut Book,
    pool: &mut Pool,
) -> Result<LaidRow, NoMemory>
    requires row { row < length flows.now.rows }
    requires depth { I.depth inner.old ≡ 2 }
    requires engine { I.is_true inner.old flows.now book.old pool.old }
    requires book { AreTrue flows.now book.old }
    ensures laid { IfOk result (IsLaidRow flows.now pool.new (record { row = row; available = available })) }
    ensures before { IfOk result (λ laid. laid.before ≡ length (uses_in book.new)) }
    ensures depth { I.depth inner.new ≡ I.depth inner.old }
    ensures engine { I.is_true inner.new flows.now book.new pool.new }
    ensures book { BookAfter flows.now book.old book.new }
    ensures uses { OnOk result (uses_in book.new
        ≡ after_uses flows.now (uses_in book.old) (row_uses flows.now row available)) }
    ensures pool { SameTrial pool.old pool.new }
{
    let mark = pool.mark();
    let laid = kept_row(alloc, inner, flows, row, available, book, pool);
    pool.release(&mark);
    laid
}

/// The height of a row directly in a stack. What is made of it is given up.
pub fn row_height<I: InnerRows>(
    alloc: Global,
    inner: &mut I,
    flows: &Flows,
    row: u32,
    available: Option<Units>,
    book: &mut Book,
    pool: &mut Pool,
) -> Result<Units, NoMemory>
    requires row { row < length flows.now.rows }
    requires depth { I.depth inner.old ≡ 2 }
    requires engine { I.is_true inner.old flows.now book.old pool.old }
    requires book { AreTrue flows.now book.old }
    ensures height { IfOk result (λ height. height ≡ height_of flows.now row available) }
    ensures depth { I.depth inner.new ≡ I.depth inner.old }
    ensures engine { I.is_true inner.new flows.now book.new pool.new }
    ensures book { BookAfter flows.now book.old book.new }
    ensures pool { SameTrial pool.old pool.new }
{
    let mark = pool.mark();
    let made = make_row(alloc, inner, flows, row, available, book, pool);
    pool.release(&mark);
    Ok(made?.height)
}

/// Lays the row of a number out, where one was found, and adds it to the rows.
fn lay_number<I: InnerRows>(
    alloc: Global,
    inner: &mut I,
    flows: &Flows,
    number: u32,
    found: Option<Found>,
    rows: &mut List<LaidRow>,
    book: &mut Book,
    pool: &mut Pool,
) -> Result<Option<Stands>, NoMemory>
    requires row { number < length flows.now.rows }
    requires depth { I.depth inner.old ≡ 2 }
    requires engine { I.is_true inner.old flows.now book.old pool.old }
    requires book { AreTrue flows.now book.old }
    ensures rows { (before : List StackRow) → uses_in book.old ≡ book_behind flows.now [] before →
        AreLaidAfter flows.now pool.old [] before rows.old →
        OnOk result (AreLaidAfter flows.now pool.new [] (before ++ row_found number found) rows.new) }
    ensures same { IfOk result (λ stands. row_standing number stands ≡ row_found number found) }
    ensures stands { IfOk result (λ stands. IfSome stands (IsStanding flows.now pool.new number)) }
    ensures depth { I.depth inner.new ≡ I.depth inner.old }
    ensures engine { I.is_true inner.new flows.now book.new pool.new }
    ensures book { BookAfter flows.now book.old book.new }
    ensures uses { OnOk result (uses_in book.new ≡ book_behind flows.now (uses_in book.old) (row_found number found)) }
    ensures pool { SameTrial pool.old pool.new }
{
    let Some(found) = found else {
        return Ok(None);
    };
    let available = found.available;
    let laid = lay_row(alloc, inner, flows, number, available, book, pool)?;
    let stands = Stands {
        available,
        height: laid.height,
        frag: laid.frag,
    };
    rows.push(laid)?;
    Ok(Some(stands))
}

/// What was found under a number.
fn found_at(found: &[Option<Found>], number: u32) -> Option<Found>
    requires { number < length found.now }
    ensures { result ≡ get_or found.now number None }
{
    found[number as usize]
}

/// Lays all rows directly in stacks out, which were found by their numbers.
pub fn lay_rows<I: InnerRows>(
    alloc: Global,
    inner: &mut I,
    flows: &Flows,
    found: &[Option<Found>],
    book: &mut Book,
    pool: &mut Pool,
) -> Result<RowsLaid, NoMemory>
    requires found { HasFound flows.now (rows_of_stacks flows.now (length flows.now.stacks)) found.now }
    requires depth { I.depth inner.old ≡ 2 }
    requires engine { I.is_true inner.old flows.now book.old pool.old }
    requires book { book.old ≡ [] }
    ensures rows { IfOk result (λ laid. AreLaidAfter flows.now pool.new [] (rows_in_stacks flows.now) laid.rows) }
    ensures stand { IfOk result (λ laid.
        HasStanding flows.now pool.new (rows_of_stacks flows.now (length flows.now.stacks)) laid.stand.items) }
    ensures count { IfOk result (λ laid. length laid.stand.items ≡ length flows.now.rows) }
    ensures book { AreTrue flows.now book.new }
    ensures uses { OnOk result (uses_in book.new ≡ book_of flows.now) }
    ensures pool { SameTrial pool.old pool.new }
{
    let mut rows = List::new(alloc);
    let mut stand = Vec::new(alloc);
    let count = flow_counts(flows).rows;
    for number in 0..count {
        let stands = lay_number(
            alloc,
            inner,
            flows,
            number,
            found_at(found, number),
            &mut rows,
            book,
            pool,
        )?;
        stand.push(stands)?;
    }
    Ok(RowsLaid { rows, stand })
}
