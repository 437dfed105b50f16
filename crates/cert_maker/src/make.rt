//! The certificate of a layout.

ghost use Rattle.std.specs.Prelude.{◌≡◌, ◌-◌, ◌<◌, ◌≤◌, ◌∷◌, ◌++◌, [], All, drop, flat_map, length, map, take, IfOk, OnOk};
ghost use Rattle.flow_list.specs.declared.laid.LaidRow.{LaidRow as Row};
ghost use Rattle.flow_list.specs.Certificate.{Use};
ghost use Rattle.flow_list.specs.Entries.{uses_in};
ghost use Rattle.height_cert.specs.declared.cert.CertEntry.TheVariants.{Size};
ghost use Rattle.cert_laws.specs.Made.{BeforesRise, cert_made, entries_made, entry_cites, entry_of_row};

use crate::cite::cite_ranges;
use crate::copy::{copy_entry, copy_ranges};
use flow_list::{Book, Flows, Laid, LaidRow, SizeEntry};
use height_cert::{Cert, CertEntry, Cites};
use mc_base::{List, NoMemory, Token};
use std::alloc::Global;

/// Adds the entry of a size, and what its column lines cite.
fn put_size(
    alloc: Global,
    flows: &Flows,
    book: &Book,
    entry: &SizeEntry,
    entries: &mut List<CertEntry>,
    cites: &mut List<Cites>,
) -> Result<(), NoMemory>
    requires { entry.now.row < length flows.now.rows }
    ensures entries { OnOk result (entries.new ≡ entries.old ++ Size entry.now ∷ []) }
    ensures cites { OnOk result (cites.new ≡ cites.old ++ entry_cites flows.now book.now (Size entry.now)) }
{
    cite_ranges(
        alloc,
        flows,
        book,
        entry.row,
        &entry.from,
        entry.ranges.as_slice(),
        cites,
    )?;
    entries.push(CertEntry::Size(copy_entry(alloc, entry)?))?;
    Ok(())
}

/// Adds the entries of the sizes from one number up to another, and what their column lines cite.
#[tactic(auto, using(crate::proofs::Entries::entry_rules))]
fn put_sizes(
    alloc: Global,
    flows: &Flows,
    book: &Book,
    from: u64,
    to: u64,
    entries: &mut List<CertEntry>,
    cites: &mut List<Cites>,
) -> Result<(), NoMemory>
    requires from { from ≤ to }
    requires to { to ≤ length book.now }
    requires known { All (λ (u : Use). u.0 < length flows.now.rows) (uses_in book.now) }
    ensures entries { OnOk result (entries.new ≡ entries.old ++ map Size (take (to - from) (drop from book.now))) }
    ensures cites { OnOk result (cites.new ≡ cites.old ++ flat_map (entry_cites flows.now book.now)
        (map Size (take (to - from) (drop from book.now)))) }
{
    for i in from..to {
        put_size(alloc, flows, book, book.at(i), entries, cites)?;
    }
    Ok(())
}

/// The entry of a row directly in a stack.
fn row_entry(alloc: Global, row: &LaidRow) -> Result<CertEntry, NoMemory>
    ensures { IfOk result (λ e. e ≡ entry_of_row row.now) }
{
    if row.auto {
        return Ok(CertEntry::Auto {
            row: row.row,
            available: row.available,
            height: row.height,
        });
    }
    Ok(CertEntry::Row {
        row: row.row,
        available: row.available,
        height: row.height,
        fits: row.fits,
        ranges: copy_ranges(alloc, row.ranges.as_slice())?,
    })
}

/// Adds the entry of a row directly in a stack, and what its column lines cite.
fn put_row(
    alloc: Global,
    flows: &Flows,
    book: &Book,
    row: &LaidRow,
    entries: &mut List<CertEntry>,
    cites: &mut List<Cites>,
) -> Result<(), NoMemory>
    requires { row.now.row < length flows.now.rows }
    ensures entries { OnOk result (entries.new ≡ entries.old ++ entry_of_row row.now ∷ []) }
    ensures cites { OnOk result (cites.new ≡ cites.old ++ entry_cites flows.now book.now (entry_of_row row.now)) }
{
    if !row.auto {
        let start = Token::start(alloc, 0);
        cite_ranges(
            alloc,
            flows,
            book,
            row.row,
            &start,
            row.ranges.as_slice(),
            cites,
        )?;
    }
    entries.push(row_entry(alloc, row)?)?;
    Ok(())
}

/// Adds the entries of these rows, and before each those of the sizes that no row before it has before it; and what their column
/// lines cite.
#[tactic(auto, using(crate::proofs::Entries::entry_rules))]
fn put_rows(
    alloc: Global,
    flows: &Flows,
    book: &Book,
    rows: &[LaidRow],
    entries: &mut List<CertEntry>,
    cites: &mut List<Cites>,
) -> Result<(), NoMemory>
    requires before { BeforesRise (length book.now) 0 rows.now }
    requires sizes { All (λ (u : Use). u.0 < length flows.now.rows) (uses_in book.now) }
    requires rows { All (λ (r : Row). r.row < length flows.now.rows) rows.now }
    ensures entries { OnOk result (entries.new ≡ entries.old ++ entries_made book.now 0 rows.now) }
    ensures cites { OnOk result (cites.new ≡ cites.old ++ flat_map (entry_cites flows.now book.now)
        (entries_made book.now 0 rows.now)) }
{
    let mut from = 0;
    for row in rows {
        put_sizes(alloc, flows, book, from, row.before, entries, cites)?;
        put_row(alloc, flows, book, row, entries, cites)?;
        from = row.before;
    }
    Ok(())
}

/// The certificate of a layout: the entries of its rows directly in stacks, and before each those of the sizes that no row before
/// it has before it; and for each column line the numbers of the sizes that it rests on, how many entries of sizes stand before
/// each. Entries of the book after those before the last row are left out, and so are all where there is no row. The numbers of
/// entries before the rows don't fall, and none is above the book's count. Heights are in units of 1/64 px. The error is out of
/// memory.
pub fn cert_of(alloc: Global, flows: &Flows, book: &Book, laid: &Laid) -> Result<Cert, NoMemory>
    requires before { BeforesRise (length book.now) 0 laid.now.rows }
    requires sizes { All (λ (u : Use). u.0 < length flows.now.rows) (uses_in book.now) }
    requires rows { All (λ (r : Row). r.row < length flows.now.rows) laid.now.rows }
    ensures { IfOk result (λ cert. cert ≡ cert_made flows.now book.now laid.now.rows) }
{
    let mut entries = List::new(alloc);
    let mut cites = List::new(alloc);
    let rows = laid.rows.as_slice();
    put_rows(alloc, flows, book, rows, &mut entries, &mut cites)?;
    Ok(Cert { entries, cites })
}
