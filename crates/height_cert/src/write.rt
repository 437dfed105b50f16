//! The text of a certificate.

ghost use Rattle.std.specs.Prelude.{◌≡◌, ℕ, [], ◌∷◌, ◌++◌, codes, drop, length, map, IfOk, OnOk};
ghost use Rattle.std.specs.Fmt.{decimal};
ghost use Rattle.std.specs.List.{flat_map};
ghost use Rattle.height_cert.specs.Certs.{cert_texts, cited, column_count, first_cites, given_entries, given_ranges, head_of};
ghost use Rattle.height_cert.specs.Certs.{ranges_in};
ghost use Rattle.result_laws.specs.Given.{cited_text, ended_lines, entry_texts, fits_text, head_words, range_texts};
ghost use Rattle.flow_list.specs.ResultText.{line_words, number_or_dash, reason_words};

use crate::cert::{Cert, CertEntry, Cites};
use crate::words::{
    put_end, put_number, put_number_or_dash, put_numbers, put_place, put_reason, put_stop, put_word,
};
use flow_list::{ColLine, Range};
use mc_base::{NoMemory, Text};
use std::alloc::Global;

/// The sizes of the first list, or none where there is no list.
fn first_sizes(cites: &[Cites]) -> &[u64]
    ensures { result.now ≡ first_cites cites.now }
{
    match cites.first() {
        Some(first) => first.sizes.as_slice(),
        None => &[],
    }
}

/// The lists after these many.
fn after(cites: &[Cites], count: usize) -> &[Cites]
    ensures { result.now ≡ drop count cites.now }
{
    if count < cites.len() {
        return &cites[count..];
    }
    &[]
}

/// Adds a column line with the sizes that it cites.
fn put_column(alloc: Global, out: &mut Text, line: &ColLine, sizes: &[u64]) -> Result<(), NoMemory>
    ensures { OnOk result (out.new ≡ out.old ++ cited_text (record { line = line.now; cites = sizes.now }) ++ 10 ∷ []) }
{
    out.extend(b"col")?;
    put_number(out, line.depth as u64)?;
    put_end(alloc, out, &line.end)?;
    put_stop(out, line.stop)?;
    put_numbers(out, sizes)?;
    out.push(b'\n')?;
    Ok(())
}

/// Adds column lines, each of which cites the next list, and answers the lists after them.
fn put_columns<'a>(
    alloc: Global,
    out: &mut Text,
    lines: &[ColLine],
    cites: &'a [Cites],
) -> Result<&'a [Cites], NoMemory>
    ensures text { OnOk result (out.new ≡ out.old ++ ended_lines (map cited_text (cited cites.now lines.now))) }
    ensures rest { IfOk result (λ rest. rest.now ≡ drop (length lines.now) cites.now) }
{
    let mut rest = cites;
    for line in lines {
        put_column(alloc, out, line, first_sizes(rest))?;
        rest = after(rest, 1);
    }
    Ok(rest)
}

/// Adds the line of a range without its column lines.
fn put_bounds(alloc: Global, out: &mut Text, range: &Range) -> Result<(), NoMemory>
    ensures { OnOk result (out.new ≡ out.old
        ++ line_words (codes "range" ∷ decimal range.now.low ∷ decimal range.now.high ∷ reason_words range.now.reason)
        ++ 10 ∷ []) }
{
    out.extend(b"range")?;
    put_number(out, range.lo)?;
    put_number(out, range.hi)?;
    put_reason(alloc, out, &range.reason)?;
    out.push(b'\n')?;
    Ok(())
}

fn lines_of(range: &Range) -> &[ColLine]
    ensures { result.now ≡ range.now.lines }
{
    range.cols.as_slice()
}

/// Adds ranges with their column lines, and answers the lists after those.
fn put_ranges<'a>(
    alloc: Global,
    out: &mut Text,
    ranges: &[Range],
    cites: &'a [Cites],
) -> Result<&'a [Cites], NoMemory>
    ensures text { OnOk result ((n : ℕ) → out.new ≡ out.old
        ++ ended_lines (flat_map range_texts (given_ranges n cites.now ranges.now))) }
    ensures rest { IfOk result (λ rest. rest.now ≡ drop (column_count ranges.now) cites.now) }
{
    let mut rest = cites;
    for range in ranges {
        put_bounds(alloc, out, range)?;
        rest = put_columns(alloc, out, lines_of(range), rest)?;
    }
    Ok(rest)
}

fn fits_word(fits: bool) -> &'static [u8]
    ensures { result.now ≡ fits_text fits }
{
    if fits { b"yes" } else { b"no" }
}

/// Adds the row of an entry, what is available to it, and its height.
fn put_row(out: &mut Text, row: u32, available: Option<u64>, height: u64) -> Result<(), NoMemory>
    ensures { OnOk result (out.new ≡ ((out.old ++ 32 ∷ decimal row) ++ 32 ∷ number_or_dash available) ++ 32 ∷ decimal height) }
{
    put_number(out, row as u64)?;
    put_number_or_dash(out, available)?;
    put_number(out, height)
}

/// Adds the line of an entry without its ranges.
fn put_head(alloc: Global, out: &mut Text, entry: &CertEntry) -> Result<(), NoMemory>
    ensures { OnOk result (out.new ≡ out.old ++ line_words (head_words (head_of entry.now)) ++ 10 ∷ []) }
{
    match entry {
        CertEntry::Size(size) => {
            out.extend(b"size")?;
            put_number(out, size.row as u64)?;
            put_place(alloc, out, &size.from)?;
            put_number(out, size.height)?;
        }
        CertEntry::Row {
            row,
            available,
            height,
            fits,
            ..
        } => {
            out.extend(b"row")?;
            put_row(out, *row, *available, *height)?;
            put_word(out, fits_word(*fits))?;
        }
        CertEntry::Auto {
            row,
            available,
            height,
        } => {
            out.extend(b"auto")?;
            put_row(out, *row, *available, *height)?;
        }
    }
    out.push(b'\n')?;
    Ok(())
}

fn ranges_of(entry: &CertEntry) -> &[Range]
    ensures { result.now ≡ ranges_in entry.now }
{
    match entry {
        CertEntry::Size(size) => size.ranges.as_slice(),
        CertEntry::Row { ranges, .. } => ranges.as_slice(),
        CertEntry::Auto { .. } => &[],
    }
}

/// Adds entries with their ranges, of which the column lines cite these lists.
fn put_entries(
    alloc: Global,
    out: &mut Text,
    entries: &[CertEntry],
    cites: &[Cites],
) -> Result<(), NoMemory>
    ensures { OnOk result ((n : ℕ) → out.new ≡ out.old
        ++ ended_lines (flat_map entry_texts (given_entries n cites.now entries.now))) }
{
    let mut rest = cites;
    for entry in entries {
        put_head(alloc, out, entry)?;
        rest = put_ranges(alloc, out, ranges_of(entry), rest)?;
    }
    Ok(())
}

/// The text of a certificate in the second format: its lines from `cert` to `end`, each with its line feed. A column line for
/// which the certificate has no list of sizes is written without numbers, and further lists aren't written. The error is out of
/// memory.
pub fn write_cert(alloc: Global, cert: &Cert) -> Result<Text, NoMemory>
    ensures { IfOk result (λ text. text ≡ ended_lines (cert_texts cert.now)) }
{
    let mut out = Text::new(alloc);
    out.extend(b"cert\n")?;
    put_entries(
        alloc,
        &mut out,
        cert.entries.as_slice(),
        cert.cites.as_slice(),
    )?;
    out.extend(b"end\n")?;
    Ok(out)
}
