//! The sizes that column lines cite.

ghost use Rattle.std.specs.Prelude.{◌≡◌, ◌<◌, [], ◌∷◌, ◌++◌, All, flat_map, length, map, slice_get, IfOk, IfSome, OnOk};
ghost use Rattle.cite_laws.specs.Starts.{inner_start, line_rows, next_start, rows_of_lines, rows_to_stop, starts_after};
ghost use Rattle.flow_data.specs.Flows.{flow_in, flow_of};
ghost use Rattle.flow_list.specs.Certificate.{Use};
ghost use Rattle.flow_list.specs.Entries.{uses_in};
ghost use Rattle.flow_list.specs.ResultText.{number_in};
ghost use Rattle.cert_laws.specs.Made.{as_cites, listed, range_cites};

use crate::items::{items_end, place_within, push_rows, row_of_item};
use flow_list::{Book, ColLine, Flows, Range, flow_counts, item_count, row_at};
use height_cert::Cites;
use mc_base::{List, NoMemory, Token};
use std::alloc::Global;

/// The flow of a row.
fn flow_of_row(flows: &Flows, row: u32) -> u32
    requires { row < length flows.now.rows }
    ensures flow { flow_of flows.now result ≡ flow_in flows.now row }
    ensures known { result < length flows.now.flows }
{
    // Sealed flows are sound.
    let _counts = flow_counts(flows);
    row_at(flows, row).flow
}

/// The numbers of the sizes of the rows among the items of a column of a row that begins at a place, with this stop.
#[tactic(auto, using(crate::proofs::ItemRows::item_rules))]
fn sizes_to_stop(
    alloc: Global,
    flows: &Flows,
    book: &Book,
    row: u32,
    from: &Token,
    stop: Option<u32>,
) -> Result<List<u64>, NoMemory>
    requires { row < length flows.now.rows }
    ensures { IfOk result (λ sizes. sizes ≡ map (number_in (uses_in book.now)) (rows_to_stop flows.now (row, from.now) stop)) }
{
    let mut sizes = List::new(alloc);
    let flow = flow_of_row(flows, row);
    let end = items_end(flows, flow, from.item(), stop);
    push_rows(alloc, flows, book, flow, from, end, &mut sizes)?;
    Ok(sizes)
}

/// Where the columns of the row begin that is the stop of a column, if it is one.
fn inner_of(
    alloc: Global,
    flows: &Flows,
    row: u32,
    from: &Token,
    stop: Option<u32>,
) -> Option<(u32, Token)>
    requires { row < length flows.now.rows }
    ensures start { listed result ≡ inner_start flows.now (row, from.now) stop }
    ensures known { IfSome result (λ u. u.0 < length flows.now.rows) }
{
    let stop = stop?;
    let flow = flow_of_row(flows, row);
    if stop >= item_count(flows, flow) {
        return None;
    }
    let inner = row_of_item(flows, flow, stop)?;
    if stop == from.item() {
        return Some((inner, place_within(alloc, from)));
    }
    Some((inner, Token::start(alloc, 0)))
}

/// Where the next column of a row begins after one with this end.
fn next_of(row: u32, from: &Token, end: &Option<Token>) -> (u32, Token)
    ensures { result ≡ next_start (row, from.now) end.now }
{
    match end {
        Some(end) => (row, end.copy()),
        None => (row, from.copy()),
    }
}

/// Adds where the columns begin of the row that is the stop of a column, if it is one.
fn push_inner(starts: &mut Vec<(u32, Token)>, inner: Option<(u32, Token)>) -> Result<(), NoMemory>
    ensures { OnOk result (starts.new.items ≡ starts.old.items ++ listed inner) }
{
    if let Some(inner) = inner {
        starts.push(inner)?;
    }
    Ok(())
}

/// Where the next columns of each depth begin after a line.
#[tactic(auto, using(crate::proofs::StartRows::start_rules))]
fn pass_line(
    alloc: Global,
    flows: &Flows,
    starts: &mut Vec<(u32, Token)>,
    line: &ColLine,
) -> Result<(), NoMemory>
    requires { All (λ (u : Use). u.0 < length flows.now.rows) starts.old.items }
    ensures starts { OnOk result (starts.new.items ≡ starts_after flows.now starts.old.items line.now) }
    ensures known { OnOk result (All (λ (u : Use). u.0 < length flows.now.rows) starts.new.items) }
{
    let depth = line.depth as usize;
    let Some(start) = starts.get(depth) else {
        return Ok(());
    };
    let next = next_of(start.0, &start.1, &line.end);
    let inner = inner_of(alloc, flows, start.0, &start.1, line.stop);
    starts.truncate(depth);
    starts.push(next)?;
    push_inner(starts, inner)
}

/// The sizes that a line cites, where the next columns of each depth begin so.
fn line_cites(
    alloc: Global,
    flows: &Flows,
    book: &Book,
    starts: &[(u32, Token)],
    line: &ColLine,
) -> Result<Cites, NoMemory>
    requires { All (λ (u : Use). u.0 < length flows.now.rows) starts.now }
    ensures { IfOk result (λ c. c ≡ as_cites book.now (line_rows flows.now (slice_get starts.now line.now.depth) line.now.stop)) }
{
    let Some(start) = starts.get(line.depth as usize) else {
        return Ok(Cites {
            sizes: List::new(alloc),
        });
    };
    let sizes = sizes_to_stop(alloc, flows, book, start.0, &start.1, line.stop)?;
    Ok(Cites { sizes })
}

/// Adds what the column lines of a range cite, of a row from a place on.
fn cite_lines(
    alloc: Global,
    flows: &Flows,
    book: &Book,
    row: u32,
    from: &Token,
    lines: &[ColLine],
    cites: &mut List<Cites>,
) -> Result<(), NoMemory>
    requires { row < length flows.now.rows }
    ensures { OnOk result (cites.new ≡ cites.old
        ++ map (as_cites book.now) (rows_of_lines flows.now ((row, from.now) ∷ []) lines.now)) }
{
    let mut starts = Vec::new(alloc);
    starts.push((row, from.copy()))?;
    for line in lines {
        let cited = line_cites(alloc, flows, book, starts.as_slice(), line)?;
        cites.push(cited)?;
        pass_line(alloc, flows, &mut starts, line)?;
    }
    Ok(())
}

fn lines_of(range: &Range) -> &[ColLine]
    ensures { result.now ≡ range.now.lines }
{
    range.cols.as_slice()
}

/// Adds what the column lines of these ranges cite, of a row from a place on.
pub fn cite_ranges(
    alloc: Global,
    flows: &Flows,
    book: &Book,
    row: u32,
    from: &Token,
    ranges: &[Range],
    cites: &mut List<Cites>,
) -> Result<(), NoMemory>
    requires { row < length flows.now.rows }
    ensures { OnOk result (cites.new ≡ cites.old ++ flat_map (range_cites flows.now book.now (row, from.now)) ranges.now) }
{
    for range in ranges {
        cite_lines(alloc, flows, book, row, from, lines_of(range), cites)?;
    }
    Ok(())
}
