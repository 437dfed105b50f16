//! Copies of ranges and of what they hold.

ghost use Rattle.std.specs.Prelude.{◌≡◌, IfOk};

use flow_list::{ColLine, Range, Reason, SizeEntry};
use mc_base::{List, NoMemory, Token};
use std::alloc::Global;

fn copy_end(end: &Option<Token>) -> Option<Token>
    ensures { result ≡ end.now }
{
    match end {
        Some(token) => Some(token.copy()),
        None => None,
    }
}

fn copy_line(line: &ColLine) -> ColLine
    ensures { result ≡ line.now }
{
    ColLine {
        depth: line.depth,
        end: copy_end(&line.end),
        stop: line.stop,
    }
}

fn copy_lines(alloc: Global, lines: &[ColLine]) -> Result<List<ColLine>, NoMemory>
    ensures { IfOk result (λ copies. copies ≡ lines.now) }
{
    let mut copies = List::new(alloc);
    for line in lines {
        copies.push(copy_line(line))?;
    }
    Ok(copies)
}

fn copy_reason(reason: &Reason) -> Reason
    ensures { result ≡ reason.now }
{
    match reason {
        Reason::Tall { item } => Reason::Tall { item: *item },
        Reason::Area => Reason::Area,
        Reason::Left { at } => Reason::Left { at: at.copy() },
        Reason::Bad { column } => Reason::Bad { column: *column },
        Reason::Over { column } => Reason::Over { column: *column },
    }
}

fn copy_range(alloc: Global, range: &Range) -> Result<Range, NoMemory>
    ensures { IfOk result (λ copy. copy ≡ range.now) }
{
    Ok(Range {
        lo: range.lo,
        hi: range.hi,
        reason: copy_reason(&range.reason),
        cols: copy_lines(alloc, range.cols.as_slice())?,
    })
}

/// The same ranges once more.
pub fn copy_ranges(alloc: Global, ranges: &[Range]) -> Result<List<Range>, NoMemory>
    ensures { IfOk result (λ copies. copies ≡ ranges.now) }
{
    let mut copies = List::new(alloc);
    for range in ranges {
        copies.push(copy_range(alloc, range)?)?;
    }
    Ok(copies)
}

/// The same entry once more.
pub fn copy_entry(alloc: Global, entry: &SizeEntry) -> Result<SizeEntry, NoMemory>
    ensures { IfOk result (λ copy. copy ≡ entry.now) }
{
    Ok(SizeEntry {
        row: entry.row,
        from: entry.from.copy(),
        height: entry.height,
        ranges: copy_ranges(alloc, entry.ranges.as_slice())?,
    })
}
