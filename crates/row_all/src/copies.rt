//! Copies of what was laid out.

ghost use Rattle.std.specs.Prelude.{◌≡◌, ◌++◌, ◌∷◌, [], IfOk, OnOk};

use crate::answer::PieceLine;
use flow_list::{ColLine, LaidRow, Range, Reason};
use mc_base::{List, NoMemory, Token};
use piece_finder::{PieceOut, PieceRange, PieceReason};
use std::alloc::Global;

/// A copy of the place where a column ends, if it has one.
fn end_of(end: &Option<Token>) -> Option<Token>
    ensures { result ≡ end.now }
{
    match end {
        None => None,
        Some(end) => Some(end.copy()),
    }
}

/// A copy of column lines.
fn lines_of(alloc: Global, lines: &[ColLine]) -> Result<List<ColLine>, NoMemory>
    ensures { IfOk result (λ copy. copy ≡ lines.now) }
{
    let mut copy = List::new(alloc);
    for line in lines {
        copy.push(ColLine {
            depth: line.depth,
            end: end_of(&line.end),
            stop: line.stop,
        })?;
    }
    Ok(copy)
}

/// A copy of the reason of a range.
fn reason_of(reason: &Reason) -> Reason
    ensures { result ≡ reason.now }
{
    match reason {
        Reason::Tall { item } => Reason::Tall { item: *item },
        Reason::Area => Reason::Area,
        Reason::Left { at } => Reason::Left { at: at.copy() },
        Reason::Bad { column } => Reason::Bad { column: *column },
        Reason::Over { column } => Reason::Over { column: *column },
    }
}

/// A copy of ranges.
fn ranges_of(alloc: Global, ranges: &[Range]) -> Result<List<Range>, NoMemory>
    ensures { IfOk result (λ copy. copy ≡ ranges.now) }
{
    let mut copy = List::new(alloc);
    for range in ranges {
        copy.push(Range {
            lo: range.lo,
            hi: range.hi,
            reason: reason_of(&range.reason),
            cols: lines_of(alloc, range.cols.as_slice())?,
        })?;
    }
    Ok(copy)
}

/// A copy of rows that were laid out.
pub fn rows_of(alloc: Global, rows: &[LaidRow]) -> Result<List<LaidRow>, NoMemory>
    ensures { IfOk result (λ copy. copy ≡ rows.now) }
{
    let mut copy = List::new(alloc);
    for row in rows {
        copy.push(LaidRow {
            row: row.row,
            available: row.available,
            height: row.height,
            auto: row.auto,
            fits: row.fits,
            ranges: ranges_of(alloc, row.ranges.as_slice())?,
            frag: row.frag,
            before: row.before,
        })?;
    }
    Ok(copy)
}

/// A copy of why a height won't do.
fn piece_reason_of(reason: &PieceReason) -> PieceReason
    ensures { result ≡ reason.now }
{
    match reason {
        PieceReason::Over => PieceReason::Over,
        PieceReason::Worse => PieceReason::Worse,
        PieceReason::Other { at } => PieceReason::Other { at: at.copy() },
    }
}

/// A copy of the ranges of a piece.
fn piece_ranges_of(alloc: Global, ranges: &[PieceRange]) -> Result<List<PieceRange>, NoMemory>
    ensures { IfOk result (λ copy. copy ≡ ranges.now) }
{
    let mut copy = List::new(alloc);
    for range in ranges {
        copy.push(PieceRange {
            lo: range.lo,
            hi: range.hi,
            reason: piece_reason_of(&range.reason),
        })?;
    }
    Ok(copy)
}

/// A copy of a piece that was lowered, with the same fragment.
pub fn line_of(alloc: Global, line: &PieceLine) -> Result<PieceLine, NoMemory>
    ensures { IfOk result (λ copy. copy ≡ line.now) }
{
    let out = PieceOut {
        height: line.out.height,
        ranges: piece_ranges_of(alloc, line.out.ranges.as_slice())?,
        frag: line.out.frag,
    };
    Ok(PieceLine {
        row: line.row,
        from: line.from.copy(),
        height: line.height,
        out,
    })
}
