//! The lines of lowered pieces.

ghost use Rattle.std.specs.Prelude.{◌≡◌, [], ◌∷◌, ◌++◌, ◌<◌, None, codes, length, IfOk, IfSome, OnOk};
ghost use Rattle.std.specs.Fmt.{decimal};
ghost use Rattle.flow_list.specs.ResultText.{line_words};
ghost use Rattle.flow_list.specs.TreeText.{spaced, token_text};
ghost use Rattle.piece_data.specs.LoweredText.{unfit_words};
ghost use Rattle.piece_finder.specs.Telling.{told_reason};
ghost use Rattle.all_writer.specs.PieceText.{piece_text, pieces_text, range_text, ranges_text};

use crate::words::{put_number, put_place, put_word};
use mc_base::{List, NoMemory, Text};
use piece_finder::{PieceRange, PieceReason};
use row_all::PieceLine;
use std::alloc::Global;

/// Adds the words of a reason.
fn put_reason(alloc: Global, out: &mut Text, reason: &PieceReason) -> Result<(), NoMemory>
    ensures { OnOk result (out.new ≡ out.old ++ spaced (unfit_words (told_reason reason.now))) }
{
    match reason {
        PieceReason::Over => put_word(out, b"over"),
        PieceReason::Worse => put_word(out, b"worse"),
        PieceReason::Other { at } => {
            put_word(out, b"other")?;
            put_place(alloc, out, at)
        }
    }
}

/// Adds the line of a range.
fn put_range(alloc: Global, out: &mut Text, range: &PieceRange) -> Result<(), NoMemory>
    ensures { OnOk result (out.new ≡ out.old ++ range_text range.now) }
{
    out.extend(b"range")?;
    put_number(out, range.lo)?;
    put_number(out, range.hi)?;
    put_reason(alloc, out, &range.reason)?;
    out.push(b'\n')?;
    Ok(())
}

/// Adds the lines of ranges.
fn put_ranges(alloc: Global, out: &mut Text, ranges: &[PieceRange]) -> Result<(), NoMemory>
    ensures { OnOk result (out.new ≡ out.old ++ ranges_text ranges.now) }
{
    for range in ranges {
        put_range(alloc, out, range)?;
    }
    Ok(())
}

/// Adds the line of a piece without its ranges: the height that it is cut at, and its least height.
fn put_heights(alloc: Global, out: &mut Text, piece: &PieceLine) -> Result<(), NoMemory>
    ensures { OnOk result (out.new ≡ out.old
        ++ line_words (codes "piece" ∷ decimal piece.now.row ∷ token_text piece.now.from ∷ decimal piece.now.height
        ∷ decimal piece.now.out.height ∷ []) ++ 10 ∷ []) }
{
    out.extend(b"piece")?;
    put_number(out, piece.row as u64)?;
    put_place(alloc, out, &piece.from)?;
    put_number(out, piece.height)?;
    put_number(out, piece.out.height)?;
    out.push(b'\n')?;
    Ok(())
}

/// Adds the lines of a piece.
fn put_piece(alloc: Global, out: &mut Text, piece: &PieceLine) -> Result<(), NoMemory>
    ensures { OnOk result (out.new ≡ out.old ++ piece_text piece.now) }
{
    put_heights(alloc, out, piece)?;
    put_ranges(alloc, out, piece.out.ranges.as_slice())
}

/// The lines of pieces after `front`, or None where both have more than `most` bytes. It puts no piece after the first that
/// doesn't fit.
pub fn write_pieces(
    alloc: Global,
    pieces: &List<PieceLine>,
    front: Text,
    most: u64,
) -> Result<Option<Text>, NoMemory>
    ensures text { IfOk result (λ found. IfSome found (λ text. text ≡ front ++ pieces_text pieces.now)) }
    ensures long { IfOk result (λ found. found ≡ None → most < length (front ++ pieces_text pieces.now)) }
{
    let mut text = front;
    for piece in pieces.as_slice() {
        put_piece(alloc, &mut text, piece)?;
        if text.len() as u64 > most {
            return Ok(None);
        }
    }
    Ok(Some(text))
}
