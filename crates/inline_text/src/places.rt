//! The break opportunities of a run.

ghost use Rattle.std.specs.Prelude.{◌≡◌, ℕ, ◌+◌, ◌<◌, [], ◌&&◌, ◌||◌, IfOk, length, slice_get};
ghost use Rattle.inline_text.specs.Opportunities.{
  begins_with_image,
  begins_with_letter,
  is_image,
  letter_or,
  lets_break,
  opportunities_behind,
  opportunity_at,
  wrap_or,
};

use crate::content::{Piece, RunStyle, Runs};
use crate::styles::{hyphenates, keeps_white_space, wraps};
use mc_base::NoMemory;
use std::alloc::Global;

/// Where the lines of a collapsed run may break (CSS Text 3, section 5): for each piece, whether the place directly after
/// it is a break opportunity.
///
/// Where the style of the nearest character or image before a place allows wrapping, it is one after a collapsed space,
/// U+200B, a soft hyphen whose style lets it, `-` between two ASCII letters, a `wbr` or an image, and before an image.
pub fn opportunities(alloc: Global, runs: &Runs) -> Result<Vec<bool>, NoMemory>
    ensures list { IfOk result
        (λ found. found.items ≡ opportunities_behind runs.now.styles [] runs.now.pieces) }
    ensures places { IfOk result
        (λ found. (k : ℕ) → k < length runs.now.pieces → slice_get found.items k ≡ Some (opportunity_at runs.now (k + 1))) }
{
    let styles = runs.styles.as_slice();
    let mut found = Vec::new(alloc);
    let mut wraps = false;
    let mut letter = false;
    let mut rest = runs.pieces.as_slice();
    while let Some((piece, after)) = rest.split_first() {
        wraps = wraps_or(styles, piece, wraps);
        found.push(wraps && is_behind_or_before(styles, piece, letter, after))?;
        letter = is_letter_or(piece, letter);
        rest = after;
    }
    Ok(found)
}

/// Whether a piece or the one after it makes the place between them an opportunity; `letter` says whether a letter stands
/// before the piece.
fn is_behind_or_before(styles: &[RunStyle], piece: &Piece, letter: bool, after: &[Piece]) -> bool
    ensures { result
        ≡ (lets_break styles.now piece.now (letter && begins_with_letter after.now) || begins_with_image after.now) }
{
    makes_opportunity(styles, piece, letter, after) || is_before_image(after)
}

/// Whether a piece makes the place after it an opportunity; `letter` says whether a letter stands before the piece.
fn makes_opportunity(styles: &[RunStyle], piece: &Piece, letter: bool, after: &[Piece]) -> bool
    ensures { result ≡ lets_break styles.now piece.now (letter && begins_with_letter after.now) }
{
    match *piece {
        Piece::Char { ch, style } => match ch {
            ' ' => !keeps_white_space(styles, style),
            '\u{200b}' => true,
            '\u{ad}' => hyphenates(styles, style),
            '-' => letter && is_before_letter(after),
            _ => false,
        },
        Piece::Image { .. } | Piece::Chance => true,
        Piece::Forced => false,
    }
}

/// Whether the nearest piece, each `wbr` looked through, is an ASCII letter.
fn is_before_letter(after: &[Piece]) -> bool
    ensures { result ≡ begins_with_letter after.now }
{
    for piece in after {
        match *piece {
            Piece::Char { ch, .. } => return ch.is_ascii_alphabetic(),
            Piece::Image { .. } | Piece::Forced => return false,
            Piece::Chance => {}
        }
    }
    false
}

/// Whether the first piece is an image.
fn is_before_image(after: &[Piece]) -> bool
    ensures { result ≡ begins_with_image after.now }
{
    matches!(after.first(), Some(Piece::Image { .. }))
}

/// Whether the nearest piece before is an ASCII letter: this one, or else what stands before it.
fn is_letter_or(piece: &Piece, beyond: bool) -> bool
    ensures { result ≡ letter_or piece.now beyond }
{
    match *piece {
        Piece::Char { ch, .. } => ch.is_ascii_alphabetic(),
        Piece::Image { .. } | Piece::Forced => false,
        Piece::Chance => beyond,
    }
}

/// Whether the style of the nearest character or image allows wrapping: of this piece, or else of what stands before it.
fn wraps_or(styles: &[RunStyle], piece: &Piece, beyond: bool) -> bool
    ensures { result ≡ wrap_or styles.now piece.now beyond }
{
    match *piece {
        Piece::Char { style, .. } | Piece::Image { style, .. } => wraps(styles, style),
        Piece::Forced | Piece::Chance => beyond,
    }
}
