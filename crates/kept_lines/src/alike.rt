//! Whether a run is the one that is kept.

ghost use Rattle.std.specs.Prelude.{◌≡◌, map, Some, true};
ghost use Rattle.std.specs.Option.{option_copied, option_map};
ghost use Rattle.kept_lines.specs.Same.{SaySame, styled};

use inline_text::{Piece, RunStyle, Runs};

/// Whether two styles are the same.
fn is_style(style: &RunStyle, other: &RunStyle) -> bool
    ensures { result ≡ true → style.now ≡ other.now }
{
    style.face == other.face
        && style.size == other.size
        && style.line == other.line
        && style.wrap == other.wrap
        && style.keep == other.keep
        && style.hyphens == other.hyphens
}

/// Whether two styles are there and are the same.
fn same_style(style: Option<&RunStyle>, other: Option<&RunStyle>) -> bool
    ensures { result ≡ true → option_copied style.entry ≡ option_copied other.entry }
{
    match (style, other) {
        (Some(style), Some(other)) => is_style(style, other),
        (Some(_), None) | (None, _) => false,
    }
}

/// Whether two pieces are the same, each with its styles.
fn same_piece(piece: Piece, styles: &[RunStyle], other: Piece, others: &[RunStyle]) -> bool
    ensures { result ≡ true → styled styles.now piece ≡ styled others.now other }
{
    match (piece, other) {
        (
            Piece::Char { ch, style },
            Piece::Char {
                ch: code,
                style: number,
            },
        ) => { ch == code && same_style(styles.get(style as usize), others.get(number as usize)) }
        (
            Piece::Image { w, h, style },
            Piece::Image {
                w: width,
                h: height,
                style: number,
            },
        ) => {
            w == width
                && h == height
                && same_style(styles.get(style as usize), others.get(number as usize))
        }
        (Piece::Forced, Piece::Forced) | (Piece::Chance, Piece::Chance) => true,
        _ => false,
    }
}

/// Whether a piece is there and is the same as another, each with its styles.
fn is_piece(piece: Piece, styles: &[RunStyle], other: Option<&Piece>, others: &[RunStyle]) -> bool
    ensures { result ≡ true → option_map (styled others.now) (option_copied other.entry) ≡ Some (styled styles.now piece) }
{
    match other {
        None => false,
        Some(other) => same_piece(piece, styles, *other, others),
    }
}

/// Whether pieces are the same, each with its styles.
fn same_pieces(pieces: &[Piece], styles: &[RunStyle], others: &[Piece], more: &[RunStyle]) -> bool
    ensures { result ≡ true → map (styled styles.now) pieces.now ≡ map (styled more.now) others.now }
{
    if pieces.len() != others.len() {
        return false;
    }
    for (number, piece) in pieces.iter().enumerate() {
        if !is_piece(*piece, styles, others.get(number), more) {
            return false;
        }
    }
    true
}

/// Whether two runs say the same, and the styles of their block containers, which have these numbers, are the same.
pub fn say_same(runs: &Runs, strut: u32, other: &Runs, number: u32) -> bool
    ensures { result ≡ true → SaySame runs.now strut other.now number }
{
    let styles = runs.styles.as_slice();
    let others = other.styles.as_slice();
    same_style(styles.get(strut as usize), others.get(number as usize))
        && same_pieces(
            runs.pieces.as_slice(),
            styles,
            other.pieces.as_slice(),
            others,
        )
}
