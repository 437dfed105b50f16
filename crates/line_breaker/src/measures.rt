//! How wide a piece is.

ghost use Rattle.std.specs.Prelude.{◌≡◌, ◌≤◌, ◌<◌, ◌^◌, ◌*◌, List as Items, length};
ghost use Rattle.std.specs.List.{All};
ghost use Rattle.font_table.specs.declared.fonts.Face.{Face as OneFace};
ghost use Rattle.inline_text.specs.WhiteSpace.{HasStyle};
ghost use Rattle.inline_text.specs.Opportunities as seams;
ghost use Rattle.line_breaker.specs.Lines.{IsStyle, IsMeasurable, is_content as is_content_piece};
ghost use Rattle.line_breaker.specs.Measures as measures;

use font_table::Fonts;
use inline_text::{Piece, RunStyle};
use mc_base::Units;

/// How wide a character is in a style.
pub fn advance(styles: &[RunStyle], fonts: &Fonts, ch: char, style: u32) -> Units
    requires named { style < length styles.now }
    requires styles { All (IsStyle fonts.now) styles.now }
    ensures value { result ≡ measures.advance_in (measures.style_of styles.now style) fonts.now ch }
    ensures most { result ≤ 10 * 2 ^ 24 }
{
    let style = styles[style as usize];
    fonts.advance(style.face, ch, style.size)
}

/// How wide a piece is.
pub fn width(styles: &[RunStyle], fonts: &Fonts, piece: &Piece) -> Units
    requires styles { All (IsStyle fonts.now) styles.now }
    requires named { HasStyle styles.now piece.now }
    requires measurable { IsMeasurable piece.now }
    ensures value { result ≡ measures.width_of styles.now fonts.now piece.now }
    ensures most { result ≤ 10 * 2 ^ 24 }
{
    match *piece {
        Piece::Char {
            ch: '\u{200b}' | '\u{ad}',
            ..
        } => 0,
        Piece::Char { ch, style } => advance(styles, fonts, ch, style),
        Piece::Image { w, .. } => w,
        Piece::Forced | Piece::Chance => 0,
    }
}

/// Whether a piece is a collapsed space.
fn is_collapsed_space(styles: &[RunStyle], piece: &Piece) -> bool
    ensures { result ≡ seams.is_collapsed_space styles.now piece.now }
{
    match *piece {
        Piece::Char { ch: ' ', style } => match styles.get(style as usize) {
            Some(style) => !style.keep,
            None => true,
        },
        _ => false,
    }
}

/// The width of the collapsed space that stands last, after a piece of this width.
pub fn space_behind(styles: &[RunStyle], so_far: Units, piece: &Piece, width: Units) -> Units
    ensures same { (faces : Items OneFace) → width ≡ measures.width_of styles.now faces piece.now
        → result ≡ measures.space_behind styles.now faces so_far piece.now }
    ensures most { so_far ≤ 10 * 2 ^ 24 → width ≤ 10 * 2 ^ 24 → result ≤ 10 * 2 ^ 24 }
{
    match *piece {
        Piece::Char { .. } => {
            if is_collapsed_space(styles, piece) {
                width
            } else {
                0
            }
        }
        Piece::Image { .. } => 0,
        Piece::Forced | Piece::Chance => so_far,
    }
}

/// Whether a piece is a soft hyphen that its style lets break.
fn is_soft_hyphen(styles: &[RunStyle], piece: &Piece) -> bool
    ensures { result ≡ seams.is_soft_hyphen styles.now piece.now }
{
    match *piece {
        Piece::Char {
            ch: '\u{ad}',
            style,
        } => match styles.get(style as usize) {
            Some(style) => style.hyphens,
            None => false,
        },
        _ => false,
    }
}

/// The width of the hyphen that a line has after a piece.
pub fn hyphen(styles: &[RunStyle], fonts: &Fonts, piece: &Piece) -> Units
    requires styles { All (IsStyle fonts.now) styles.now }
    requires named { HasStyle styles.now piece.now }
    ensures value { result ≡ measures.hyphen_of styles.now fonts.now piece.now }
    ensures most { result ≤ 10 * 2 ^ 24 }
{
    match *piece {
        Piece::Char { style, .. } => {
            if is_soft_hyphen(styles, piece) {
                advance(styles, fonts, '-', style)
            } else {
                0
            }
        }
        _ => 0,
    }
}

/// Whether a piece is a character or an image.
pub fn is_content(piece: &Piece) -> bool
    ensures { result ≡ is_content_piece piece.now }
{
    matches!(*piece, Piece::Char { .. } | Piece::Image { .. })
}
