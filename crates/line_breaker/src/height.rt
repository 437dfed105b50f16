//! How high a line is.

ghost use Rattle.std.specs.Prelude.{◌≡◌, ◌≤◌, ◌<◌, ◌^◌, ◌+◌, pos, ◌+ℤ◌, ◌≤ℤ◌, neg_ℤ, length};
ghost use Rattle.std.specs.List.{All};
ghost use Rattle.std.specs.Int.{int_max, int_div_euclid};
ghost use Rattle.inline_text.specs.WhiteSpace.{HasStyle};
ghost use Rattle.line_breaker.specs.Lines.{IsStyle, IsMeasurable};
ghost use Rattle.line_breaker.specs.Measures as measures;

use font_table::Fonts;
use inline_text::{Piece, RunStyle};
use mc_base::Units;

/// What stands above the baseline and below it, in units. Either may lie on the other side, and is negative then.
#[derive(Clone, Copy)]
pub struct Extent {
    pub above: i64,
    pub below: i64,
    ghost above_low: { neg_ℤ (pos (2 ^ 32)) ≤ℤ above },
    ghost above_high: { above ≤ℤ pos (2 ^ 61 + 2 ^ 32) },
    ghost below_low: { neg_ℤ (pos (2 ^ 32)) ≤ℤ below },
    ghost below_high: { below ≤ℤ pos (2 ^ 61 + 2 ^ 32) },
    ghost whole: { pos 0 ≤ℤ (above +ℤ below) },
}

/// Half of a length, rounded down.
fn half(length: i64) -> i64
    ensures value { result ≡ int_div_euclid length (pos 2) }
    ensures least { (result +ℤ result) ≤ℤ length }
    ensures most { length ≤ℤ (result +ℤ result +ℤ pos 1) }
{
    length.div_euclid(2)
}

/// The extent of a text in this style.
pub fn extent_of(fonts: &Fonts, style: &RunStyle) -> Extent
    requires { IsStyle fonts.now style.now }
    ensures above { result.above ≡ measures.above_of fonts.now style.now }
    ensures below { result.below ≡ measures.below_of fonts.now style.now }
{
    let ascent = fonts.ascent(style.face, style.size) as i64;
    let descent = fonts.descent(style.face, style.size) as i64;
    let line = style.line as i64;
    let above = ascent + half(line - ascent - descent);
    Extent {
        above,
        below: line - above,
    }
}

fn joined(extent: Extent, other: Extent) -> Extent
    ensures above { result.above ≡ int_max extent.above other.above }
    ensures below { result.below ≡ int_max extent.below other.below }
{
    Extent {
        above: extent.above.max(other.above),
        below: extent.below.max(other.below),
    }
}

fn with_image(extent: Extent, h: Units) -> Extent
    requires { h ≤ 2 ^ 24 }
    ensures above { result.above ≡ int_max extent.above (pos h) }
    ensures below { result.below ≡ int_max extent.below (pos 0) }
{
    Extent {
        above: extent.above.max(h as i64),
        below: extent.below.max(0),
    }
}

/// The extent with a piece.
fn with_piece(extent: Extent, styles: &[RunStyle], fonts: &Fonts, piece: &Piece) -> Extent
    requires styles { All (IsStyle fonts.now) styles.now }
    requires named { HasStyle styles.now piece.now }
    requires measurable { IsMeasurable piece.now }
    ensures above { result.above ≡ measures.above_with styles.now fonts.now extent.above piece.now }
    ensures below { result.below ≡ measures.below_with styles.now fonts.now extent.below piece.now }
{
    match *piece {
        Piece::Char { style, .. } => joined(extent, extent_of(fonts, &styles[style as usize])),
        Piece::Image { h, .. } => with_image(extent, h),
        Piece::Forced | Piece::Chance => extent,
    }
}

/// The height of a line of these pieces, beside a strut.
pub fn line_height(strut: Extent, styles: &[RunStyle], fonts: &Fonts, pieces: &[Piece]) -> Units
    requires styles { All (IsStyle fonts.now) styles.now }
    requires named { All (HasStyle styles.now) pieces.now }
    requires measurable { All IsMeasurable pieces.now }
    ensures { pos result ≡ measures.greatest_above styles.now fonts.now strut.above pieces.now +ℤ measures.greatest_below
        styles.now fonts.now strut.below pieces.now }
{
    let mut extent = strut;
    for piece in pieces {
        extent = with_piece(extent, styles, fonts, piece);
    }
    (extent.above + extent.below) as u64
}
