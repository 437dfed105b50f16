//! What stands before each place of a run.

ghost use Rattle.std.specs.Prelude.{◌≡◌, ◌≤◌, ◌<◌, ◌^◌, ◌*◌, ◌+◌, length, IfOk};
ghost use Rattle.std.specs.List.{All};
ghost use Rattle.inline_text.specs.WhiteSpace.{HasStyle};
ghost use Rattle.line_breaker.specs.Lines.{IsStyle, IsMeasurable};
ghost use Rattle.line_breaker.specs.Arrays as arrays;
ghost use Rattle.line_breaker.specs.Arrays.{IsSmall};

use crate::measures::{hyphen, is_content, space_behind, width};
use font_table::Fonts;
use inline_text::{Piece, RunStyle};
use mc_base::{NoMemory, Units};
use std::alloc::Global;

/// What stands before a place: how wide all pieces before it are, how wide the collapsed space is that stands last, the
/// hyphen of the piece directly before it, and how many characters and images there are.
#[derive(Clone, Copy)]
pub struct Place {
    pub before: Units,
    pub space: Units,
    pub hyphen: Units,
    pub contents: usize,
}

fn place_after(styles: &[RunStyle], fonts: &Fonts, place: Place, piece: &Piece) -> Place
    requires styles { All (IsStyle fonts.now) styles.now }
    requires named { HasStyle styles.now piece.now }
    requires measurable { IsMeasurable piece.now }
    requires before { place.before < 2 ^ 62 }
    requires space { place.space ≤ 10 * 2 ^ 24 }
    requires contents { place.contents < 2 ^ 32 }
    ensures value { result ≡ arrays.place_after styles.now fonts.now place piece.now }
    ensures before { result.before ≤ place.before + 10 * 2 ^ 24 }
    ensures space { result.space ≤ 10 * 2 ^ 24 }
    ensures hyphen { result.hyphen ≤ 10 * 2 ^ 24 }
    ensures contents { result.contents ≤ place.contents + 1 }
{
    let width = width(styles, fonts, piece);
    Place {
        before: place.before + width,
        space: space_behind(styles, place.space, piece, width),
        hyphen: hyphen(styles, fonts, piece),
        contents: if is_content(piece) {
            place.contents + 1
        } else {
            place.contents
        },
    }
}

/// The places of a run, one more than its pieces.
pub fn places(
    alloc: Global,
    styles: &[RunStyle],
    fonts: &Fonts,
    pieces: &[Piece],
) -> Result<Vec<Place>, NoMemory>
    requires styles { All (IsStyle fonts.now) styles.now }
    requires named { All (HasStyle styles.now) pieces.now }
    requires measurable { All IsMeasurable pieces.now }
    requires few { length pieces.now < 2 ^ 32 }
    ensures value { IfOk result (λ found. found.items ≡ arrays.places_from styles.now fonts.now arrays.start pieces.now) }
    ensures small { IfOk result (λ found. All IsSmall found.items) }
{
    let mut found = Vec::new(alloc);
    let mut place = Place {
        before: 0,
        space: 0,
        hyphen: 0,
        contents: 0,
    };
    for piece in pieces {
        found.push(place)?;
        place = place_after(styles, fonts, place, piece);
    }
    found.push(place)?;
    Ok(found)
}
