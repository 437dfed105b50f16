//! Where a run is kept: a number made of what it says, by which it is found. Runs that say the same have one place. Another run
//! may have it too: then the later one is kept.

use inline_text::{Piece, RunStyle, Runs};
use mc_base::Units;

const FACTOR: u64 = 0x517c_c1b7_2722_0a95;

/// A number mixed into another.
fn mixed(place: u64, number: u64) -> u64 {
    (place.rotate_left(5) ^ number).wrapping_mul(FACTOR)
}

fn with_style(place: u64, style: Option<&RunStyle>) -> u64 {
    match style {
        None => place,
        Some(style) => mixed(
            mixed(place, u64::from(style.face)),
            style.size ^ style.line.rotate_left(32),
        ),
    }
}

fn with_piece(place: u64, piece: Piece, styles: &[RunStyle]) -> u64 {
    match piece {
        Piece::Char { ch, style } => with_style(
            mixed(place, u64::from(ch)),
            styles.get(style as usize),
        ),
        Piece::Image { w, h, style } => {
            with_style(mixed(mixed(place, w), h), styles.get(style as usize))
        }
        Piece::Forced => mixed(place, 1),
        Piece::Chance => mixed(place, 2),
    }
}

/// The place of a run, with its width in units and the number of its block container's style.
pub fn place_of(runs: &Runs, width: Units, strut: u32) -> u64 {
    let styles = runs.styles.as_slice();
    let mut place = with_style(mixed(0, width), styles.get(strut as usize));
    for piece in runs.pieces.as_slice() {
        place = with_piece(place, *piece, styles);
    }
    place
}
