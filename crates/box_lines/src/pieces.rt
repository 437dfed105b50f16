//! Inline content with the used sizes of its images.

ghost use Rattle.std.specs.Prelude.{◌≡◌, ◌≤◌, IfOk, drop};
ghost use Rattle.box_data.specs.Widths.{first_size};
ghost use Rattle.box_lines.specs.Sizes as words;

use box_data::ImageSize;
use inline_text::{Piece, Runs};
use mc_base::{List, NoMemory};
use std::alloc::Global;

/// The size at a place, or 0 after the last.
fn size_at(sizes: &[ImageSize], place: usize) -> ImageSize
    ensures { result ≡ first_size (drop place sizes.now) }
{
    match sizes.get(place) {
        Some(size) => *size,
        None => ImageSize { w: 0, h: 0 },
    }
}

/// A piece, with this size if it is an image.
fn resized(piece: Piece, size: ImageSize) -> Piece
    ensures { result ≡ words.resized piece size }
{
    match piece {
        Piece::Image { style, .. } => Piece::Image {
            w: size.w,
            h: size.h,
            style,
        },
        Piece::Char { .. } | Piece::Forced | Piece::Chance => piece,
    }
}

/// How many sizes a piece takes.
fn taken(piece: &Piece) -> usize
    ensures value { result ≡ words.taken piece.now }
    ensures few { result ≤ 1 }
{
    match *piece {
        Piece::Image { .. } => 1,
        Piece::Char { .. } | Piece::Forced | Piece::Chance => 0,
    }
}

/// The pieces, their images with these sizes in order.
pub fn with_sizes(
    alloc: Global,
    pieces: &[Piece],
    sizes: &[ImageSize],
) -> Result<List<Piece>, NoMemory>
    ensures { IfOk result (λ made. made ≡ words.with_sizes sizes.now pieces.now) }
{
    let mut made = List::new(alloc);
    let mut next = 0;
    for piece in pieces {
        made.push(resized(*piece, size_at(sizes, next)))?;
        next += taken(piece);
    }
    Ok(made)
}

/// The pieces of a box.
pub fn pieces_of(runs: &Option<Runs>) -> &[Piece]
    ensures { result.now ≡ words.pieces_of runs.now }
{
    match runs {
        Some(runs) => runs.pieces.as_slice(),
        None => &[],
    }
}
