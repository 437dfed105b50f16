//! The used sizes of images (CSS 2.1, sections 10.3.2 and 10.6.2).

ghost use Rattle.std.specs.Prelude.{◌≡◌, ◌≤◌, ◌^◌, ◌++◌, map, Bool, All, IfSome, IfOk, OnOk};
ghost use Rattle.box_data.specs.Bounds.{IsShort, IsShortPiece};
ghost use Rattle.box_data.specs.Widths as widths;
ghost use Rattle.box_places.specs.Parts as parts;
ghost use Rattle.box_places.specs.Bounds.{IsSize, AreShortPieces};

use crate::lengths::{given_height, in_ratio, less, resolved};
use crate::style::style_of;
use box_data::{BoxKind, BoxStyle, ImageSize};
use inline_text::{Piece, Runs};
use mc_base::{List, NoMemory, Units};
use std::alloc::Global;

fn or_value(length: Option<Units>, other: Units) -> Units
    requires length { IfSome length (λ u. u ≤ 2 ^ 62) }
    requires other { other ≤ 2 ^ 62 }
    ensures value { result ≡ widths.or_value length other }
    ensures small { result ≤ 2 ^ 62 }
{
    match length {
        None => other,
        Some(length) => length,
    }
}

fn lowered(most: Option<Units>, length: Units) -> Units
    requires { length ≤ 2 ^ 62 }
    ensures value { result ≡ widths.lowered most length }
    ensures small { result ≤ 2 ^ 62 }
{
    match most {
        None => length,
        Some(most) => most.min(length),
    }
}

/// The height of an image `w` wide: by the ratio of its attributes where that isn't their width.
fn by_ratio(replaced: bool, w: Units, attributes: ImageSize) -> Units
    requires { IsSize attributes }
    ensures value { result ≡ widths.by_ratio replaced w attributes.w attributes.h }
    ensures small { result ≤ 2 ^ 62 }
{
    if replaced && 0 < attributes.w {
        in_ratio(w, attributes.h, attributes.w)
    } else {
        attributes.h
    }
}

/// The size of an image by its style, its attributes and the width around it; `border-box` takes so much off across and down.
pub fn image_size(
    style: &BoxStyle,
    whole: Units,
    less_across: Units,
    less_down: Units,
    attributes: ImageSize,
) -> ImageSize
    requires short { IsShort style.now }
    requires attributes { IsSize attributes }
    ensures value { result ≡ widths.image_size style.now whole less_across less_down attributes.w attributes.h }
    ensures small { IsSize result }
{
    let given = less(less_across, resolved(style.width, whole));
    let most = less(less_across, resolved(style.max_width, whole));
    let before = or_value(given, attributes.w);
    let w = lowered(most, before);
    let replaced = given.is_some() || w < before;
    let height = given_height(style.height, less_down);
    ImageSize {
        w,
        h: or_value(height, by_ratio(replaced, w, attributes)),
    }
}

/// Adds the used size of a piece that is an image, in lines this wide.
fn add_size(
    sizes: &mut List<ImageSize>,
    styles: &[BoxStyle],
    whole: Units,
    piece: &Piece,
) -> Result<(), NoMemory>
    requires { IsShortPiece styles.now piece.now }
    ensures { OnOk result (sizes.new ≡ sizes.old ++ widths.size_in (widths.sized styles.now whole piece.now)) }
{
    if let Piece::Image { w, h, style } = *piece {
        let style = style_of(styles, style);
        sizes.push(image_size(&style, whole, 0, 0, ImageSize { w, h }))?;
    }
    Ok(())
}

/// The used sizes of the images among pieces, in order, in lines this wide.
fn image_sizes(
    alloc: Global,
    styles: &[BoxStyle],
    pieces: &[Piece],
    whole: Units,
) -> Result<List<ImageSize>, NoMemory>
    requires { All (IsShortPiece styles.now) pieces.now }
    ensures { IfOk result (λ sizes. sizes ≡ widths.sizes_in (map (widths.sized styles.now whole) pieces.now)) }
{
    let mut sizes = List::new(alloc);
    for piece in pieces {
        add_size(&mut sizes, styles, whole, piece)?;
    }
    Ok(sizes)
}

/// The used sizes of the images in a box with lines, in order.
pub fn images_in(
    alloc: Global,
    styles: &[BoxStyle],
    kind: BoxKind,
    runs: &Option<Runs>,
    whole: Units,
) -> Result<List<ImageSize>, NoMemory>
    requires { AreShortPieces styles.now runs.now }
    ensures { IfOk result (λ sizes. sizes ≡ widths.images_in kind (map (widths.sized styles.now whole) (parts.run_of runs.now))) }
{
    match (kind, runs) {
        (BoxKind::ImageBlock, _) | (_, None) => Ok(List::new(alloc)),
        (BoxKind::Block | BoxKind::Anonymous | BoxKind::Container, Some(runs)) => {
            image_sizes(alloc, styles, runs.pieces.as_slice(), whole)
        }
    }
}

/// The size of the first image among pieces, as its attributes give it.
fn first_size(pieces: &[Piece]) -> ImageSize
    ensures { result ≡ widths.first_size (widths.sizes_in pieces.now) }
{
    for piece in pieces {
        if let Piece::Image { w, h, .. } = *piece {
            return ImageSize { w, h };
        }
    }
    ImageSize { w: 0, h: 0 }
}

/// The size of the image in a box, as its attributes give it.
pub fn attributes_of(runs: &Option<Runs>) -> ImageSize
    ensures { result ≡ widths.first_size (widths.sizes_in (parts.run_of runs.now)) }
{
    match runs {
        None => ImageSize { w: 0, h: 0 },
        Some(runs) => first_size(runs.pieces.as_slice()),
    }
}
