//! A box in its place.

ghost use Rattle.std.specs.Prelude.{◌≡◌, ℕ, ◌+◌, ◌*◌, ◌≤◌, ◌<◌, ◌^◌, [], IfOk, IfSome};
ghost use Rattle.box_data.specs.Bounds.{IsShort, IsShortNode};
ghost use Rattle.box_data.specs.Widths as widths;
ghost use Rattle.col_geometry.specs.Geometry as geometry;
ghost use Rattle.box_places.specs.Parts as parts;
ghost use Rattle.box_places.specs.Bounds.{IsExtent, IsFrame, IsWithin, IsFramed, IsSize, AreShortPieces};
ghost use Rattle.box_places.specs.Passes as passes;

use crate::across::{Extent, block_extent, image_extent};
use crate::images::{attributes_of, image_size, images_in};
use crate::lengths::{resolved, used};
use crate::place::{ContainingBlock, Frame, framed, less_across, less_down};
use crate::style::style_in;
use box_data::{BoxKind, BoxNode, BoxStyle, ImageSize, Placed, SideAmounts};
use col_geometry::{Columns, used_columns};
use mc_base::{List, NoMemory, Units};
use std::alloc::Global;

/// The size of a block-level image with these attributes.
fn image_in(frame: &Frame, attributes: ImageSize) -> ImageSize
    requires frame { IsFrame (2 ^ 60) frame.now }
    requires attributes { IsSize attributes }
    ensures value { result ≡ parts.image_in frame.now attributes }
    ensures small { IsSize result }
{
    image_size(
        &frame.style,
        frame.whole,
        less_across(frame),
        less_down(frame),
        attributes,
    )
}

/// How wide a box is, and how high where that isn't by its content.
fn extent_of(frame: &Frame, kind: BoxKind, attributes: ImageSize) -> (Extent, Units)
    requires frame { IsFrame (2 ^ 60) frame.now }
    requires attributes { IsSize attributes }
    ensures across { parts.across_in result.0 ≡ parts.across_by kind frame.now attributes }
    ensures height { result.1 ≡ parts.height_by kind frame.now attributes }
    ensures small { IsExtent result.0 }
{
    match kind {
        BoxKind::Block | BoxKind::Anonymous => (block_extent(frame), 0),
        BoxKind::Container => {
            let height = used(frame.style.height, 0);
            (block_extent(frame), height.saturating_sub(less_down(frame)))
        }
        BoxKind::ImageBlock => {
            let size = image_in(frame, attributes);
            (image_extent(frame, size.w), size.h)
        }
    }
}

/// The gap between the columns of a box that is `w` wide.
fn gap_in(kind: BoxKind, style: &BoxStyle, w: Units) -> Units
    requires { IsShort style.now }
    ensures value { result ≡ widths.gap_in kind style.now w }
    ensures small { result ≤ 2 ^ 62 }
{
    match kind {
        BoxKind::Container => match resolved(style.column_gap, w) {
            None => style.size,
            Some(gap) => gap,
        },
        BoxKind::Block | BoxKind::Anonymous | BoxKind::ImageBlock => 0,
    }
}

/// The columns of a container, one where its style has neither a count nor a width.
fn columns_of(style: &BoxStyle, w: Units, gap: Units) -> Columns
    requires short { IsShort style.now }
    requires w { w ≤ 2 ^ 62 }
    requires gap { gap ≤ 2 ^ 62 }
    ensures { result ≡ geometry.used_columns w style.now.column_count style.now.column_width gap }
{
    match (style.column_count, style.column_width) {
        (None, None) => Columns {
            n: 1,
            w,
            step: w + gap,
        },
        (count, width) => used_columns(w, count, width, gap),
    }
}

/// The columns of a box that is `w` wide.
fn columns_in(kind: BoxKind, style: &BoxStyle, w: Units) -> Columns
    requires short { IsShort style.now }
    requires w { w ≤ 2 ^ 62 }
    ensures value { result ≡ widths.columns_in kind style.now w }
    ensures narrow { result.w ≤ w }
{
    match kind {
        BoxKind::Container => columns_of(style, w, gap_in(kind, style, w)),
        BoxKind::Block | BoxKind::Anonymous | BoxKind::ImageBlock => Columns { n: 1, w, step: w },
    }
}

fn margin_of(frame: &Frame, extent: &Extent) -> SideAmounts
    requires { IsFrame (2 ^ 60) frame.now }
    ensures { result ≡ parts.margin_of frame.now (parts.across_in extent.now) }
{
    SideAmounts {
        top: used(frame.style.margin.top, frame.whole),
        right: extent.after,
        bottom: used(frame.style.margin.bottom, frame.whole),
        left: extent.before,
    }
}

/// A box that is as wide as this, in its place.
fn placed_by(
    alloc: Global,
    styles: &[BoxStyle],
    node: &BoxNode,
    number: u32,
    frame: &Frame,
    extent: &Extent,
    h: Units,
) -> Result<Placed, NoMemory>
    requires frame { IsFrame (2 ^ 60) frame.now }
    requires extent { IsExtent extent.now }
    requires pieces { AreShortPieces styles.now node.now.runs }
    ensures value { IfOk result (λ p. p
        ≡ parts.placed_by styles.now node.now.parent number (parts.node_of node.now) frame.now (parts.across_in extent.now) h) }
    ensures framed { (reach : ℕ) → IsFrame reach frame.now → IfOk result (IsFramed reach) }
{
    let style = &frame.style;
    let before = style.border.left + frame.padding.left;
    let x = frame.x + extent.before;
    let columns = columns_in(node.kind, style, extent.w);
    let images = images_in(alloc, styles, node.kind, &node.runs, columns.w)?;
    Ok(Placed {
        number,
        parent: node.parent,
        element: node.element,
        kind: node.kind,
        spans: frame.spans,
        style: *style,
        margin: margin_of(frame, extent),
        padding: frame.padding,
        top: style.border.top + frame.padding.top,
        bottom: style.border.bottom + frame.padding.bottom,
        x,
        outer_w: before + extent.w + frame.padding.right + style.border.right,
        content_x: x + before,
        w: extent.w,
        h,
        gap: gap_in(node.kind, style, extent.w),
        columns,
        images,
        lines: List::new(alloc),
    })
}

/// A box in its containing block.
#[tactic(auto, unfolding(crate::specs::Passes::placed_in))]
pub fn placed_one(
    alloc: Global,
    styles: &[BoxStyle],
    node: &BoxNode,
    number: u32,
    around: &ContainingBlock,
) -> Result<Placed, NoMemory>
    requires short { IsShortNode styles.now node.now }
    requires around { IsWithin (2 ^ 60) around.now }
    ensures value { IfOk result (λ p. p ≡ passes.placed_in styles.now number node.now around.now) }
    ensures framed { (reach : ℕ) → IsWithin reach around.now → IfOk result (IsFramed reach) }
{
    let frame = framed(style_in(styles, node), around);
    let (extent, h) = extent_of(&frame, node.kind, attributes_of(&node.runs));
    placed_by(alloc, styles, node, number, &frame, &extent, h)
}
