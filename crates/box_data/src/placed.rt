//! A box with its used widths, in its place.

use crate::style::{BoxStyle, SideAmounts};
use crate::tree::BoxKind;
use col_geometry::Columns;
use line_breaker::Line;
use mc_base::{List, Units};

/// The used size of an image in units.
#[derive(Clone, Copy)]
pub struct ImageSize {
    pub w: Units,
    pub h: Units,
}

/// A box in its place (CSS 2.1, sections 8 and 10). All amounts are in units.
///
/// `number` is its number and `parent` that of the box around it; `element` is the number of the element whose style it has.
/// `spans` says that it spans the columns of the container around it. `margin` and `padding` are its used amounts, `top` and
/// `bottom` border and padding together. Its border box begins at `x` from the left of its flow and is `outer_w` wide; its
/// content begins at `content_x` and is `w` wide. `h` is the height of an image or of a container that has one, else 0. `gap`
/// and `columns` are those of a container. `images` are the used sizes of the images in its lines, in order, and `lines` its
/// lines.
#[derive(Drop)]
pub struct Placed {
    pub number: u32,
    pub parent: Option<u32>,
    pub element: u32,
    pub kind: BoxKind,
    pub spans: bool,
    pub style: BoxStyle,
    pub margin: SideAmounts,
    pub padding: SideAmounts,
    pub top: Units,
    pub bottom: Units,
    pub x: Units,
    pub outer_w: Units,
    pub content_x: Units,
    pub w: Units,
    pub h: Units,
    pub gap: Units,
    pub columns: Columns,
    pub images: List<ImageSize>,
    pub lines: List<Line>,
}
