//! The containing blocks of boxes.

ghost use Rattle.std.specs.Prelude.{◌≡◌, ℕ, ◌+◌, ◌*◌, ◌≤◌, ◌<◌, ◌^◌, if◌then◌else◌};
ghost use Rattle.box_data.specs.Bounds.{IsShort};
ghost use Rattle.box_data.specs.Widths as widths;
ghost use Rattle.box_places.specs.Parts as parts;
ghost use Rattle.box_places.specs.Bounds.{IsWithin, IsFrame, IsFramed, IsLow};
ghost use Rattle.box_places.specs.Passes as passes;

use crate::lengths::used_sides;
use box_data::{BoxKind, BoxStyle, Length, Placed, SideAmounts};
use mc_base::Units;

/// A containing block (CSS 2.1, section 10.1) in units: where it begins from the left of the flow and how wide it is; the same
/// of what spans the columns of the container around; and whether there is one, and a spanner between.
#[derive(Clone, Copy)]
pub struct ContainingBlock {
    pub x: Units,
    pub w: Units,
    pub span_x: Units,
    pub span_w: Units,
    pub in_container: bool,
    pub in_spanner: bool,
}

/// A box with this style in its containing block, which begins at `x` and is `whole` wide; its used padding; and whether it
/// spans columns.
#[derive(Clone, Copy)]
pub struct Frame {
    pub style: BoxStyle,
    pub spans: bool,
    pub x: Units,
    pub whole: Units,
    pub padding: SideAmounts,
}

/// The block that holds all boxes of a document.
pub fn outermost(width: Units) -> ContainingBlock
    requires { width < 2 ^ 60 }
    ensures value { result ≡ parts.block_of (widths.outermost width) }
    ensures within { (reach : ℕ) → IsWithin reach result }
{
    ContainingBlock {
        x: 0,
        w: width,
        span_x: 0,
        span_w: width,
        in_container: false,
        in_spanner: false,
    }
}

/// A box in its containing block.
pub fn framed(style: BoxStyle, around: &ContainingBlock) -> Frame
    requires short { IsShort style }
    requires small { IsWithin (2 ^ 60) around.now }
    ensures value { result ≡ parts.frame_in style (parts.place_of around.now) }
    ensures within { (reach : ℕ) → IsWithin reach around.now → IsFrame reach result }
{
    let spans = style.span_all && around.in_container && !around.in_spanner;
    let (x, whole) = if spans {
        (around.span_x, around.span_w)
    } else {
        (around.x, around.w)
    };
    Frame {
        style,
        spans,
        x,
        whole,
        padding: used_sides(&style.padding, whole),
    }
}

/// Border and padding, left and right.
pub fn edges(frame: &Frame) -> Units
    requires { IsFrame (2 ^ 60) frame.now }
    ensures value { result ≡ parts.edges_of frame.now }
    ensures most { result ≤ 2 ^ 63 + 2 ^ 26 }
{
    frame.style.border.left + frame.padding.left + frame.padding.right + frame.style.border.right
}

/// What `border-box` takes off a width.
pub fn less_across(frame: &Frame) -> Units
    requires { IsFrame (2 ^ 60) frame.now }
    ensures { result ≡ parts.less_across frame.now }
{
    if frame.style.border_box {
        edges(frame)
    } else {
        0
    }
}

/// What `border-box` takes off a height.
pub fn less_down(frame: &Frame) -> Units
    requires { IsFrame (2 ^ 60) frame.now }
    ensures { result ≡ parts.less_down frame.now }
{
    if frame.style.border_box {
        frame.style.border.top
            + frame.padding.top
            + frame.padding.bottom
            + frame.style.border.bottom
    } else {
        0
    }
}

/// Where what spans the columns of a container begins: in the stack of one with a height, else in the flow around.
fn span_x(place: &Placed) -> Units
    ensures { result ≡ (if widths.is_bounded place.now then 0 else place.now.content_x) }
{
    match place.style.height {
        Length::Units(_) => 0,
        Length::Auto | Length::Percent(_) => place.content_x,
    }
}

/// The containing block of the boxes in a box.
#[tactic(auto, unfolding(crate::specs::Passes::inside))]
pub fn inside(place: &Placed, around: &ContainingBlock) -> ContainingBlock
    ensures value { result ≡ passes.inside place.now around.now }
    ensures within { (reach : ℕ) → IsWithin reach around.now → IsFramed reach place.now → IsLow place.now
        → IsWithin (reach + 3 * 2 ^ 24) result }
{
    match place.kind {
        BoxKind::Container => ContainingBlock {
            x: 0,
            w: place.columns.w,
            span_x: span_x(place),
            span_w: place.w,
            in_container: true,
            in_spanner: false,
        },
        BoxKind::Block | BoxKind::Anonymous | BoxKind::ImageBlock => ContainingBlock {
            x: place.content_x,
            w: place.w,
            in_spanner: around.in_spanner || place.spans,
            ..*around
        },
    }
}
