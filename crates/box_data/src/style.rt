//! What the style of an element says of its box.

use break_rules::BreakValue;
use mc_base::{ConstructName, Units};

/// A length as a style gives it: `Auto` (also `none` and `normal`), units, or a percentage in billionths of a per cent.
#[derive(Clone, Copy)]
pub enum Length {
    Auto,
    Units(Units),
    Percent(u64),
}

/// Whether an element has a box, and which (CSS 2.1, section 9.2): none, an inline one, or a block-level one.
#[derive(Clone, Copy)]
pub enum Display {
    Hidden,
    Inline,
    Block,
}

/// Where lines stand that are narrower than their box (CSS Text 3, section 6.1).
#[derive(Clone, Copy)]
pub enum Align {
    Left,
    Right,
    Center,
}

/// A length for each side of a box.
#[derive(Clone, Copy)]
pub struct SideLengths {
    pub top: Length,
    pub right: Length,
    pub bottom: Length,
    pub left: Length,
}

/// An amount in units for each side of a box.
#[derive(Clone, Copy)]
pub struct SideAmounts {
    pub top: Units,
    pub right: Units,
    pub bottom: Units,
    pub left: Units,
}

/// What the style of an element says of its box and of its text, but for the face of its text.
///
/// `size` and `line` are the font size and the line height in units; `wrap`, `keep` and `hyphens` say of its text what a
/// `RunStyle` says. `fill_auto` is `column-fill: auto`, `span_all` `column-span: all`, `avoid_inside` an avoiding
/// `break-inside` and `cloned` `box-decoration-break: clone`. `refused` is the first winning declaration that isn't laid out.
#[derive(Clone, Copy)]
pub struct BoxStyle {
    pub display: Display,
    pub size: Units,
    pub line: Units,
    pub wrap: bool,
    pub keep: bool,
    pub hyphens: bool,
    pub align: Align,
    pub orphans: u32,
    pub widows: u32,
    pub margin: SideLengths,
    pub border: SideAmounts,
    pub padding: SideLengths,
    pub width: Length,
    pub max_width: Length,
    pub height: Length,
    pub border_box: bool,
    pub column_count: Option<u32>,
    pub column_width: Option<Units>,
    pub column_gap: Length,
    pub fill_auto: bool,
    pub span_all: bool,
    pub break_before: BreakValue,
    pub break_after: BreakValue,
    pub avoid_inside: bool,
    pub cloned: bool,
    pub refused: Option<ConstructName>,
}
