//! The inline content of a block container as a list of pieces.

use font_table::FaceId;
use mc_base::{List, Units};

/// The inline content of a block container (or of an anonymous block), in document order.
///
/// The `style` of a piece is a place in `styles`, counted from 0.
#[derive(Drop)]
pub struct Runs {
    pub pieces: List<Piece>,
    pub styles: List<RunStyle>,
}

/// A piece of inline content: a character, an image with its size in units, a forced break (`br`, or a line feed that
/// is kept), or a break opportunity (`wbr`).
#[derive(Clone, Copy)]
pub enum Piece {
    Char { ch: char, style: u32 },
    Image { w: Units, h: Units, style: u32 },
    Forced,
    Chance,
}

/// What the style of a piece says of its text.
///
/// `face` is the number of its face, and `size` and `line` are its font size and line height in units. `wrap` says that
/// lines may wrap (`white-space: normal`), `keep` that white space is kept (`white-space: pre`), and `hyphens` that a
/// soft hyphen may be a break opportunity (it is false for `hyphens: none`).
#[derive(Clone, Copy)]
pub struct RunStyle {
    pub face: FaceId,
    pub size: Units,
    pub line: Units,
    pub wrap: bool,
    pub keep: bool,
    pub hyphens: bool,
}

/// What a piece is to the collapsing of white space.
///
/// `Space` is white space that collapses, `Content` another character or an image, `Break` a forced break, and
/// `Through` a break opportunity, which is looked through.
#[derive(Clone, Copy)]
pub enum Kind {
    Space,
    Content,
    Break,
    Through,
}
