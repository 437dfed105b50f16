//! The lines of a tree.

use mc_base::{Rect, Token};

/// What a line of a tree is of: a stack; a piece of a row, from a place in it on; a column of a piece of a row, counted from
/// 0; a piece of a box, and whether the box starts and ends in it; a line of text of a box; a void or an image of a box; or an
/// atom of a flow file.
#[derive(Drop)]
pub enum TreeKind {
    Stack {
        stack: u32,
    },
    Row {
        row: u32,
        from: Token,
    },
    Col {
        index: u32,
    },
    Piece {
        owner: u32,
        starts: bool,
        ends: bool,
    },
    Line {
        owner: u32,
        index: u32,
    },
    Void {
        owner: u32,
    },
    Image {
        owner: u32,
    },
    Atom {
        item: u32,
    },
}

/// A line of a tree: how deep it stands, what it is of, and its rectangle from the document's top left, in units.
#[derive(Drop)]
pub struct TreeLine {
    pub depth: u32,
    pub kind: TreeKind,
    pub rect: Rect,
}
