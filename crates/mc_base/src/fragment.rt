//! Fragments: nodes that name each other by number. What a number stands for is a plain tree (specs/PlainTree).

use crate::{List, Token, Units};

/// The number of a fragment in a region: of one that is kept, or of one of a trial, each counted from 0.
#[derive(Clone, Copy, Debug, PartialEq, Eq)]
pub enum FragId {
    Kept(u64),
    Trial(u64),
}

/// A node of a fragment tree (CSS Fragmentation 3, section 2). Places are in units, from the column's top.
///
/// A `Piece` of a box without a `bottom` continues in the next column, and a `RowPiece` without a `height` is filled: both
/// then reach to the column's end.
#[derive(Drop)]
pub enum Node {
    Atom {
        item: u32,
        y: Units,
    },
    Piece {
        owner: u32,
        starts: bool,
        y: Units,
        bottom: Option<Units>,
        kids: List<FragId>,
    },
    RowPiece {
        row: u32,
        from: Token,
        y: Units,
        height: Option<Units>,
        columns: List<FragId>,
    },
    Column {
        flow: u32,
        from: Token,
        end: Token,
        extent: Units,
        kids: List<FragId>,
    },
}
