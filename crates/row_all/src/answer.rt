//! What is answered of a layout.

use flow_list::Laid;
use mc_base::{List, Token, Units};
use piece_finder::PieceOut;

/// A cut piece of a flagged row: the row, where the piece begins, the height in units that it is cut at, and its least height.
#[derive(Drop)]
pub struct PieceLine {
    pub row: u32,
    pub from: Token,
    pub height: Units,
    pub out: PieceOut,
}

/// A layout whose flagged pieces are lowered, and these pieces in the order of its tree.
#[derive(Drop)]
pub struct AllOut {
    pub laid: Laid,
    pub pieces: List<PieceLine>,
}
