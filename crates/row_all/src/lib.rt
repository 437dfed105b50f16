//! A layout in which each cut piece of a flagged row is as low as it can be (`column-fill: balance-all`).
//!
//! It stands on tree_lowering for the walk over the fragments, on piece_finder for the least height of a piece, on balancer for
//! the engine of the rows, on container_layout for what a layout is, and on piece_data for what it is with its pieces lowered.
//! `layout_all` promises the fragments of the stacks with their pieces lowered, from the outermost piece inward, and the list of
//! these pieces, each with its least height and why no lesser height will do. It hands on `flags` of row_flags and `piece` of
//! piece_finder.
#![tactic(auto)]

mod answer;
mod copies;
mod engine;
mod pieces;
mod stacks;
mod whole;

pub use answer::{AllOut, PieceLine};
pub use piece_finder::{PieceOut, PieceRange, PieceReason, piece};
pub use row_flags::flags;
pub use whole::layout_all;
