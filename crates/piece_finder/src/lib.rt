//! Cut pieces of rows, each as low as it can be (`column-fill: balance-all`).
//!
//! It stands on piece_data for what a least piece is, on range_laws for how sizes are entered in the book, on inner_rows for any
//! engine that fills rows, and on flow_list, frag_maker and frag_pool. `piece` promises the least height of a piece, why no
//! lesser height will do, and its fragment at that height.
#![tactic(auto)]

mod filling;
mod lowering;
mod reasons;
mod search;
mod standing;
mod trying;

pub use lowering::{PieceOut, piece};
pub use reasons::{PieceRange, PieceReason};
