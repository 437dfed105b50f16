//! Rows at their least heights, and rows within rows.
//!
//! It stands on inner_rows, kept_fills, frag_pool and frag_maker, on column_row, range_finder and atom_needs, and on the laws of
//! flow_list's definitions.
//! `least` promises the least height at which a row fits, or what is available where that is less, with the ranges of all lesser
//! heights and why each doesn't fit, the fragment, and the sizes that these rest on in the book; also how often columns are made
//! and items are read for it at most. `Rows` is an engine of rows one deeper than the engine that it is made over, and promises
//! to keep the law of `InnerRows` where that one does; `two_deep` is the one of rows of which at most two stand one inside
//! another.
#![tactic(auto)]

mod balancing;
mod first;
mod rows;
mod search;
mod standing;
mod trial;

pub use balancing::{Balanced, least};
pub use rows::{Rows, two_deep};
