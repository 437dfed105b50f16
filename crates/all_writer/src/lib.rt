//! The text of a layout whose flagged pieces of rows are as low as they can be: the lines of its tree, and for each such
//! piece its least height and why no lesser height will do.
//!
//! It stands on mc_base, flow_list, frag_pool, tree_lines, lowered_laws, piece_data, piece_finder and row_all. It lays out
//! nothing: it prints what row_all answers. `write_all` promises the lines that piece_data gives the flows, each with its line
//! feed, or tells that they have more bytes than a limit.
#![tactic(auto)]

mod pieces;
mod tree;
mod whole;
mod words;

pub use whole::write_all;
