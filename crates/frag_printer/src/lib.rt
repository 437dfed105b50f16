//! The tree of a layout as text: a line for each stack, row, column, box and item, with its rectangle.
//!
//! It stands on mc_base, flow_list, frag_pool, tree_lines and tree_laws. It lays out nothing: it prints the fragments that a
//! layout's ids name. It promises the text of the flows' tree, or tells that it has more bytes than a limit.
#![tactic(auto)]

mod write;

pub use write::{write_tree, write_tree_within};
