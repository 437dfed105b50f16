//! The lines of a tree of fragments, and their text.
//!
//! It stands on mc_base, flow_data, flow_list and frag_pool. It lays out nothing: places come from the nodes of a region, widths
//! and owners from the flows. It promises that the lines are those that the definitions of flow_list give the trees that the
//! ids stand for, at the heights that are given, and that the text of lines is theirs.
#![tactic(auto)]

mod line;
mod place;
mod text;
mod walk;

pub use line::{TreeKind, TreeLine};
pub use text::{put_line, tree_text};
pub use walk::tree_lines;
