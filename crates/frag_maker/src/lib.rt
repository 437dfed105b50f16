//! The fragments of what stands in a column: pieces of boxes with what stands in them, atoms, and pieces of rows.
//!
//! It stands on mc_base, flow_data, flow_list and frag_pool. It promises that the fragments that it adds to a region stand for
//! the trees that the definitions of flow_list make of what is placed.
#![tactic(auto)]

mod build;
mod placed;

pub use build::{add_node, build_all, ids_in};
pub use placed::{MadeRow, Placed};
