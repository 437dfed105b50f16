//! Where what is laid in a column stands: margins that adjoin collapse to gaps, and what stands in a gap gets its place where the
//! gap ends.
//!
//! It stands on mc_base, flow_data, flow_list and frag_maker. It promises the places that the definitions of flow_list give, and
//! that the rows are those that were laid, in order.
#![tactic(auto)]

mod placing;

pub use placing::{FlatRow, Placing, Waiting};
