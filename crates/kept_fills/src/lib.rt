//! Fills that are kept, so that what a row makes of a height is made once and its fragment is shared.
//!
//! It stands on mc_base, flow_list, frag_pool and inner_rows. `KeptFills` keeps at most 1,024 fills, by row, token and height.
//! It promises that what it answers is a kept fill of just that row, token and height, and that kept fills stay kept fills while
//! the book and the kept nodes of the region grow.
#![tactic(auto)]

mod copying;
mod keeping;
mod key;
mod store;

pub use copying::copy_of;
pub use keeping::keep_made;
pub use store::KeptFills;
