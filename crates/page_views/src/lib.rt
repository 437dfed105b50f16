//! What a command shows of flows that are laid out, but their whole tree: the lines at a point, a drawing with column rules, and
//! counts of the layout.
//!
//! It stands on mc_base, flow_data, flow_list, frag_pool and container_layout for the layout, on tree_laws and tree_lines for its
//! lines, and on hit_index and mc_draw. It promises the text that `specs/Views.antt` says of the flows' tree, or refuses one that
//! has more bytes than a result may have.
#![tactic(auto)]

mod drawing;
mod limit;
mod lines;
mod point;
mod summary;

pub use drawing::draw_result;
pub use limit::{TEXT_LIMIT, too_long};
pub use point::hit_result;
pub use summary::summary_result;
