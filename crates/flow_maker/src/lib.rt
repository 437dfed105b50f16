//! Making flows of what stands in a document.
//!
//! It stands on the data of boxes and flows and on the levels of seams. `make_flows` is proved to return the flows, rows and
//! stacks that the definitions of box_data say of a content.
#![tactic(auto)]

mod edges;
mod item;
mod making;
mod open_flow;
mod parts;
mod seam;

pub use making::make_flows;
