//! Sealed flows, the flows that a flow file says, and the definitions of columns and heights.
//!
//! It stands on mc_base, flow_text and flow_data, whose types and test of soundness it hands on. The files of `specs/` say
//! what the layout is: strips, columns, heights that fit, row heights. Every flow file is read as sealed flows: `read_flow`
//! promises the flows that the file says, or its first fault or limit. All that is sealed is sound. Each look promises
//! which part of the data it answers, and a look at an item is counted. A `Book` of sizes promises to find each entry that was
//! entered and its number, and keeps them in order; it hands an entry back where there is no memory for it.
#![tactic(auto)]

mod book;
mod build;
mod flows;
mod laid;
mod place;
mod range;
mod read;
mod tally;

pub use book::{Book, SizeEntry};
pub use flow_data::{
    AtomKind, Bound, BoxInfo, Edge, Flow, FlowsData, Item, RowInfo, Seam, Stack, sound,
};
pub use flows::{
    FlowCounts, Flows, box_at, flow_counts, item_at, item_count, opened_in, row_at, seam_at,
    stack_at,
};
pub use laid::{Laid, LaidRow, LaidStack};
pub use range::{ColLine, Range, Reason};
pub use read::read_flow;
pub use tally::{Counts, Tally};
