//! Columns of a row one after another.
//!
//! It stands on block_flow, whose columns it makes one after another over any rows that stand in the flow; on column_laws,
//! range_laws and flow_laws; and on flow_list, frag_pool, frag_maker and inner_rows. `fold` promises all that is told of a row's
//! columns together, and the piece of the row that they make.
#![tactic(auto)]

mod adding;
mod folding;

pub use folding::{FoldMode, FoldOut, fold};
