//! What a flow asks of the rows that stand in it, whoever lays them out.
//!
//! It stands on mc_base, flow_data, flow_list and frag_pool. An engine of rows that keeps the law of `InnerRows` promises two
//! answers, exactly: the size of a row from a place in it on, and what the row makes of a height from there, with its
//! fragment. It enters the sizes that these use in the book, and leaves the region as its clauses say, also where it runs out
//! of memory. `NoRows` keeps the law where no row stands in the flow.
#![tactic(auto)]

mod inner;
mod no_rows;

pub use inner::{Filled, InnerRows};
pub use no_rows::NoRows;
