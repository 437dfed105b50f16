//! A column of a flow, from a place on and at a height, over any rows that stand in it.
//!
//! It stands on mc_base, flow_data, flow_list, range_laws, frag_pool, inner_rows, column_walk, which decides where a column
//! ends, and column_maker, which makes the fragment of a column that was decided. `column` promises both: all that the
//! definition of a column says of its end, and the fragment that it stands for. It tells which sizes are entered in the book, and
//! how often items are read at most.
#![tactic(auto)]

mod making;

pub use making::{ColumnOut, column};
