//! The fragment of a column that was decided: its items are walked once more, and each thing in it gets its place.
//!
//! It stands on mc_base, flow_data, flow_list, frag_pool, open_boxes, frag_maker, column_places and inner_rows, and its proofs on
//! flow_laws and column_laws too. It promises what flow_list defines: what is placed in the column, and its fragment.
#![tactic(auto)]

mod begin;
mod items;
mod make;
mod place;
mod whole;

pub use make::{Decided, make_column};
pub use place::Cut;
