//! What the atoms of a row need alone in a column.
//!
//! It stands on mc_base, flow_list and column_strip. It promises the greatest need of the atoms from a place on after an
//! unforced break, and the first of them that has it. Each item from the place on is read once.
#![tactic(auto)]

mod loose;
mod tallest;

pub use tallest::{Tallest, tallest_atom};
