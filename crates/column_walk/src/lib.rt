//! Where a column of a flow ends, over any rows that stand in it.
//!
//! It stands on flow_list, column_strip and inner_rows. `decide` promises all that the definition of a column says at a place and
//! a height: where it ends and at which level of break, whether it overflows and how far it reaches, how far above its height it
//! may change, and how it came to be. It reads items from the place on alone, asks the rows among them for their sizes, fills the
//! one that it stops at, and enters in the book what that uses, in order. It makes no fragments: it tells which row is filled.
#![tactic(auto)]

mod deciding;
mod endings;
mod lines;
mod rows;
mod stopping;
#[cfg(test)]
mod tests;

pub use deciding::{Decision, FilledRow, decide};
