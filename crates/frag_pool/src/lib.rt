//! A region of fragments: nodes that name each other by number.
//!
//! It stands on mc_base. Kept nodes stay; trial nodes are given up back to a mark. It promises that what is live stays as it
//! is, that kept nodes name kept ones alone, and that a promoted fragment is equal to the one that it was made from, all
//! the way down.
#![tactic(auto)]

mod pages;
mod pool;
#[cfg(test)]
mod tests;

pub use pool::{Mark, NodeBack, Pool};
