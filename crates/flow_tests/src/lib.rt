//! Tests of the crates from the outside to the tree of a layout, for what no command reaches.
//!
//! It stands on the crates that it calls, which so are proved once, and without their tests. What a command can show is a
//! line of the file `cases` of mc_cases instead. Each public call that can answer out of memory, and that no such line
//! reaches, is reached here with ample memory, and its answer compared with one from outside.
//!
//! The tables are constants, and each test goes over one by a function that says nothing of its result: so no proof looks
//! into a table, nor at what the contracts say of texts that are known.
#![tactic(auto)]

#[cfg(test)]
mod calls;
#[cfg(test)]
mod data;
#[cfg(test)]
mod engine;
#[cfg(test)]
mod far;
#[cfg(test)]
mod memory;
#[cfg(test)]
mod places;
#[cfg(test)]
mod shared;
