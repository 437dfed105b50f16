//! Tests of the crates from texts to lines that no command reaches.
//!
//! It stands on the crates that it calls, which so are proved once, and without their tests. Each of their public calls that
//! can answer out of memory is reached here with ample memory, and its answer compared with one from outside.
//!
//! The tables are constants, and each test goes over one by a function that says nothing of its result: so no proof looks
//! into a table, nor at what the contracts say of texts that are known.
#![tactic(auto)]

#[cfg(test)]
mod break_levels;
#[cfg(test)]
mod decimals;
#[cfg(test)]
mod documents;
#[cfg(test)]
mod faces;
#[cfg(test)]
mod lines;
#[cfg(test)]
mod runs;
#[cfg(test)]
mod white_space;
