//! Lines that are kept from one layout of a document to the next, so that only runs that changed are broken anew.
//!
//! It stands on box_lines for the law of what breaks lines, on line_breaker and inline_text for runs and their lines, and on
//! font_table. A `KeptLines` keeps the lines of each run, width and block container's style of the last document, and drops what
//! the next one didn't use. It promises that what it answers are the lines of just that run, as `break_lines` makes them, and
//! counts the runs that it gives to `break_lines`.
#![tactic(auto)]

mod alike;
mod keeping;
mod liner;
mod place;
mod run;
mod store;
#[cfg(test)]
mod tests;

pub use keeping::KeptLines;
