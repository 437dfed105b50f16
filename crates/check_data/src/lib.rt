//! The verdict on a result: whether it is valid, or which clause fails first, and where.
//!
//! It stands on mc_base for texts, and on result_laws, whose `specs/` say which clauses make a result valid. `specs/Telling.antt`
//! says which failure a verdict tells. `write_verdict` is proved to write just the lines of that failure, or `yes`.
#![tactic(auto)]

mod verdict;
mod writing;

pub use verdict::{Clause, Verdict};
pub use writing::write_verdict;
