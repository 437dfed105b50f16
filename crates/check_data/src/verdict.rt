//! Verdicts on results.

use mc_base::Text;

/// The clauses of a valid result: those of an entry in the order of their tests, and then those of the whole result.
#[derive(Debug, Clone, Copy, PartialEq, Eq)]
pub enum Clause {
    Name,
    Twice,
    Avail,
    Hole,
    Empty,
    Same,
    Tall,
    Area,
    Cite,
    End,
    Number,
    Long,
    Reason,
    Reach,
    Height,
    Missing,
    Tree,
}

/// Whether a result is valid, or the first clause that fails: the number of the line, from 1, at which it fails, what it wants
/// there, and what stands there.
#[derive(Drop)]
pub enum Verdict {
    Yes,
    No {
        line: u64,
        clause: Clause,
        expected: Text,
        found: Text,
    },
}
