//! Why reading ends early.

use html_grammar::Fault;

/// Out of memory, or a fault of the grammar.
pub type ReadError = mc_base::ReadError<Fault>;
