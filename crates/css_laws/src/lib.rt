//! What the tokens of a style sheet are, by their forms, and the laws that tie them to the reader's functions.
//!
//! It stands on css_tokens, whose functions on lists its laws are about, and on html_grammar for the characters of a text. The
//! files of `specs/` say which characters spell which token, that the longest is taken, and which tokens are component values;
//! they name no state of a reader.
//! Each function here promises one law, does nothing, and takes no memory.
#![tactic(auto)]

ghost use Rattle.css_laws.specs.Texts as texts;

/// The tokens that are read are those that the text says: each has its form, and nothing longer at its place has one.
pub fn tokens_are_said()
    ensures { texts.TokensAreSaid }
{}

/// The tokens that a text says are read.
pub fn tokens_are_read()
    ensures { texts.TokensAreRead }
{}

/// A text says one list of tokens at most.
pub fn one_list_of_tokens()
    ensures { texts.OneListOfTokens }
{}

/// A text has no tokens exactly where it has a U+0000 or is no UTF-8, and the fault is at the first such byte.
pub fn bad_bytes_are_faults()
    ensures faults { texts.BadBytesAreFaults }
    ensures refused { texts.BadBytesAreRefused }
{}
