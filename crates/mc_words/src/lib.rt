//! The words of the command line.
//!
//! It stands on clap, which reads the name of a command and counts its words, and on mc_base for decimals. `specs/Words.antt`
//! says which words ask for what. `read_words` is proved to answer just that command, and to refuse just the words that are none;
//! `read_session_words` is proved so of the words of a session of edits, which name no command.
#![tactic(auto)]

ghost use Rattle.std.specs.Prelude.{◌≡◌, ◌^◌, ◌<◌, None, Some, map, option_map, string_bytes, IfOk, IfErr, IfSome};
ghost use Rattle.std.specs.List.{list_all};
ghost use Rattle.mc_words.specs.Asked.{asked, session_asked, IsNarrow};
ghost use Rattle.mc_words.specs.Words as stated;
ghost use Rattle.mc_words.specs.Words.{command_of, session_of};

mod command;
mod numbers;
mod parser;
mod session;
#[cfg(test)]
mod tests;

pub use command::{Command, Page};
use parser::read_plain;
pub use session::SessionWords;
use session::plain_session;
use std::alloc::Global;

/// Why words aren't read.
#[derive(Clone, Copy, Debug, PartialEq, Eq)]
pub enum WordsFault {
    /// They aren't taken.
    Refused,
    /// Out of memory.
    NoMemory,
}

/// Whether a word isn't empty and doesn't begin with `-`.
fn is_plain(word: &str) -> bool
    ensures { result ≡ stated.is_plain word.now }
{
    match word.as_bytes() {
        [] => false,
        [first, ..] => *first != b'-',
    }
}

fn are_plain(words: &[String]) -> bool
    ensures { result ≡ list_all (λ word. stated.is_plain (string_bytes word)) words.now }
{
    words.iter().all(|word| is_plain(word.as_str()))
}

/// What the words after the program's name ask for (this project's own); lengths are in units.
///
/// The command that `specs/Words.antt` says comes with `Ok`, and `Refused` only where there is none. The other fault is out of
/// memory.
#[tactic(auto, using(crate::proofs::Taken::word_lemmas))]
pub fn read_words<'a>(alloc: Global, words: &'a [String]) -> Result<Command<'a>, WordsFault>
    ensures ok { IfOk result (λ command. command_of (map string_bytes words.now) ≡ Some (asked command)) }
    ensures narrow { IfOk result IsNarrow }
    ensures err { IfErr result (λ fault. fault ≡ WordsFault.Refused → command_of (map string_bytes words.now) ≡ None) }
{
    if !are_plain(words) {
        return Err(WordsFault::Refused);
    }
    read_plain(alloc, words)
}

/// What the words after the program's name ask for, where the program applies edits (this project's own); lengths are in units.
///
/// `None` comes just where `specs/Words.antt` says that they aren't taken. It takes no memory.
#[tactic(auto, using(crate::proofs::Taken::session_lemmas))]
pub fn read_session_words<'a>(words: &'a [String]) -> Option<SessionWords<'a>>
    ensures asked { option_map session_asked result ≡ session_of (map string_bytes words.now) }
    ensures narrow { IfSome result (λ session. session.page.width < 2 ^ 60) }
{
    if !are_plain(words) {
        return None;
    }
    plain_session(words)
}
