//! Reading a text.

ghost use Rattle.std.specs.Prelude.{◌≡◌, ◌++◌, ◌≤◌, ◌^◌, length, chars, option_to_list, OnOk, IfOk};
ghost use Rattle.html_grammar.specs.Places.{places_of};
ghost use Rattle.css_tokens.specs.Lexing as lex;
ghost use Rattle.css_tokens.specs.Gives.{Gives};

use crate::lexeme::{Fault, Lexeme};
use crate::symbols::piece;
use mc_base::{List, ReadError, sound_len};
use std::alloc::{AllocError, Global};
use std::str;
use text_cursor::Cursor;

fn push_piece(all: &mut List<Lexeme>, piece: Option<Lexeme>) -> Result<(), AllocError>
    ensures { OnOk result (all.new ≡ all.old ++ option_to_list piece) }
{
    if let Some(lexeme) = piece {
        all.push(lexeme)?;
    }
    Ok(())
}

/// The lexemes of characters, one after the other.
fn all_lexemes(alloc: Global, text: &str) -> Result<List<Lexeme>, AllocError>
    requires { length text.now ≤ 2 ^ 28 }
    ensures { IfOk result (λ all. all ≡ lex.lexemes_from (length text.now) (places_of (chars text.now))) }
{
    let mut cursor = Cursor::new(text);
    let mut all = List::new(alloc);
    for _ in 0..text.len() {
        let Some(_place) = cursor.peek() else {
            return Ok(all);
        };
        let next = piece(alloc, &mut cursor)?;
        push_piece(&mut all, next)?;
    }
    Ok(all)
}

/// The lexemes of a text of at most 2^28 bytes, in order (CSS Syntax 3, section 4).
///
/// A byte order mark in front is skipped, CR LF and CR are a line feed, and each lexeme stands at the byte of the text
/// where it begins. The fault is `s1`, at the first U+0000 or the first sequence that is no UTF-8.
#[tactic(auto, unfolding(crate::specs::Lexing::lexed))]
pub fn lexemes(alloc: Global, text: &[u8]) -> Result<List<Lexeme>, ReadError<Fault>>
    requires { length text.now ≤ 2 ^ 28 }
    ensures { Gives (λ all. all) result (lex.lexed text.now) }
{
    let sound = sound_len(text);
    if sound < text.len() {
        return Err(ReadError::Fault(Fault {
            at: sound as u64,
            rule: 1,
        }));
    }
    match str::from_utf8(text) {
        Ok(text) => Ok(all_lexemes(alloc, text)?),
        Err(_) => Err(ReadError::Fault(Fault {
            at: sound as u64,
            rule: 1,
        })),
    }
}
