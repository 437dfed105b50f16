//! Lexemes outside brackets.

ghost use Rattle.std.specs.Prelude.{◌≡◌, ◌+◌, ◌^◌, ◌<◌, ◌≤◌, length};
ghost use Rattle.css_tokens.specs.Facts as facts;
ghost use Rattle.css_tokens.specs.Stops.{stops_at};

use crate::facts::{closer_of, is_closer, is_delim};
use crate::lexeme::Lexeme;

/// Where a part of a list ends: at this character, or at what ends the prelude of an at-rule.
#[derive(Clone, Copy)]
pub enum Stop {
    At(char),
    Prelude,
}

fn stops(stop: Stop, lexeme: &Lexeme) -> bool
    ensures { result ≡ stops_at stop lexeme.now }
{
    match stop {
        Stop::At(character) => is_delim(lexeme, character),
        Stop::Prelude => is_delim(lexeme, '{') || is_delim(lexeme, ';'),
    }
}

/// How many brackets are open after a lexeme, where so many are before it.
fn deeper(depth: usize, lexeme: &Lexeme) -> usize
    requires { depth < 2 ^ 63 }
    ensures depth { result ≡ facts.deeper depth lexeme.now }
    ensures small { result ≤ depth + 1 }
{
    if closer_of(lexeme).is_some() {
        return depth + 1;
    }
    if is_closer(lexeme) {
        return depth.saturating_sub(1);
    }
    depth
}

/// How many lexemes stand before the first that ends a part, outside brackets.
pub fn front_len(stop: Stop, lexemes: &[Lexeme]) -> usize
    ensures count { result ≡ facts.front_len (stops_at stop) 0 lexemes.now }
    ensures within { result ≤ length lexemes.now }
{
    let mut depth = 0;
    for (i, lexeme) in lexemes.iter().enumerate() {
        if depth == 0 && stops(stop, lexeme) {
            return i;
        }
        depth = deeper(depth, lexeme);
    }
    lexemes.len()
}
