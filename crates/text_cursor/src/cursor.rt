//! What is left of a text, character by character.

use html_grammar::Place;
use std::marker::Model;

/// What is left of a text, which contracts see as its characters with their places. CR LF and CR are a line feed.
#[derive(Drop)]
pub struct Cursor<'a> {
    rest: &'a str,
    at: usize,
}

impl<'a> Model for Cursor<'a> {
    ghost use Rattle.std.specs.Prelude.{◌+◌, ◌^◌, ◌<◌, List, length, chars, false};
    ghost use Rattle.html_grammar.specs.declared.place.Place.{Place};
    ghost use Rattle.html_grammar.specs.Places.{places};

    ghost Value = { List Place };

    ghost view = { λ c. places false c.at (chars c.rest.now) };

    ghost invariant = { λ c. c.at + length c.rest.now < 2 ^ 60 };
}

impl<'a> Cursor<'a> {
    ghost use Rattle.std.specs.Prelude.{◌≡◌, ◌^◌, ◌<◌, [], length, chars};
    ghost use Rattle.html_grammar.specs.Places.{places_of, first, behind_first};

    /// All of a text. A byte order mark at its start is skipped.
    pub fn new(text: &'a str) -> Self
        requires { length text.now < 2 ^ 60 }
        ensures { result ≡ places_of (chars text.now) }
    {
        let Some((first, rest)) = split_first(text) else {
            return Cursor { rest: text, at: 0 };
        };
        if first == '\u{feff}' {
            return Cursor { rest, at: 3 };
        }
        Cursor { rest: text, at: 0 }
    }

    /// Nothing at all.
    pub fn nothing() -> Self
        ensures { result ≡ [] }
    {
        Cursor { rest: "", at: 0 }
    }

    /// The next character.
    pub fn peek(&self) -> Option<Place>
        ensures { result ≡ first self.now }
    {
        place_at(self.rest, self.at)
    }

    /// Goes past the next character.
    pub fn bump(&mut self)
        ensures { self.new ≡ behind_first self.old }
    {
        let (rest, at) = behind(self.rest, self.at);
        self.rest = rest;
        self.at = at;
    }

    /// The same place again.
    pub fn fork(&self) -> Cursor<'a>
        ensures { result ≡ self.now }
    {
        Cursor {
            rest: self.rest,
            at: self.at,
        }
    }
}

ghost use Rattle.std.specs.Prelude.{◌≡◌, ◌+◌, ◌^◌, ◌<◌, ◌≤◌, [], ◌∷◌, length, chars, false, MatchOption, IfSome};
ghost use Rattle.std.specs.Char.{len_utf8};
ghost use Rattle.html_grammar.specs.Places.{places, first, behind_first};

/// The first character of a text, and what stands after it.
fn split_first(text: &str) -> Option<(char, &str)>
    ensures value { MatchOption result (chars text.now ≡ [])
        (λ x. chars text.now ≡ x.0 ∷ chars x.1.now) }
    ensures len { IfSome result (λ x. length text.now ≡ len_utf8 x.0 + length x.1.now) }
{
    let mut chars = text.chars();
    let first = chars.next()?;
    Some((first, chars.as_str()))
}

fn place_at(rest: &str, at: usize) -> Option<Place>
    ensures { result ≡ first (places false at (chars rest.now)) }
{
    let (first, _) = split_first(rest)?;
    let character = if first == '\r' { '\n' } else { first };
    Some(Place {
        at: at as u64,
        character,
    })
}

fn behind(rest: &str, at: usize) -> (&str, usize)
    requires { at + length rest.now < 2 ^ 60 }
    ensures bound { result.1 + length result.0.now < 2 ^ 60 }
    ensures places { places false result.1 (chars result.0.now)
        ≡ behind_first (places false at (chars rest.now)) }
{
    let Some((first, behind)) = split_first(rest) else {
        return (rest, at);
    };
    if first != '\r' {
        return (behind, at + first.len_utf8());
    }
    let Some((second, after)) = split_first(behind) else {
        return (behind, at + 1);
    };
    if second != '\n' {
        return (behind, at + 1);
    }
    (after, at + 2)
}
