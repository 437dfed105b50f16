//! What is left of a list of lexemes.

ghost use Rattle.std.specs.Prelude.{◌≡◌};
ghost use Rattle.css_tokens.specs.Facts as facts;

use crate::facts::{is_delim, is_space};
use crate::lexeme::Lexeme;
use std::marker::Model;

/// What is left of a list of lexemes, which contracts see as that list.
#[derive(Drop)]
pub struct Rest<'a> {
    lexemes: &'a [Lexeme],
}

impl<'a> Model for Rest<'a> {
    ghost use Rattle.std.specs.Prelude.{List};
    ghost use Rattle.css_tokens.specs.declared.lexeme.Lexeme.{Lexeme};

    ghost Value = { List Lexeme };

    ghost view = { λ r. r.lexemes.now };
}

impl<'a> Rest<'a> {
    ghost use Rattle.std.specs.Prelude.{◌≡◌, ◌≤◌, length, take, drop};
    ghost use Rattle.std.specs.Option.{option_copied};
    ghost use Rattle.css_tokens.specs.Facts as facts;

    /// All of these.
    pub fn new(lexemes: &'a [Lexeme]) -> Self
        ensures { result ≡ lexemes.now }
    {
        Rest { lexemes }
    }

    pub fn as_slice(&self) -> &'a [Lexeme]
        ensures { result.now ≡ self.now }
    {
        self.lexemes
    }

    /// The next lexeme.
    pub fn peek(&self) -> Option<&'a Lexeme>
        ensures { option_copied result ≡ facts.first self.now }
    {
        self.lexemes.first()
    }

    /// Goes past the next lexeme.
    pub fn bump(&mut self)
        ensures { self.new ≡ facts.behind_first self.old }
    {
        if let Some((_first, behind)) = self.lexemes.split_first() {
            self.lexemes = behind;
        }
    }

    /// Goes past so many lexemes, and gives them.
    pub fn take(&mut self, count: usize) -> &'a [Lexeme]
        requires { count ≤ length self.old }
        ensures front { result.now ≡ take count self.old }
        ensures rest { self.new ≡ drop count self.old }
    {
        let (front, behind) = self.lexemes.split_at(count);
        self.lexemes = behind;
        front
    }
}

/// Whether the next lexeme is this character.
pub fn begins(rest: &Rest, character: char) -> bool
    ensures { result ≡ facts.begins character rest.now }
{
    match rest.peek() {
        Some(lexeme) => is_delim(lexeme, character),
        None => false,
    }
}

/// Whether white space comes next.
pub fn begins_space(rest: &Rest) -> bool
    ensures { result ≡ facts.begins_space rest.now }
{
    match rest.peek() {
        Some(lexeme) => is_space(lexeme),
        None => false,
    }
}

/// Goes past white space.
pub fn skip_spaces(rest: &mut Rest)
    ensures { rest.new ≡ facts.behind_spaces rest.old }
{
    while let Some(lexeme) = rest.peek() {
        if !is_space(lexeme) {
            return;
        }
        rest.bump();
    }
}

/// What stands after the next lexeme.
pub fn after_first<'a>(rest: &Rest<'a>) -> Rest<'a>
    ensures { result ≡ facts.behind_first rest.now }
{
    let mut behind = Rest::new(rest.as_slice());
    behind.bump();
    behind
}
