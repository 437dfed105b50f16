//! What is to be known of a lexeme.

ghost use Rattle.std.specs.Prelude.{◌≡◌, map};
ghost use Rattle.std.specs.Option.{option_copied};
ghost use Rattle.css_tokens.specs.Facts as facts;

use crate::lexeme::{Lexeme, Symbol};

/// The character that a lexeme is, if it stands for itself.
pub fn delim_of(lexeme: &Lexeme) -> Option<char>
    ensures { result ≡ facts.delim_of lexeme.now }
{
    match &lexeme.symbol {
        Symbol::Delim { ch } => Some(*ch),
        _ => None,
    }
}

/// Whether a lexeme is this character.
pub fn is_delim(lexeme: &Lexeme, character: char) -> bool
    ensures { result ≡ facts.is_delim character lexeme.now }
{
    match delim_of(lexeme) {
        Some(ch) => ch == character,
        None => false,
    }
}

pub fn is_space(lexeme: &Lexeme) -> bool
    ensures { result ≡ facts.is_space lexeme.now }
{
    match &lexeme.symbol {
        Symbol::Space => true,
        _ => false,
    }
}

/// The identifier that a lexeme is.
pub fn ident_of(lexeme: &Lexeme) -> Option<&[u8]>
    ensures { option_copied result ≡ facts.ident_of lexeme.now }
{
    match &lexeme.symbol {
        Symbol::Ident { text } => Some(text.as_slice()),
        _ => None,
    }
}

/// The name of a function.
pub fn function_of(lexeme: &Lexeme) -> Option<&[u8]>
    ensures { option_copied result ≡ facts.function_of lexeme.now }
{
    match &lexeme.symbol {
        Symbol::Function { name, paren: _ } => Some(name.as_slice()),
        _ => None,
    }
}

/// The name of a hash.
pub fn hash_of(lexeme: &Lexeme) -> Option<&[u8]>
    ensures { option_copied result ≡ facts.hash_of lexeme.now }
{
    match &lexeme.symbol {
        Symbol::Hash { text } => Some(text.as_slice()),
        _ => None,
    }
}

/// The text of a string or of an identifier.
pub fn word_of(lexeme: &Lexeme) -> Option<&[u8]>
    ensures { option_copied result ≡ facts.word_of lexeme.now }
{
    match &lexeme.symbol {
        Symbol::Ident { text } => Some(text.as_slice()),
        Symbol::Quoted { text } => Some(text.as_slice()),
        _ => None,
    }
}

/// The rule that a lexeme breaks by itself.
pub fn broken_of(lexeme: &Lexeme) -> Option<u8>
    ensures { result ≡ facts.broken_of lexeme.now }
{
    match &lexeme.symbol {
        Symbol::Broken { rule } => Some(*rule),
        _ => None,
    }
}

/// The sign that closes what this character opens.
fn closer(character: char) -> Option<char>
    ensures { result ≡ facts.closer character }
{
    if character == '(' {
        return Some(')');
    }
    if character == '[' {
        return Some(']');
    }
    if character == '{' {
        return Some('}');
    }
    None
}

/// The sign that closes what a lexeme opens.
pub fn closer_of(lexeme: &Lexeme) -> Option<char>
    ensures { result ≡ facts.closer_of lexeme.now }
{
    match &lexeme.symbol {
        Symbol::Delim { ch } => closer(*ch),
        Symbol::Function { name: _, paren: _ } => Some(')'),
        _ => None,
    }
}

/// The byte of a lexeme's opening sign.
pub fn sign_of(lexeme: &Lexeme) -> u64
    ensures { result ≡ facts.sign_of lexeme.now }
{
    match &lexeme.symbol {
        Symbol::Function { name: _, paren } => *paren,
        _ => lexeme.at,
    }
}

/// Whether a lexeme is a closing sign.
pub fn is_closer(lexeme: &Lexeme) -> bool
    ensures { result ≡ facts.is_closer lexeme.now }
{
    is_delim(lexeme, ')') || (is_delim(lexeme, ']') || is_delim(lexeme, '}'))
}

/// Whether two names are one without regard to the case of ASCII letters.
pub fn is_word(name: &[u8], word: &[u8]) -> bool
    ensures { result ≡ facts.is_word name.now word.now }
{
    name.eq_ignore_ascii_case(word)
}

/// Whether a name is one of these.
pub fn is_in(name: &[u8], words: &[&[u8]]) -> bool
    ensures { result ≡ facts.is_in name.now (map (λ w. w.now) words.now) }
{
    for word in words {
        if is_word(name, word) {
            return true;
        }
    }
    false
}
