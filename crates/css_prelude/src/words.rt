//! Names and texts in front of a list of lexemes.

ghost use Rattle.std.specs.Prelude.{◌≡◌, IfOk};
ghost use Rattle.std.specs.Option.{option_copied, option_map};
ghost use Rattle.css_prelude.specs.Words as words;

use css_tokens::{Lexeme, Rest, function_of, hash_of, ident_of, word_of};
use mc_base::{Found, Text};
use std::alloc::{AllocError, Global};

/// The first of two constructs.
pub fn or_found(first: Option<Found>, then: Option<Found>) -> Option<Found>
    ensures { result ≡ words.or_found first then }
{
    match first {
        Some(found) => Some(found),
        None => then,
    }
}

pub fn copy(alloc: Global, bytes: &[u8]) -> Result<Text, AllocError>
    ensures { IfOk result (λ t. t ≡ bytes.now) }
{
    Ok(Text::of(Vec::from_slice(alloc, bytes)?))
}

pub fn first_ident<'a>(rest: &Rest<'a>) -> Option<&'a [u8]>
    ensures { option_copied result ≡ words.first_ident rest.now }
{
    let lexeme: &'a Lexeme = rest.peek()?;
    ident_of(lexeme)
}

pub fn first_function<'a>(rest: &Rest<'a>) -> Option<&'a [u8]>
    ensures { option_copied result ≡ words.first_function rest.now }
{
    let lexeme: &'a Lexeme = rest.peek()?;
    function_of(lexeme)
}

pub fn first_hash<'a>(rest: &Rest<'a>) -> Option<&'a [u8]>
    ensures { option_copied result ≡ words.first_hash rest.now }
{
    let lexeme: &'a Lexeme = rest.peek()?;
    hash_of(lexeme)
}

fn first_word<'a>(rest: &Rest<'a>) -> Option<&'a [u8]>
    ensures { option_copied result ≡ words.first_word rest.now }
{
    let lexeme: &'a Lexeme = rest.peek()?;
    word_of(lexeme)
}

/// Goes past an identifier, and gives it.
pub fn ident(alloc: Global, rest: &mut Rest) -> Result<Option<Text>, AllocError>
    ensures { IfOk result (λ o. option_map (λ t. (t, rest.new)) o ≡ words.ident_at rest.old) }
{
    let Some(text) = first_ident(rest) else {
        return Ok(None);
    };
    let text = copy(alloc, text)?;
    rest.bump();
    Ok(Some(text))
}

/// Goes past an identifier or a string, and gives its text.
pub fn word(alloc: Global, rest: &mut Rest) -> Result<Option<Text>, AllocError>
    ensures { IfOk result (λ o. option_map (λ t. (t, rest.new)) o ≡ words.word_at rest.old) }
{
    let Some(text) = first_word(rest) else {
        return Ok(None);
    };
    let text = copy(alloc, text)?;
    rest.bump();
    Ok(Some(text))
}
