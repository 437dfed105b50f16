//! Tokens of values.

ghost use Rattle.std.specs.Prelude.{◌≡◌, [], map, IfOk};
ghost use Rattle.mc_base.specs.DecimalReading as reading;
ghost use Rattle.css_syntax.specs.Tokens as tokens;

use css_data::CssToken;
use css_tokens::{Lexeme, Symbol};
use mc_base::{Decimal, List, Text, read_decimal};
use std::alloc::{AllocError, Global};

pub fn copy(alloc: Global, bytes: &[u8]) -> Result<Text, AllocError>
    ensures { IfOk result (λ t. t ≡ bytes.now) }
{
    Ok(Text::of(Vec::from_slice(alloc, bytes)?))
}

/// The number that digits write, if they write one.
fn read(digits: &[u8]) -> Option<Decimal>
    ensures { result ≡ reading.decimal_at digits.now }
{
    read_decimal(digits)
}

/// The number that digits write.
fn number(digits: &[u8]) -> Decimal
    ensures { result ≡ tokens.number digits.now }
{
    match read(digits) {
        Some(number) => number,
        None => Decimal {
            negative: false,
            billionths: 0,
        },
    }
}

/// Whether no point stands in a number.
fn is_whole(digits: &[u8]) -> bool
    ensures { result ≡ tokens.is_whole digits.now }
{
    !digits.contains(&b'.')
}

/// A lexeme as a token of a value.
fn token(alloc: Global, lexeme: &Lexeme) -> Result<CssToken, AllocError>
    ensures { IfOk result (λ t. t ≡ tokens.token_of lexeme.now) }
{
    match &lexeme.symbol {
        Symbol::Ident { text } => Ok(CssToken::Ident {
            text: copy(alloc, text.as_slice())?,
        }),
        Symbol::Hash { text } => Ok(CssToken::Hash {
            text: copy(alloc, text.as_slice())?,
        }),
        Symbol::Quoted { text } => Ok(CssToken::Quoted {
            text: copy(alloc, text.as_slice())?,
        }),
        Symbol::Number { digits } => Ok(CssToken::Number {
            value: number(digits.as_slice()),
            whole: is_whole(digits.as_slice()),
        }),
        Symbol::Percent { digits } => Ok(CssToken::Percent {
            value: number(digits.as_slice()),
        }),
        Symbol::Dimension { digits, unit } => Ok(CssToken::Dimension {
            value: number(digits.as_slice()),
            unit: copy(alloc, unit.as_slice())?,
        }),
        Symbol::Function { name, paren: _ } => Ok(CssToken::Function {
            name: copy(alloc, name.as_slice())?,
        }),
        Symbol::Delim { ch } => Ok(CssToken::Delim { ch: *ch }),
        Symbol::Space => Ok(CssToken::Space),
        Symbol::Broken { rule: _ } => Ok(CssToken::Space),
    }
}

/// Lexemes as tokens of a value.
pub fn tokens(alloc: Global, lexemes: &[Lexeme]) -> Result<List<CssToken>, AllocError>
    ensures { IfOk result (λ all. all ≡ map tokens.token_of lexemes.now) }
{
    let mut all = List::new(alloc);
    for lexeme in lexemes {
        all.push(token(alloc, lexeme)?)?;
    }
    Ok(all)
}
