//! The argument of `:nth-child` (Selectors 3, section 6.6.5.2).

ghost use Rattle.std.specs.Prelude.{◌≡◌, ◌≤◌, ◌<◌, ◌^◌, length, [], IfOk};
ghost use Rattle.std.specs.Option.{option_map};
ghost use Rattle.css_prelude.specs.Nth as nth;

use css_tokens::{Lexeme, Symbol, is_word};
use mc_base::Text;
use std::alloc::{AllocError, Global};

/// The numbers a and b of `an+b`.
#[derive(Clone, Copy)]
pub struct Step {
    pub step: i64,
    pub offset: i64,
}

/// A lexeme as it is written, in two parts, if it may stand in the argument. White space is left out.
fn spelled(lexeme: &Lexeme) -> Option<(&[u8], &[u8])>
    ensures { option_map (λ x. (x.0.now, x.1.now)) result ≡ nth.spelled lexeme.now }
{
    match &lexeme.symbol {
        Symbol::Ident { text } => Some((text.as_slice(), b"")),
        Symbol::Number { digits } => Some((digits.as_slice(), b"")),
        Symbol::Dimension { digits, unit } => Some((digits.as_slice(), unit.as_slice())),
        Symbol::Space => Some((b"", b"")),
        Symbol::Delim { ch } => sign(*ch),
        _ => None,
    }
}

fn sign(ch: char) -> Option<(&'static [u8], &'static [u8])>
    ensures { option_map (λ x. (x.0.now, x.1.now)) result ≡ nth.sign ch }
{
    if ch == '+' {
        return Some((b"+", b""));
    }
    if ch == '-' {
        return Some((b"-", b""));
    }
    None
}

/// All that is written in the argument, without white space.
fn text_of(alloc: Global, arguments: &[Lexeme]) -> Result<Option<Text>, AllocError>
    ensures { IfOk result (λ o. o ≡ nth.text_from [] arguments.now) }
{
    let mut text = Text::new(alloc);
    for lexeme in arguments {
        let Some((front, back)) = spelled(lexeme) else {
            return Ok(None);
        };
        text.extend(front)?;
        text.extend(back)?;
    }
    Ok(Some(text))
}

/// Whether a minus stands first, and what follows the sign.
fn signed(text: &[u8]) -> (bool, &[u8])
    ensures { (result.0, result.1.now) ≡ nth.sign_at text.now }
{
    match text {
        [b'-', rest @ ..] => (true, rest),
        [b'+', rest @ ..] => (false, rest),
        _ => (false, text),
    }
}

/// How many digits stand in front.
fn digits_len(text: &[u8]) -> usize
    ensures count { result ≡ nth.digits_len text.now }
    ensures within { result ≤ length text.now }
{
    for (i, byte) in text.iter().enumerate() {
        if !byte.is_ascii_digit() {
            return i;
        }
    }
    text.len()
}

/// The number of these digits, cut at 999,999,999.
fn number(digits: &[u8]) -> u64
    ensures value { result ≡ nth.number_from 0 digits.now }
    ensures small { result ≤ 999999999 }
{
    let mut value: u64 = 0;
    for digit in digits {
        value = (value * 10 + u64::from(digit.saturating_sub(b'0'))).min(999_999_999);
    }
    value
}

/// A number with its sign.
fn with_sign(negative: bool, value: u64) -> i64
    requires { value ≤ 999999999 }
    ensures { result ≡ nth.with_sign negative value }
{
    let value = value as i64;
    if negative { 0 - value } else { value }
}

/// What stands after the `n`: nothing, or a sign and digits.
#[tactic(auto, unfolding(crate::specs::Nth::offset_at))]
fn offset(text: &[u8]) -> Option<i64>
    ensures { result ≡ nth.offset_at text.now }
{
    if text.is_empty() {
        return Some(0);
    }
    let (negative, digits) = signed(text);
    if digits.len() == text.len() {
        return None;
    }
    if digits.is_empty() {
        return None;
    }
    if digits_len(digits) != digits.len() {
        return None;
    }
    Some(with_sign(negative, number(digits)))
}

/// Digits after a sign, and what stands after them.
fn counted(negative: bool, digits: &[u8], behind: &[u8]) -> Option<Step>
    ensures { result ≡ nth.counted negative digits.now behind.now }
{
    let Some((first, tail)) = behind.split_first() else {
        if digits.is_empty() {
            return None;
        }
        return Some(Step {
            step: 0,
            offset: with_sign(negative, number(digits)),
        });
    };
    if !(*first == b'n' || *first == b'N') {
        return None;
    }
    let offset = offset(tail)?;
    if digits.is_empty() {
        return Some(Step {
            step: with_sign(negative, 1),
            offset,
        });
    }
    Some(Step {
        step: with_sign(negative, number(digits)),
        offset,
    })
}

/// The numbers that a text says.
#[tactic(auto, unfolding(crate::specs::Nth::step_of))]
fn step_of(text: &[u8]) -> Option<Step>
    ensures { result ≡ nth.step_of text.now }
{
    if is_word(text, b"odd") {
        return Some(Step { step: 2, offset: 1 });
    }
    if is_word(text, b"even") {
        return Some(Step { step: 2, offset: 0 });
    }
    let (negative, unsigned) = signed(text);
    let (digits, behind) = unsigned.split_at(digits_len(unsigned));
    counted(negative, digits, behind)
}

/// The numbers that the argument says.
pub fn nth(alloc: Global, arguments: &[Lexeme]) -> Result<Option<Step>, AllocError>
    ensures { IfOk result (λ o. o ≡ nth.nth_of arguments.now) }
{
    let Some(text) = text_of(alloc, arguments)? else {
        return Ok(None);
    };
    Ok(step_of(text.as_slice()))
}
