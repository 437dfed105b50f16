//! Words that are numbers or places.

ghost use Rattle.std.specs.Prelude.{◌≡◌, ◌≤◌, ◌-◌, length};
ghost use Rattle.std.specs.Str.Parse.{digits_value, AllDigits};
ghost use Rattle.flow_text.specs.Numbers.{digits_len, is_numeral};
ghost use Rattle.result_laws.specs.Words.{number_of, small_of, token_of};
ghost use Rattle.result_reader.specs.Words.{token_to};

use crate::words::part;
use mc_base::Token;
use std::alloc::Global;

/// How many digits stand at the front.
fn count_digits(bytes: &[u8]) -> usize
    ensures value { result ≡ digits_len bytes.now }
    ensures bound { result ≤ length bytes.now }
{
    for (i, byte) in bytes.iter().enumerate() {
        if !byte.is_ascii_digit() {
            return i;
        }
    }
    bytes.len()
}

/// Whether these digits are a number without leading zeros, of at most 19 digits.
fn is_number(digits: &[u8]) -> bool
    ensures { result ≡ is_numeral digits.now }
{
    match digits {
        [] => false,
        [_] => true,
        [first, ..] => *first != b'0' && digits.len() <= 19,
    }
}

/// The number that these digits spell.
fn value_of(digits: &[u8]) -> u64
    requires few { length digits.now ≤ 19 }
    requires all { AllDigits 10 digits.now }
    ensures { result ≡ digits_value 10 digits.now }
{
    let mut value = 0;
    for digit in digits {
        value = value * 10 + u64::from(*digit - b'0');
    }
    value
}

/// The number that a word is.
#[tactic(auto, using(crate::proofs::Numbers::number_rules))]
pub fn number(word: &[u8]) -> Option<u64>
    ensures { result ≡ number_of word.now }
{
    if count_digits(word) < word.len() || !is_number(word) {
        return None;
    }
    Some(value_of(word))
}

/// The number of a row, an item, a column or a depth that a word is.
#[tactic(auto, unfolding(result_laws::specs::Words::small_of))]
pub fn small(word: &[u8]) -> Option<u32>
    ensures { result ≡ small_of word.now }
{
    let number = number(word)?;
    if number > u32::MAX as u64 {
        return None;
    }
    Some(number as u32)
}

/// The place of at most this many numbers that a word is.
#[tactic(auto, using(crate::proofs::Parts::place_rules))]
fn place(alloc: Global, most: u8, word: &[u8]) -> Option<Token>
    requires some { 1 ≤ most }
    requires few { most ≤ 3 }
    ensures { result ≡ token_to most word.now }
{
    let (front, rest) = part(b'.', word);
    let item = small(front)?;
    let Some((_, rest)) = rest.split_first() else {
        return Some(Token::start(alloc, item));
    };
    if most == 1 {
        return None;
    }
    let within = place(alloc, most - 1, rest)?;
    Some(Token::within(item, &within))
}

/// The place that a word is.
#[tactic(auto, unfolding(result_laws::specs::Words::token_of))]
pub fn token(alloc: Global, word: &[u8]) -> Option<Token>
    ensures { result ≡ token_of word.now }
{
    place(alloc, 3, word)
}
