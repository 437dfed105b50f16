//! The numbers that words write.

ghost use Rattle.std.specs.Prelude.{◌≡◌, ◌^◌, ◌<◌, IfSome};
ghost use Rattle.mc_base.specs.Decimals as decimals;
ghost use Rattle.mc_words.specs.Words as stated;
ghost use Rattle.mc_words.specs.Words.{number_below};

use mc_base::{Decimal, Units, read_decimal};

/// How many billionths of a px a unit is.
const UNIT: u64 = 15_625_000;

/// How many units a px is, the least available height.
const LEAST_HEIGHT: Units = 64;

fn are_digits(word: &str) -> bool
    ensures { result ≡ decimals.are_digits word.now }
{
    word.as_bytes().iter().all(|byte| byte.is_ascii_digit())
}

/// The number that a word of digits writes, where it is a `u64`.
#[tactic(auto, using(crate::proofs::Numerals::number_lemmas))]
pub fn start_number(word: &str) -> Option<u64>
    ensures { result ≡ number_below (2 ^ 64) word.now }
{
    if !are_digits(word) {
        return None;
    }
    word.parse::<u64>().ok()
}

/// The number that a word of digits writes, where it is a `u32`.
#[tactic(auto, using(crate::proofs::Numerals::number_lemmas))]
pub fn count_number(word: &str) -> Option<u32>
    ensures { result ≡ number_below (2 ^ 32) word.now }
{
    if !are_digits(word) {
        return None;
    }
    word.parse::<u32>().ok()
}

/// Whether a word begins with a sign.
fn has_sign(word: &str) -> bool
    ensures { result ≡ stated.has_sign word.now }
{
    match word.as_bytes() {
        [] => false,
        [first, ..] => *first == b'-' || *first == b'+',
    }
}

/// The decimal number that a word writes without a sign.
#[tactic(auto, using(crate::proofs::Lengths::length_lemmas))]
fn unsigned_of(word: &str) -> Option<Decimal>
    ensures { result ≡ stated.unsigned_of word.now }
{
    if has_sign(word) {
        return None;
    }
    read_decimal(word.as_bytes())
}

/// The units of the px that a word writes as a decimal without a sign, rounded down.
#[tactic(auto, using(crate::proofs::Lengths::length_lemmas))]
pub fn units_of(word: &str) -> Option<Units>
    ensures units { result ≡ stated.units_of word.now }
    ensures narrow { IfSome result (λ units. units < 2 ^ 60) }
{
    let number = unsigned_of(word)?;
    Some(number.billionths / UNIT)
}

/// An available height, or any, that a word writes.
pub fn height_of(word: &str) -> Option<Option<Units>>
    ensures { result ≡ stated.height_of word.now }
{
    if word == "auto" {
        return Some(None);
    }
    let height = units_of(word)?;
    Some(Some(height.max(LEAST_HEIGHT)))
}
