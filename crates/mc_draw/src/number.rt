//! Decimal numbers without leading zeros, of at most 19 digits.

ghost use Rattle.std.specs.Prelude.{◌≡◌, ◌≤◌, length, option_map};
ghost use Rattle.std.specs.Str.Parse.{digits_value, AllDigits};
ghost use Rattle.flow_text.specs.Numbers.{digits_len, is_numeral, number_at};

use mc_base::Units;

/// How many digits stand at the front.
fn count_digits(bytes: &[u8]) -> usize
    ensures { result ≡ digits_len bytes.now }
{
    for (i, byte) in bytes.iter().enumerate() {
        if !byte.is_ascii_digit() {
            return i;
        }
    }
    bytes.len()
}

/// Whether these digits are a number without leading zeros, of at most 19 digits.
fn is_number(digits: &[u8]) -> bool
    ensures { result ≡ is_numeral digits.now }
{
    match digits {
        [] => false,
        [_] => true,
        [first, ..] => *first != b'0' && digits.len() <= 19,
    }
}

/// The number that these digits spell.
fn value_of(digits: &[u8]) -> Units
    requires few { length digits.now ≤ 19 }
    requires all { AllDigits 10 digits.now }
    ensures { result ≡ digits_value 10 digits.now }
{
    let mut value = 0;
    for digit in digits {
        value = value * 10 + u64::from(*digit - b'0');
    }
    value
}

/// The number at the front, and what follows it.
#[tactic(auto, unfolding(flow_text::specs::Numbers::number_at))]
pub fn number(bytes: &[u8]) -> Option<(Units, &[u8])>
    ensures { option_map (λ x. (x.0, x.1.now)) result ≡ number_at bytes.now }
{
    let (digits, rest) = bytes.split_at(count_digits(bytes));
    if !is_number(digits) {
        return None;
    }
    Some((value_of(digits), rest))
}
