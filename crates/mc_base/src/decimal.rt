//! Decimal numbers.

ghost use Rattle.std.specs.Prelude.{◌≡◌, ◌+◌, ◌*◌, ◌<◌, ◌^◌, IsTrue, IfSome, IfNone, take};
ghost use Rattle.std.specs.Option.{option_map, option_copied};
ghost use Rattle.std.specs.Str.Parse.{digits_value};
ghost use Rattle.mc_base.specs.Decimals as decimals;
ghost use Rattle.mc_base.specs.Decimals.{IsDecimal, are_digits, first_nine};
ghost use Rattle.mc_base.specs.DecimalReading as reading;

/// A decimal number, in billionths: whether a minus sign stands before it, and its size.
#[derive(Clone, Copy, Debug, PartialEq, Eq)]
pub struct Decimal {
    pub negative: bool,
    pub billionths: u64,
}

/// Whether a minus sign stands first, and what follows the sign.
fn signed(text: &[u8]) -> (bool, &[u8])
    ensures minus { result.0 ≡ (reading.sign_at text.now).0 }
    ensures rest { result.1.now ≡ (reading.sign_at text.now).1 }
{
    match text {
        [b'-', rest @ ..] => (true, rest),
        [b'+', rest @ ..] => (false, rest),
        _ => (false, text),
    }
}

/// What stands before and after the first point.
fn parted(digits: &[u8]) -> (&[u8], Option<&[u8]>)
    ensures whole { result.0.now ≡ (reading.parts_at digits.now).0 }
    ensures fraction { option_copied result.1 ≡ (reading.parts_at digits.now).1 }
{
    for (i, byte) in digits.iter().enumerate() {
        if *byte == b'.' {
            let (whole, rest) = digits.split_at(i);
            return (whole, Some(rest.split_at(1).1));
        }
    }
    (digits, None)
}

fn are_digits(bytes: &[u8]) -> bool
    ensures { result ≡ decimals.are_digits bytes.now }
{
    bytes.iter().all(|byte| byte.is_ascii_digit())
}

fn is_numeral(bytes: &[u8]) -> bool
    ensures { result ≡ decimals.is_numeral bytes.now }
{
    !bytes.is_empty() && are_digits(bytes)
}

/// Whether these may stand before and after the point.
fn are_parts(whole: &[u8], fraction: Option<&[u8]>) -> bool
    ensures { result ≡ decimals.are_parts whole.now (option_copied fraction.entry) }
{
    match fraction {
        None => is_numeral(whole),
        Some(fraction) => are_digits(whole) && is_numeral(fraction),
    }
}

/// The number before the point, of which nothing above 999,999,999 is told apart.
fn whole_value(digits: &[u8]) -> u64
    requires { IsTrue (are_digits digits.now) }
    ensures { result ≡ decimals.whole_value digits.now }
{
    let mut value: u64 = 0;
    for digit in digits {
        value = (value * 10 + u64::from(*digit - b'0')).min(999_999_999);
    }
    value
}

/// The digit at a place after the point: 0 where there is none.
fn digit_at(digits: &[u8], place: usize) -> u64
    requires digits { IsTrue (are_digits digits.now) }
    requires few { place < 9 }
    ensures small { result < 10 }
    ensures digit { digits_value 10 (take (place + 1) (first_nine digits.now)) ≡
        digits_value 10 (take place (first_nine digits.now)) * 10 + result }
{
    if place < digits.len() {
        u64::from(digits[place] - b'0')
    } else {
        0
    }
}

/// The number of the first nine digits after the point.
fn billionths(digits: &[u8]) -> u64
    requires { IsTrue (are_digits digits.now) }
    ensures small { result < 10 ^ 9 }
    ensures value { result ≡ digits_value 10 (first_nine digits.now) }
{
    let mut value = 0;
    for place in 0..9 {
        value = value * 10 + digit_at(digits, place);
    }
    value
}

/// The number of a text after its sign.
fn unsigned(negative: bool, whole: &[u8], fraction: Option<&[u8]>) -> Option<Decimal>
    ensures { result ≡ reading.unsigned_at negative whole.now (option_copied fraction.entry) }
{
    if !are_parts(whole, fraction) {
        return None;
    }
    let billionths = match fraction {
        None => 0,
        Some(digits) => billionths(digits),
    };
    Some(Decimal {
        negative,
        billionths: whole_value(whole) * 1_000_000_000 + billionths,
    })
}

#[tactic(auto, unfolding(crate::specs::DecimalReading::decimal_at))]
fn decimal_at(text: &[u8]) -> Option<Decimal>
    ensures { result ≡ reading.decimal_at text.now }
{
    let (negative, digits) = signed(text);
    let (whole, fraction) = parted(digits);
    unsigned(negative, whole, fraction)
}

/// The number that a text writes (CSS Syntax 3, section 4.3.12, without an exponent), or `None` where it writes none.
///
/// Digits after the ninth after the point are dropped, and a whole part above 999,999,999 is taken as that. It takes no
/// memory.
pub fn read_decimal(text: &[u8]) -> Option<Decimal>
    ensures found { IfSome result (IsDecimal text.now) }
    ensures none { IfNone result ((number : Decimal) → ¬ IsDecimal text.now number) }
{
    decimal_at(text)
}
