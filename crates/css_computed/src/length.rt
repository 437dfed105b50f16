//! Lengths in units.

ghost use Rattle.std.specs.Prelude.{◌≡◌, ◌<◌};
ghost use Rattle.std.specs.Str.{bytes_eq};
ghost use Rattle.css_computed.specs.Lengths as lengths;

use mc_base::{Decimal, Units};

/// The greatest length; a greater one counts as this.
const LONGEST: u128 = 1 << 62;

/// The font sizes that the units `em` and `rem` stand for.
#[derive(Clone, Copy)]
pub struct FontSizes {
    pub em: Units,
    pub rem: Units,
}

/// So many units, as a fraction.
#[derive(Clone, Copy)]
pub struct Scale {
    pub over: u64,
    pub under: u64,
}

pub fn is_text(a: &[u8], b: &[u8]) -> bool
    ensures { result ≡ bytes_eq a.now b.now }
{
    a == b
}

/// What 1 of a unit of length is. A name that is none is taken as `px`.
#[tactic(auto, unfolding(crate::specs::Lengths::scale_of))]
fn scale_of(sizes: FontSizes, unit: &[u8]) -> Scale
    ensures scale { result ≡ lengths.scale_of sizes unit.now }
    ensures some { 0 < result.under }
{
    let (over, under) = if is_text(unit, b"em") {
        (sizes.em, 1)
    } else if is_text(unit, b"rem") {
        (sizes.rem, 1)
    } else if is_text(unit, b"pt") {
        (64 * 4, 3)
    } else if is_text(unit, b"pc") {
        (64 * 16, 1)
    } else if is_text(unit, b"in") {
        (64 * 96, 1)
    } else if is_text(unit, b"cm") {
        (64 * 4800, 127)
    } else if is_text(unit, b"mm") {
        (64 * 480, 127)
    } else {
        (64, 1)
    };
    Scale { over, under }
}

/// So many times a fraction, rounded down.
#[tactic(auto, using(crate::proofs::Products::product_fits))]
fn scaled(value: Decimal, scale: Scale) -> Units
    requires { 0 < scale.under }
    ensures { result ≡ lengths.scaled value scale }
{
    let over = u128::from(value.billionths) * u128::from(scale.over);
    let under = 1_000_000_000 * u128::from(scale.under);
    (over / under).min(LONGEST) as Units
}

/// A length with its unit.
pub fn length_of(sizes: FontSizes, value: Decimal, unit: &[u8]) -> Units
    ensures { result ≡ lengths.length_of sizes value unit.now }
{
    scaled(value, scale_of(sizes, unit))
}

/// A percentage of a length.
pub fn percent_of(value: Decimal, base: Units) -> Units
    ensures { result ≡ lengths.percent_of value base }
{
    let scale = Scale {
        over: base,
        under: 100,
    };
    scaled(value, scale)
}
