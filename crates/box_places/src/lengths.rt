//! Lengths in units.

ghost use Rattle.std.specs.Prelude.{◌≡◌, ◌≤◌, ◌-◌, ◌*◌, ◌/◌, ◌^◌, IfSome, if◌then◌else◌};
ghost use Rattle.box_data.specs.Bounds.{IsShortLength, AreShortLengths};
ghost use Rattle.box_data.specs.BoxTree as trees;
ghost use Rattle.box_data.specs.Styles as styles;
ghost use Rattle.box_data.specs.Widths as widths;
ghost use Rattle.box_places.specs.Parts as parts;
ghost use Rattle.box_places.specs.Bounds.{AreBelow};

use box_data::{Length, SideAmounts, SideLengths};
use mc_base::Units;

/// The greatest length that a style or an attribute gives; a greater one counts as this.
const LONGEST: u128 = 1 << 62;

/// A share of a whole, in billionths of a per cent.
#[tactic(auto, using(crate::proofs::Products::product_fits))]
fn share(part: u64, whole: Units) -> Units
    ensures share { result ≡ styles.capped (part * whole / 10 ^ 11) }
    ensures capped { result ≤ 2 ^ 62 }
{
    (u128::from(part) * u128::from(whole) / 100_000_000_000).min(LONGEST) as Units
}

/// The height that goes with a width by the ratio of two lengths.
#[tactic(auto, using(crate::proofs::Products::product_fits))]
pub fn in_ratio(w: Units, over: Units, under: Units) -> Units
    requires { 1 ≤ under }
    ensures ratio { result ≡ styles.capped (w * over / under) }
    ensures capped { result ≤ 2 ^ 62 }
{
    (u128::from(w) * u128::from(over) / u128::from(under)).min(LONGEST) as Units
}

/// A length where a whole is this much; `None` where it is `auto`.
pub fn resolved(length: Length, whole: Units) -> Option<Units>
    requires { IsShortLength length }
    ensures value { result ≡ styles.resolved length whole }
    ensures capped { IfSome result (λ u. u ≤ 2 ^ 62) }
{
    match length {
        Length::Auto => None,
        Length::Units(u) => Some(u),
        Length::Percent(part) => Some(share(part, whole)),
    }
}

/// A length, or 0 where it is `auto`.
pub fn used(length: Length, whole: Units) -> Units
    requires { IsShortLength length }
    ensures value { result ≡ trees.or_zero (styles.resolved length whole) }
    ensures capped { result ≤ 2 ^ 62 }
{
    match resolved(length, whole) {
        None => 0,
        Some(u) => u,
    }
}

/// A length for each side of a box.
pub fn used_sides(lengths: &SideLengths, whole: Units) -> SideAmounts
    requires { AreShortLengths lengths.now }
    ensures value { result ≡ parts.used_sides lengths.now whole }
    ensures capped { AreBelow result }
{
    SideAmounts {
        top: used(lengths.top, whole),
        right: used(lengths.right, whole),
        bottom: used(lengths.bottom, whole),
        left: used(lengths.left, whole),
    }
}

/// A length without what stands in it.
pub fn less(by: Units, length: Option<Units>) -> Option<Units>
    requires { IfSome length (λ u. u ≤ 2 ^ 62) }
    ensures value { result ≡ widths.less by length }
    ensures capped { IfSome result (λ u. u ≤ 2 ^ 62) }
{
    match length {
        None => None,
        Some(u) => Some(u.saturating_sub(by)),
    }
}

/// The height that a style gives an image, by a length alone.
pub fn given_height(height: Length, less_down: Units) -> Option<Units>
    requires { IsShortLength height }
    ensures value { result ≡ parts.given_height height less_down }
    ensures capped { IfSome result (λ u. u ≤ 2 ^ 62) }
{
    match height {
        Length::Units(u) => Some(u.saturating_sub(less_down)),
        Length::Auto | Length::Percent(_) => None,
    }
}
