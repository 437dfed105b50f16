//! What the computed value of a property says.

ghost use Rattle.std.specs.Prelude.{◌≡◌, ◌*◌, ◌/◌, ◌^◌};
ghost use Rattle.box_data.specs.Styles.{capped};
ghost use Rattle.box_style.specs.Styles as styles;

use box_data::{Align, Display, Length};
use break_rules::BreakValue;
use css_computed::Computed;
use mc_base::{Decimal, Units};

/// Whether the value is this word.
pub fn is_word(value: &Computed, word: &[u8]) -> bool
    ensures { result ≡ styles.is_word word.now value.now }
{
    match value {
        Computed::Word { name } => name.as_slice() == word,
        _ => false,
    }
}

/// A length in units: 0, where the value is none.
pub fn amount_of(value: &Computed) -> Units
    ensures { result ≡ styles.amount_of value.now }
{
    match value {
        Computed::Length { units } => *units,
        _ => 0,
    }
}

/// A length or a percentage, else `auto`.
pub fn length_of(value: &Computed) -> Length
    ensures { result ≡ styles.length_of value.now }
{
    match value {
        Computed::Length { units } => Length::Units(*units),
        Computed::Percent { value } => Length::Percent(value.billionths),
        _ => Length::Auto,
    }
}

/// The whole part of a number, as far as 32 bits hold it.
pub fn whole_of(value: Decimal) -> u32
    ensures { result ≡ styles.whole_of value }
{
    (value.billionths / 1_000_000_000).min(4_294_967_295) as u32
}

/// The count of lines of `orphans` and `widows`, at least 1.
pub fn count_of(value: &Computed) -> u32
    ensures { result ≡ styles.count_of value.now }
{
    match value {
        Computed::Number { value } => 1u32.max(whole_of(*value)),
        _ => 1,
    }
}

/// A count of columns, at least 1; `auto` is none.
pub fn column_count_of(value: &Computed) -> Option<u32>
    ensures { result ≡ styles.column_count_of value.now }
{
    match value {
        Computed::Number { value } => Some(1u32.max(whole_of(*value))),
        _ => None,
    }
}

/// A width of columns; `auto` is none.
pub fn column_width_of(value: &Computed) -> Option<Units>
    ensures { result ≡ styles.column_width_of value.now }
{
    match value {
        Computed::Length { units } => Some(*units),
        _ => None,
    }
}

/// A number of times a font size, rounded down.
#[tactic(auto, using(crate::proofs::Products::product_fits))]
fn times(value: Decimal, size: Units) -> Units
    ensures { result ≡ capped (value.billionths * size / 10 ^ 9) }
{
    let all = u128::from(value.billionths) * u128::from(size);
    (all / 1_000_000_000).min(4_611_686_018_427_387_904) as Units
}

/// A line height: a length, or a number of times the font size (CSS 2.1, section 10.8.1).
pub fn line_of(value: &Computed, size: Units) -> Units
    ensures { result ≡ styles.line_of value.now size }
{
    match value {
        Computed::Length { units } => (*units).min(4_611_686_018_427_387_904),
        Computed::Number { value } => times(*value, size),
        _ => size.min(4_611_686_018_427_387_904),
    }
}

/// `none` makes no box, `block` and `list-item` block-level ones (CSS 2.1, section 9.2).
pub fn display_of(value: &Computed) -> Display
    ensures { result ≡ styles.display_of value.now }
{
    if is_word(value, b"none") {
        Display::Hidden
    } else if is_word(value, b"block") {
        Display::Block
    } else if is_word(value, b"list-item") {
        Display::Block
    } else {
        Display::Inline
    }
}

/// Where lines stand in their box (CSS Text 3, section 6.1).
pub fn align_of(value: &Computed) -> Align
    ensures { result ≡ styles.align_of value.now }
{
    if is_word(value, b"right") {
        Align::Right
    } else if is_word(value, b"center") {
        Align::Center
    } else {
        Align::Left
    }
}

/// What a box asks for at a break (CSS Fragmentation 3, section 3.1).
pub fn break_of(value: &Computed) -> BreakValue
    ensures { result ≡ styles.break_of value.now }
{
    if is_word(value, b"avoid") {
        BreakValue::Avoid
    } else if is_word(value, b"column") {
        BreakValue::Column
    } else {
        BreakValue::Auto
    }
}
