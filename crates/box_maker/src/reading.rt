//! What the name, the attributes and the style of an element say of its box.

ghost use Rattle.std.specs.Prelude.{◌≡◌, ◌^◌, ◌||◌, not, min, codes, is_some};
ghost use Rattle.std.specs.List.{list_any};
ghost use Rattle.std.specs.Char.{is_ascii_digit};
ghost use Rattle.std.specs.Option.{option_copied};
ghost use Rattle.html_grammar.specs.Names as names;
ghost use Rattle.box_data.specs.Styles as styling;
ghost use Rattle.box_data.specs.Styles.{style_of};
ghost use Rattle.box_data.specs.BoxTree as boxes;

use box_data::{BoxStyle, Display, Length};
use html_grammar::Attribute;
use mc_base::ConstructName;

/// Units in a px.
const PX: u64 = 64;

/// The px of which no more count: they have 2^62 units.
const MOST_PX: u64 = 1 << 56;

#[tactic(auto, unfolding(html_grammar::specs::Names::same))]
fn same(a: &[u8], b: &[u8]) -> bool
    ensures { result ≡ names.same a.now b.now }
{
    a == b
}

pub fn is_image(name: &[u8]) -> bool
    ensures { result ≡ boxes.is_image name.now }
{
    same(name, b"img")
}

pub fn is_break(name: &[u8]) -> bool
    ensures { result ≡ names.same name.now (codes "br") }
{
    same(name, b"br")
}

pub fn is_chance(name: &[u8]) -> bool
    ensures { result ≡ names.same name.now (codes "wbr") }
{
    same(name, b"wbr")
}

/// Whether an element of this name has no content of its own.
pub fn is_empty(name: &[u8]) -> bool
    ensures { result ≡ boxes.is_empty name.now }
{
    is_image(name) || is_break(name) || is_chance(name)
}

pub fn is_shown_at(styles: &[BoxStyle], k: u32) -> bool
    ensures { result ≡ boxes.is_shown (style_of styles.now k) }
{
    match styles.get(k as usize) {
        Some(style) => match style.display {
            Display::Hidden => false,
            Display::Inline | Display::Block => true,
        },
        None => true,
    }
}

pub fn is_block_at(styles: &[BoxStyle], k: u32) -> bool
    ensures { result ≡ boxes.is_block (style_of styles.now k) }
{
    match styles.get(k as usize) {
        Some(style) => match style.display {
            Display::Hidden | Display::Inline => false,
            Display::Block => true,
        },
        None => false,
    }
}

fn has_columns_at(styles: &[BoxStyle], k: u32) -> bool
    ensures { result
        ≡ (is_some (style_of styles.now k).column_count || is_some (style_of styles.now k).column_width) }
{
    match styles.get(k as usize) {
        Some(style) => style.column_count.is_some() || style.column_width.is_some(),
        None => false,
    }
}

pub fn is_container_at(styles: &[BoxStyle], k: u32, name: &[u8]) -> bool
    ensures { result ≡ boxes.is_container (style_of styles.now k) name.now }
{
    !is_image(name) && has_columns_at(styles, k)
}

fn is_length(length: Length) -> bool
    ensures { result ≡ styling.is_length length }
{
    match length {
        Length::Units(_) => true,
        Length::Auto | Length::Percent(_) => false,
    }
}

/// Whether the style of a node gives it a height that isn't a percentage.
pub fn has_height_at(styles: &[BoxStyle], k: u32) -> bool
    ensures { result ≡ styling.is_length (style_of styles.now k).height }
{
    match styles.get(k as usize) {
        Some(style) => is_length(style.height),
        None => false,
    }
}

/// The first winning declaration of a node that isn't laid out.
pub fn refused_at(styles: &[BoxStyle], k: u32) -> Option<ConstructName>
    ensures { result ≡ (style_of styles.now k).refused }
{
    match styles.get(k as usize) {
        Some(style) => style.refused,
        None => None,
    }
}

/// The value of the attribute of this name.
fn value_of<'a>(name: &[u8], attributes: &'a [Attribute]) -> Option<&'a [u8]>
    ensures { option_copied result ≡ boxes.value_of name.now attributes.now }
{
    for attribute in attributes {
        if same(name, attribute.name.as_slice()) {
            return Some(attribute.value.as_slice());
        }
    }
    None
}

/// Whether a byte isn't an ASCII digit.
fn has_other(text: &[u8]) -> bool
    ensures { result ≡ list_any (λ d. not (is_ascii_digit d)) text.now }
{
    text.iter().any(|byte| !byte.is_ascii_digit())
}

/// The number that digits spell, or the most px that count.
fn whole_number(digits: &[u8]) -> u64
    ensures { result ≡ min (boxes.whole_number digits.now) (2 ^ 56) }
{
    let mut number = 0;
    for digit in digits {
        number = (10 * number + u64::from(digit.saturating_sub(b'0'))).min(MOST_PX);
    }
    number
}

/// The size in units that an attribute's value gives.
fn size_given(value: Option<&[u8]>) -> Option<u64>
    ensures { result ≡ boxes.size_given (option_copied value.entry) }
{
    let digits = value?;
    if digits.is_empty() || has_other(digits) {
        return None;
    }
    Some(PX * whole_number(digits))
}

/// The size in units that the attribute of this name gives.
fn size_attribute(name: &[u8], attributes: &[Attribute]) -> Option<u64>
    ensures { result ≡ boxes.size_attribute name.now attributes.now }
{
    size_given(value_of(name, attributes))
}

pub fn width_of(attributes: &[Attribute]) -> Option<u64>
    ensures { result ≡ boxes.size_attribute (codes "width") attributes.now }
{
    size_attribute(b"width", attributes)
}

pub fn height_of(attributes: &[Attribute]) -> Option<u64>
    ensures { result ≡ boxes.size_attribute (codes "height") attributes.now }
{
    size_attribute(b"height", attributes)
}
