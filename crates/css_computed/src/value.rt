//! The value of one property.

ghost use Rattle.std.specs.Prelude.{◌≡◌, IfOk};
ghost use Rattle.std.specs.Option.{option_copied};
ghost use Rattle.css_computed.specs.Computing as computing;

use crate::copying::{copied_names, copied_value};
use crate::length::{FontSizes, is_text, length_of, percent_of};
use crate::style::{Computed, Style};
use crate::table::{initial, is_inherited, number, word};
use css_values::{Property, Value};
use mc_base::{Decimal, NoMemory, Units};
use std::alloc::Global;

/// The parent's value, and at the root the initial one.
fn inherited_value(
    alloc: Global,
    property: Property,
    parent: Option<&Style>,
) -> Result<Computed, NoMemory>
    ensures { IfOk result (λ value. value ≡ computing.inherited_value property (option_copied parent.entry)) }
{
    match parent {
        Some(parent) => copied_value(alloc, parent.get(property)),
        None => initial(alloc, property),
    }
}

/// The value where nothing is set.
fn unset_value(
    alloc: Global,
    property: Property,
    parent: Option<&Style>,
) -> Result<Computed, NoMemory>
    ensures { IfOk result (λ value. value ≡ computing.unset_value property (option_copied parent.entry)) }
{
    if is_inherited(property) {
        inherited_value(alloc, property, parent)
    } else {
        initial(alloc, property)
    }
}

fn is_weight(property: Property) -> bool
    ensures { result ≡ computing.is_weight property }
{
    match property {
        Property::FontWeight => true,
        _ => false,
    }
}

fn word_value(alloc: Global, property: Property, name: &[u8]) -> Result<Computed, NoMemory>
    ensures { IfOk result (λ value. value ≡ computing.word_value property name.now) }
{
    if !is_weight(property) {
        return word(alloc, name);
    }
    if is_text(name, b"bold") {
        Ok(number(700_000))
    } else {
        Ok(number(400_000))
    }
}

/// Whether a percentage of a property is one of a font size, and a length.
fn is_of_font_size(property: Property) -> bool
    ensures { result ≡ computing.is_of_font_size property }
{
    match property {
        Property::FontSize | Property::LineHeight => true,
        _ => false,
    }
}

fn percent_value(property: Property, sizes: FontSizes, value: Decimal) -> Computed
    ensures { result ≡ computing.percent_value property sizes value }
{
    if is_of_font_size(property) {
        Computed::Length {
            units: percent_of(value, sizes.em),
        }
    } else {
        Computed::Percent { value }
    }
}

/// The value of a property, by what wins for it.
pub fn value_at(
    alloc: Global,
    property: Property,
    parent: Option<&Style>,
    sizes: FontSizes,
    value: Option<&Value>,
) -> Result<Computed, NoMemory>
    ensures { IfOk result (λ found. found ≡
        computing.value_at property (option_copied parent.entry) sizes (option_copied value.entry)) }
{
    match value {
        None | Some(Value::Unset) => unset_value(alloc, property, parent),
        Some(Value::Inherit) => inherited_value(alloc, property, parent),
        Some(Value::Initial) => initial(alloc, property),
        Some(Value::Word { name }) => word_value(alloc, property, name.as_slice()),
        Some(Value::Length { value, unit }) => Ok(Computed::Length {
            units: length_of(sizes, *value, unit.as_slice()),
        }),
        Some(Value::Percent { value }) => Ok(percent_value(property, sizes, *value)),
        Some(Value::Number { value }) => Ok(Computed::Number { value: *value }),
        Some(Value::Names { names }) => Ok(Computed::Names {
            names: copied_names(alloc, names.as_slice())?,
        }),
    }
}

/// A length, or another where the value is none.
pub fn length_or(other: Units, value: &Computed) -> Units
    ensures { result ≡ computing.length_or other value.now }
{
    match value {
        Computed::Length { units } => *units,
        _ => other,
    }
}

fn draws_no_line(style: &Computed) -> bool
    ensures { result ≡ computing.draws_no_line style.now }
{
    match style {
        Computed::Word { name } => {
            is_text(name.as_slice(), b"none") || is_text(name.as_slice(), b"hidden")
        }
        _ => false,
    }
}

/// A border's width, which is 0 where its style draws nothing.
pub fn width_beside(style: &Computed, width: &Computed) -> Computed
    ensures { result ≡ computing.width_beside style.now width.now }
{
    let units = if draws_no_line(style) {
        0
    } else {
        length_or(0, width)
    };
    Computed::Length { units }
}
