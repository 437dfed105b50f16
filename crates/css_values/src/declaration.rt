//! What a declaration says.

ghost use Rattle.std.specs.Prelude.{◌≡◌, [], ◌∷◌, map, None, IfOk};
ghost use Rattle.css_values.specs.Declarations as declarations;
ghost use Rattle.css_values.specs.Declarations.{declared_of};
ghost use Rattle.css_values.specs.Families.{families as family_names};
ghost use Rattle.css_values.specs.Shorthands.{longhands_of as all_of, shorthand_values as values_for};
ghost use Rattle.css_values.specs.Values.{significant, only as only_token};

use crate::accept::{is_below_zero, is_word, one_of, only, unit_named, value_of, wide};
use crate::border::is_colour_function;
use crate::declared::{Declared, Longhand, Property, Value};
use crate::family::families;
use crate::form::Simple;
use crate::name::{Barred, Name, Shorthand, construct_of, named};
use crate::shorthand::{longhands_of, one_value, shorthand_values};
use crate::table::{grammar, harmless};
use crate::text::{begins_with, is_same};
use css_data::CssToken;
use mc_base::{ConstructName, List, NoMemory};
use std::alloc::{AllocError, Global};

fn is_function(token: &CssToken) -> bool
    ensures { result ≡ declarations.is_function token.now }
{
    match token {
        CssToken::Function { name } => !is_colour_function(name.as_slice()),
        _ => false,
    }
}

fn is_unit(token: &CssToken) -> bool
    ensures { result ≡ declarations.is_unit token.now }
{
    match token {
        CssToken::Dimension { unit, .. } => unit_named(unit.as_slice()).is_none(),
        _ => false,
    }
}

fn is_revert(token: &CssToken) -> bool
    ensures { result ≡ declarations.is_revert token.now }
{
    is_word(b"revert", token)
}

#[tactic(auto, unfolding(crate::specs::Declarations::has_function))]
fn has_function(value: &[CssToken]) -> bool
    ensures { result ≡ declarations.has_function value.now }
{
    value.iter().any(is_function)
}

#[tactic(auto, unfolding(crate::specs::Declarations::has_unit))]
fn has_unit(value: &[CssToken]) -> bool
    ensures { result ≡ declarations.has_unit value.now }
{
    value.iter().any(is_unit)
}

#[tactic(auto, unfolding(crate::specs::Declarations::has_revert))]
fn has_revert(value: &[CssToken]) -> bool
    ensures { result ≡ declarations.has_revert value.now }
{
    value.iter().any(is_revert)
}

/// What is refused in the value of every property that is laid out.
#[tactic(auto, unfolding(crate::specs::Declarations::unlaid_part))]
fn unlaid_part(value: &[CssToken]) -> Option<ConstructName>
    ensures { result ≡ declarations.unlaid_part value.now }
{
    if has_function(value) {
        Some(ConstructName::Function)
    } else if has_unit(value) {
        Some(ConstructName::Unit)
    } else if has_revert(value) {
        Some(ConstructName::Revert)
    } else {
        None
    }
}

fn is_one_of(words: &[&[u8]], text: &[u8]) -> bool
    ensures { result ≡ declarations.is_one_of (map (λ word. word.now) words.now) text.now }
{
    for word in words {
        if is_same(text, word) {
            return true;
        }
    }
    false
}

#[tactic(auto, unfolding(crate::specs::Declarations::is_display_word))]
fn is_display_word(text: &[u8]) -> bool
    ensures { result ≡ declarations.is_display_word text.now }
{
    is_one_of(
        &[
            b"inline-block",
            b"flex",
            b"inline-flex",
            b"grid",
            b"inline-grid",
            b"contents",
            b"flow-root",
            b"table",
        ],
        text,
    )
}

fn is_unlaid_display(text: &[u8]) -> bool
    ensures { result ≡ declarations.is_unlaid_display text.now }
{
    is_display_word(text) || begins_with(b"table-", text) || begins_with(b"inline-table", text)
}

#[tactic(auto, unfolding(crate::specs::Declarations::is_unlaid_white_space))]
fn is_unlaid_white_space(text: &[u8]) -> bool
    ensures { result ≡ declarations.is_unlaid_white_space text.now }
{
    is_one_of(&[b"pre-wrap", b"pre-line", b"break-spaces"], text)
}

/// The construct that a keyword of a property is refused as.
#[tactic(auto, unfolding(crate::specs::Declarations::unlaid_word))]
fn unlaid_word(property: Property, token: &CssToken) -> Option<ConstructName>
    ensures { result ≡ declarations.unlaid_word property token.now }
{
    let CssToken::Ident { text } = token else {
        return None;
    };
    match property {
        Property::Display if is_unlaid_display(text.as_slice()) => Some(ConstructName::Display),
        Property::WhiteSpace if is_unlaid_white_space(text.as_slice()) => {
            Some(ConstructName::WhiteSpace)
        }
        _ => None,
    }
}

/// The properties with their values.
fn longhands(
    alloc: Global,
    properties: &[Property],
    values: &[Simple],
) -> Result<List<Longhand>, AllocError>
    ensures { IfOk result (λ set. set ≡ declarations.longhands properties.now values.now) }
{
    let mut set = List::new(alloc);
    for (i, property) in properties.iter().enumerate() {
        if i >= values.len() {
            return Ok(set);
        }
        let value = value_of(alloc, values[i])?;
        set.push(Longhand {
            property: *property,
            value,
        })?;
    }
    Ok(set)
}

/// The properties, each with this value.
fn all_alike(
    alloc: Global,
    properties: &[Property],
    value: Simple,
) -> Result<List<Longhand>, AllocError>
    ensures { IfOk result (λ set. set ≡ declarations.all_alike properties.now value) }
{
    let mut set = List::new(alloc);
    for property in properties {
        let value = value_of(alloc, value)?;
        set.push(Longhand {
            property: *property,
            value,
        })?;
    }
    Ok(set)
}

#[tactic(auto, unfolding(crate::specs::Declarations::has_below_zero))]
fn has_below_zero(values: &[Simple]) -> bool
    ensures { result ≡ declarations.has_below_zero values.now }
{
    values.iter().any(|value| is_below_zero(*value))
}

/// These values of these properties, unless one is below zero.
#[tactic(auto, unfolding(crate::specs::Declarations::set))]
fn set(alloc: Global, properties: &[Property], values: &[Simple]) -> Result<Declared, AllocError>
    ensures { IfOk result (λ declared. declared ≡ declarations.set properties.now values.now) }
{
    if has_below_zero(values) {
        return Ok(Declared::Refused(ConstructName::NegativeMargin));
    }
    Ok(Declared::Set(longhands(alloc, properties, values)?))
}

fn takes_names(property: Property) -> bool
    ensures { result ≡ declarations.takes_names property }
{
    match property {
        Property::FontFamily => true,
        _ => false,
    }
}

/// A list of family names, where the value is one.
fn set_families(alloc: Global, value: &[CssToken]) -> Result<Declared, AllocError>
    ensures { IfOk result (λ declared. declared ≡ declarations.set_families (family_names (significant value.now))) }
{
    let Some(names) = families(alloc, value)? else {
        return Ok(Declared::Ignored);
    };
    let mut set = List::new(alloc);
    set.push(Longhand {
        property: Property::FontFamily,
        value: Value::Names { names },
    })?;
    Ok(Declared::Set(set))
}

/// What a value says that is none, or a keyword that isn't laid out.
fn ignored_unless(unlaid: Option<ConstructName>) -> Declared
    ensures { result ≡ declarations.ignored_unless unlaid }
{
    match unlaid {
        None => Declared::Ignored,
        Some(name) => Declared::Refused(name),
    }
}

/// The construct that the only token is refused as.
fn unlaid_value(property: Property, value: &[CssToken]) -> Option<ConstructName>
    ensures { result ≡ declarations.unlaid_value property (significant value.now) }
{
    unlaid_word(property, only(value)?)
}

/// What the value of a property of its own says, which is no keyword that every property takes.
#[tactic(auto, unfolding(crate::specs::Declarations::own_value))]
fn own_value(alloc: Global, property: Property, value: &[CssToken]) -> Result<Declared, AllocError>
    ensures { IfOk result (λ declared. declared ≡ declarations.own_value property (significant value.now)) }
{
    if takes_names(property) {
        return set_families(alloc, value);
    }
    match one_value(alloc, grammar(property), value)? {
        Some(values) => set(alloc, &[property], values.as_slice()),
        None => Ok(ignored_unless(unlaid_value(property, value))),
    }
}

/// What the value of a shorthand says, which is no keyword that every property takes.
fn short_value(
    alloc: Global,
    shorthand: Shorthand,
    value: &[CssToken],
) -> Result<Declared, AllocError>
    ensures { IfOk result (λ declared. declared ≡
        declarations.set_unless (all_of shorthand) (values_for shorthand (significant value.now)) None) }
{
    match shorthand_values(alloc, shorthand, value)? {
        Some(values) => set(alloc, longhands_of(shorthand), values.as_slice()),
        None => Ok(Declared::Ignored),
    }
}

/// The value of the keyword that is the only token, if every property takes it.
fn wide_value(value: &[CssToken]) -> Option<Simple>
    ensures { result ≡ declarations.wide_of (significant value.now) }
{
    wide(only(value)?)
}

fn own_declared(
    alloc: Global,
    property: Property,
    value: &[CssToken],
) -> Result<Declared, AllocError>
    ensures { IfOk result (λ declared. declared ≡
        declarations.laid (property ∷ []) value.now (declarations.own_value property (significant value.now))) }
{
    if let Some(name) = unlaid_part(value) {
        return Ok(Declared::Refused(name));
    }
    if let Some(wide) = wide_value(value) {
        return Ok(Declared::Set(all_alike(alloc, &[property], wide)?));
    }
    own_value(alloc, property, value)
}

fn short_declared(
    alloc: Global,
    shorthand: Shorthand,
    value: &[CssToken],
) -> Result<Declared, AllocError>
    ensures { IfOk result (λ declared. declared ≡ declarations.laid (all_of shorthand) value.now
        (declarations.set_unless (all_of shorthand) (values_for shorthand (significant value.now)) None)) }
{
    if let Some(name) = unlaid_part(value) {
        return Ok(Declared::Refused(name));
    }
    if let Some(wide) = wide_value(value) {
        return Ok(Declared::Set(all_alike(alloc, longhands_of(shorthand), wide)?));
    }
    short_value(alloc, shorthand, value)
}

/// What the value of a property that isn't laid out says.
fn barred_declared(alloc: Global, barred: Barred, value: &[CssToken]) -> Declared
    ensures { result ≡ declarations.barred_declared barred (only_token (significant value.now)) }
{
    let Some(token) = only(value) else {
        return Declared::Refused(construct_of(barred));
    };
    if wide(token).is_some() || is_revert(token) {
        Declared::Ignored
    } else if one_of(harmless(barred), token).is_some() {
        Declared::Set(List::new(alloc))
    } else {
        Declared::Refused(construct_of(barred))
    }
}

#[tactic(auto, unfolding(crate::specs::Declarations::declared_as))]
fn declared_as(alloc: Global, name: Name, value: &[CssToken]) -> Result<Declared, AllocError>
    ensures { IfOk result (λ declared. declared ≡ declarations.declared_as name value.now) }
{
    match name {
        Name::Own(property) => own_declared(alloc, property, value),
        Name::Short(shorthand) => short_declared(alloc, shorthand, value),
        Name::Barred(barred) => Ok(barred_declared(alloc, barred, value)),
    }
}

/// What a declaration says, by its property's name and the tokens of its value.
///
/// `Ignored` is a name that isn't known, a value off its property's grammar, and a keyword that every property takes on a
/// property that isn't laid out. `Refused` is what isn't laid out. `Set` has the properties that the declaration sets, in
/// the order of the table, and no number in it is negative; a value without effect of a property that isn't laid out sets
/// none.
#[tactic(auto, unfolding(crate::specs::Declarations::declared_of))]
pub fn parse_declaration(
    alloc: Global,
    name: &[u8],
    value: &[CssToken],
) -> Result<Declared, NoMemory>
    ensures { IfOk result (λ declared. declared ≡ declared_of name.now value.now) }
{
    let Some(name) = named(name) else {
        return Ok(Declared::Ignored);
    };
    Ok(declared_as(alloc, name, value)?)
}
