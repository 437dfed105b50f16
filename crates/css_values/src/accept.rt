//! Tokens as values.

ghost use Rattle.std.specs.Prelude.{◌≡◌, option_map, IfOk};
ghost use Rattle.std.specs.Option.{option_copied};
ghost use Rattle.std.specs.List.{list_any};
ghost use Rattle.css_values.specs.Values as values;
ghost use Rattle.css_values.specs.Options as options;

use crate::declared::Value;
use crate::form::{Form, Simple};
use crate::keyword::{Keyword, Unit, keyword_text, unit_text};
use crate::text::is_same;
use css_data::CssToken;
use mc_base::{Decimal, Text};
use std::alloc::{AllocError, Global};

pub fn is_space(token: &CssToken) -> bool
    ensures { result ≡ values.is_space token.now }
{
    match token {
        CssToken::Space => true,
        _ => false,
    }
}

/// Whether a token is this identifier.
pub fn is_word(word: &[u8], token: &CssToken) -> bool
    ensures { result ≡ values.is_word word.now token.now }
{
    match token {
        CssToken::Ident { text } => is_same(text.as_slice(), word),
        _ => false,
    }
}

/// A number, where 0 has no sign.
fn settled(value: Decimal) -> Decimal
    ensures { result ≡ values.settled value }
{
    Decimal {
        negative: value.negative && value.billionths != 0,
        billionths: value.billionths,
    }
}

fn thousandths(n: u32) -> Decimal
    ensures { result ≡ values.thousandths n }
{
    Decimal {
        negative: false,
        billionths: u64::from(n) * 1_000_000,
    }
}

fn all_units() -> &'static [Unit]
    ensures { result.now ≡ values.units }
{
    &[
        Unit::Px,
        Unit::Em,
        Unit::Rem,
        Unit::Pt,
        Unit::Pc,
        Unit::In,
        Unit::Cm,
        Unit::Mm,
    ]
}

/// The unit of lengths of this name.
#[tactic(auto, unfolding(crate::specs::Values::unit_named))]
pub fn unit_named(text: &[u8]) -> Option<Unit>
    ensures { result ≡ values.unit_named text.now }
{
    let all = all_units();
    for unit in all {
        if is_same(text, unit_text(*unit)) {
            return Some(*unit);
        }
    }
    None
}

/// A number with a unit of lengths, or 0 without one.
fn length(token: &CssToken) -> Option<Simple>
    ensures { result ≡ values.length_at token.now }
{
    match token {
        CssToken::Dimension { value, unit } => {
            let unit = unit_named(unit.as_slice())?;
            Some(Simple::Length(settled(*value), unit))
        }
        CssToken::Number { value, .. } if value.billionths == 0 => {
            Some(Simple::Length(settled(*value), Unit::Px))
        }
        _ => None,
    }
}

fn percent(token: &CssToken) -> Option<Simple>
    ensures { result ≡ values.percent_at token.now }
{
    match token {
        CssToken::Percent { value } => Some(Simple::Percent(settled(*value))),
        _ => None,
    }
}

fn number(token: &CssToken) -> Option<Simple>
    ensures { result ≡ values.number_at token.now }
{
    match token {
        CssToken::Number { value, .. } => Some(Simple::Number(settled(*value))),
        _ => None,
    }
}

/// A number without a point, from 1.
fn whole_number(token: &CssToken) -> Option<Simple>
    ensures { result ≡ values.whole_at token.now }
{
    match token {
        CssToken::Number { value, whole }
            if *whole && !value.negative && value.billionths >= 1_000_000_000 => {
            Some(Simple::Number(*value))
        }
        _ => None,
    }
}

/// A number from 1 to 1000.
fn weight(token: &CssToken) -> Option<Simple>
    ensures { result ≡ values.weight_at token.now }
{
    match token {
        CssToken::Number { value, .. }
            if !value.negative
                && value.billionths >= 1_000_000_000
                && value.billionths <= 1_000_000_000_000 => { Some(Simple::Number(*value)) }
        _ => None,
    }
}

fn zero(token: &CssToken) -> Option<Simple>
    ensures { result ≡ values.zero_at token.now }
{
    match token {
        CssToken::Number { value, .. } if value.billionths == 0 => {
            Some(Simple::Number(settled(*value)))
        }
        _ => None,
    }
}

pub fn is_below_zero(value: Simple) -> bool
    ensures { result ≡ values.is_below_zero value }
{
    match value {
        Simple::Length(value, _) | Simple::Percent(value) | Simple::Number(value) => value.negative,
        _ => false,
    }
}

fn from_zero(value: Option<Simple>) -> Option<Simple>
    ensures { result ≡ values.from_zero value }
{
    let value = value?;
    if is_below_zero(value) {
        None
    } else {
        Some(value)
    }
}

/// A value, where the token is a keyword.
fn if_word(word: Keyword, token: &CssToken, value: Simple) -> Option<Simple>
    ensures { result ≡ options.when (values.is_keyword word token.now) value }
{
    if is_word(keyword_text(word), token) {
        Some(value)
    } else {
        None
    }
}

/// What a token is as a value of one form.
#[tactic(auto, unfolding(crate::specs::Values::accepted))]
fn accepted(form: Form, token: &CssToken) -> Option<Simple>
    ensures { result ≡ values.accepted form token.now }
{
    match form {
        Form::Is(word) => if_word(word, token, Simple::Word(word)),
        Form::As(word, other) => if_word(word, token, Simple::Word(other)),
        Form::AsLength(word, n, unit) => {
            if_word(word, token, Simple::Length(thousandths(n), unit))
        }
        Form::AsNumber(word, n) => if_word(word, token, Simple::Number(thousandths(n))),
        Form::Length => from_zero(length(token)),
        Form::Percent => from_zero(percent(token)),
        Form::PercentAs(word) => {
            from_zero(percent(token))?;
            Some(Simple::Word(word))
        }
        Form::Number => from_zero(number(token)),
        Form::Whole => whole_number(token),
        Form::Weight => weight(token),
        Form::SignedLength => length(token),
        Form::SignedPercent => percent(token),
        Form::Zero => zero(token),
    }
}

/// What a token is as a value of the first of these forms that it has.
pub fn one_of(forms: &[Form], token: &CssToken) -> Option<Simple>
    ensures { result ≡ values.one_of forms.now token.now }
{
    for form in forms {
        let value = accepted(*form, token);
        if value.is_some() {
            return value;
        }
    }
    None
}

/// The value of a keyword that every property takes.
#[tactic(auto, unfolding(crate::specs::Values::wide_at))]
pub fn wide(token: &CssToken) -> Option<Simple>
    ensures { result ≡ values.wide_at token.now }
{
    if is_word(b"inherit", token) {
        Some(Simple::Inherit)
    } else if is_word(b"initial", token) {
        Some(Simple::Initial)
    } else if is_word(b"unset", token) {
        Some(Simple::Unset)
    } else {
        None
    }
}

/// The only token that is no space.
pub fn only(value: &[CssToken]) -> Option<&CssToken>
    ensures { option_copied result ≡ values.only (values.significant value.now) }
{
    let mut found = None;
    for token in value {
        if !is_space(token) {
            if found.is_some() {
                return None;
            }
            found = Some(token);
        }
    }
    found
}

/// Each token that is no space as a value of one of these forms.
#[tactic(auto, using(crate::proofs::Lists::with_front_onto))]
pub fn values(
    alloc: Global,
    forms: &[Form],
    value: &[CssToken],
) -> Result<Option<Vec<Simple>>, AllocError>
    ensures { IfOk result (λ found. option_map (λ v. v.items) found ≡ values.values_of forms.now (values.significant value.now)) }
{
    let mut found = Vec::new(alloc);
    for token in value {
        if !is_space(token) {
            let Some(one) = one_of(forms, token) else {
                return Ok(None);
            };
            found.push(one)?;
        }
    }
    Ok(Some(found))
}

pub fn copied(alloc: Global, bytes: &[u8]) -> Result<Text, AllocError>
    ensures { IfOk result (λ text. text ≡ bytes.now) }
{
    let mut text = Text::new(alloc);
    text.extend(bytes)?;
    Ok(text)
}

/// A value with its texts.
pub fn value_of(alloc: Global, value: Simple) -> Result<Value, AllocError>
    ensures { IfOk result (λ v. v ≡ values.value_of value) }
{
    Ok(match value {
        Simple::Word(word) => Value::Word {
            name: copied(alloc, keyword_text(word))?,
        },
        Simple::Length(value, unit) => Value::Length {
            value,
            unit: copied(alloc, unit_text(unit))?,
        },
        Simple::Percent(value) => Value::Percent { value },
        Simple::Number(value) => Value::Number { value },
        Simple::Inherit => Value::Inherit,
        Simple::Initial => Value::Initial,
        Simple::Unset => Value::Unset,
    })
}
