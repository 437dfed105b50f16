//! Shorthands: the values that they give to the properties that they set.

ghost use Rattle.std.specs.Prelude.{◌≡◌, [], ◌∷◌, IfOk};
ghost use Rattle.std.specs.Option.{option_map};
ghost use Rattle.css_values.specs.Shorthands as shorthands;
ghost use Rattle.css_values.specs.Values.{significant};

use crate::accept::values;
use crate::border::border;
use crate::declared::Property;
use crate::form::{Form, Simple};
use crate::keyword::Keyword;
use crate::name::Shorthand;
use crate::table::{
    border_style, border_width, column_gap, columns, margin, padding, page_break, page_break_inside,
};
use css_data::CssToken;
use std::alloc::{AllocError, Global};

/// The properties that a shorthand sets.
#[tactic(auto, unfolding(crate::specs::Shorthands::longhands_of))]
pub fn longhands_of(shorthand: Shorthand) -> &'static [Property]
    ensures { result.now ≡ shorthands.longhands_of shorthand }
{
    match shorthand {
        Shorthand::Margin => &[
            Property::MarginTop,
            Property::MarginRight,
            Property::MarginBottom,
            Property::MarginLeft,
        ],
        Shorthand::Padding => &[
            Property::PaddingTop,
            Property::PaddingRight,
            Property::PaddingBottom,
            Property::PaddingLeft,
        ],
        Shorthand::BorderWidth => &[
            Property::BorderTopWidth,
            Property::BorderRightWidth,
            Property::BorderBottomWidth,
            Property::BorderLeftWidth,
        ],
        Shorthand::BorderStyle => &[
            Property::BorderTopStyle,
            Property::BorderRightStyle,
            Property::BorderBottomStyle,
            Property::BorderLeftStyle,
        ],
        Shorthand::Border => &[
            Property::BorderTopWidth,
            Property::BorderRightWidth,
            Property::BorderBottomWidth,
            Property::BorderLeftWidth,
            Property::BorderTopStyle,
            Property::BorderRightStyle,
            Property::BorderBottomStyle,
            Property::BorderLeftStyle,
        ],
        Shorthand::BorderTop => &[Property::BorderTopWidth, Property::BorderTopStyle],
        Shorthand::BorderRight => &[Property::BorderRightWidth, Property::BorderRightStyle],
        Shorthand::BorderBottom => &[Property::BorderBottomWidth, Property::BorderBottomStyle],
        Shorthand::BorderLeft => &[Property::BorderLeftWidth, Property::BorderLeftStyle],
        Shorthand::Columns => &[Property::ColumnWidth, Property::ColumnCount],
        Shorthand::Gap => &[Property::ColumnGap],
        Shorthand::PageBreakBefore => &[Property::BreakBefore],
        Shorthand::PageBreakAfter => &[Property::BreakAfter],
        Shorthand::PageBreakInside => &[Property::BreakInside],
    }
}

/// The values of the top, right, bottom and left side.
fn sides(given: &[Simple]) -> Option<[Simple; 4]>
    ensures { result ≡ shorthands.sides given.now }
{
    match given {
        [top] => Some([*top, *top, *top, *top]),
        [top, right] => Some([*top, *right, *top, *right]),
        [top, right, bottom] => Some([*top, *right, *bottom, *right]),
        [top, right, bottom, left] => Some([*top, *right, *bottom, *left]),
        _ => None,
    }
}

/// The one value.
fn single(given: &[Simple]) -> Option<[Simple; 1]>
    ensures { result ≡ shorthands.single given.now }
{
    match given {
        [value] => Some([*value]),
        _ => None,
    }
}

/// The gap between columns.
fn last_gap(given: &[Simple]) -> Option<[Simple; 1]>
    ensures { result ≡ shorthands.last_gap given.now }
{
    match given {
        [both] => Some([*both]),
        [_, columns] => Some([*columns]),
        _ => None,
    }
}

fn length_or(value: Simple, other: Simple) -> Simple
    ensures { result ≡ shorthands.length_or value other }
{
    match value {
        Simple::Length(..) => value,
        _ => other,
    }
}

fn number_or(value: Simple, other: Simple) -> Simple
    ensures { result ≡ shorthands.number_or value other }
{
    match value {
        Simple::Number(..) => value,
        _ => other,
    }
}

/// Whether these aren't two widths or two counts.
fn may_join(a: Simple, b: Simple) -> bool
    ensures { result ≡ shorthands.may_join a b }
{
    match (a, b) {
        (Simple::Length(..), Simple::Length(..)) => false,
        (Simple::Number(..), Simple::Number(..)) => false,
        _ => true,
    }
}

/// The width and the count of columns.
fn width_and_count(given: &[Simple]) -> Option<[Simple; 2]>
    ensures { result ≡ shorthands.width_and_count given.now }
{
    let auto = Simple::Word(Keyword::Auto);
    match given {
        [a] => Some([length_or(*a, auto), number_or(*a, auto)]),
        [a, b] if may_join(*a, *b) => Some([
            length_or(*a, length_or(*b, auto)),
            number_or(*a, number_or(*b, auto)),
        ]),
        _ => None,
    }
}

fn four_sides(
    alloc: Global,
    forms: &[Form],
    value: &[CssToken],
) -> Result<Option<Vec<Simple>>, AllocError>
    ensures { IfOk result (λ found. option_map (λ v. v.items) found ≡ shorthands.four_values forms.now (significant value.now)) }
{
    let Some(given) = values(alloc, forms, value)? else {
        return Ok(None);
    };
    let Some(four) = sides(given.as_slice()) else {
        return Ok(None);
    };
    Ok(Some(Vec::from_array(alloc, four)?))
}

/// One value, which is of one of these forms.
pub fn one_value(
    alloc: Global,
    forms: &[Form],
    value: &[CssToken],
) -> Result<Option<Vec<Simple>>, AllocError>
    ensures { IfOk result (λ found. option_map (λ v. v.items) found ≡ shorthands.one_value forms.now (significant value.now)) }
{
    let Some(given) = values(alloc, forms, value)? else {
        return Ok(None);
    };
    let Some(one) = single(given.as_slice()) else {
        return Ok(None);
    };
    Ok(Some(Vec::from_array(alloc, one)?))
}

fn gap(alloc: Global, value: &[CssToken]) -> Result<Option<Vec<Simple>>, AllocError>
    ensures { IfOk result (λ found. option_map (λ v. v.items) found ≡ shorthands.gap_values (significant value.now)) }
{
    let Some(given) = values(alloc, column_gap(), value)? else {
        return Ok(None);
    };
    let Some(one) = last_gap(given.as_slice()) else {
        return Ok(None);
    };
    Ok(Some(Vec::from_array(alloc, one)?))
}

fn column_pair(alloc: Global, value: &[CssToken]) -> Result<Option<Vec<Simple>>, AllocError>
    ensures { IfOk result (λ found. option_map (λ v. v.items) found ≡ shorthands.column_values (significant value.now)) }
{
    let Some(given) = values(alloc, columns(), value)? else {
        return Ok(None);
    };
    let Some(two) = width_and_count(given.as_slice()) else {
        return Ok(None);
    };
    Ok(Some(Vec::from_array(alloc, two)?))
}

/// The values that a shorthand gives to the properties that it sets, in their order.
#[tactic(auto, unfolding(crate::specs::Shorthands::shorthand_values))]
pub fn shorthand_values(
    alloc: Global,
    shorthand: Shorthand,
    value: &[CssToken],
) -> Result<Option<Vec<Simple>>, AllocError>
    ensures { IfOk result (λ found. option_map (λ v. v.items) found ≡
        shorthands.shorthand_values shorthand (significant value.now)) }
{
    match shorthand {
        Shorthand::Margin => four_sides(alloc, margin(), value),
        Shorthand::Padding => four_sides(alloc, padding(), value),
        Shorthand::BorderWidth => four_sides(alloc, border_width(), value),
        Shorthand::BorderStyle => four_sides(alloc, border_style(), value),
        Shorthand::Border => border(alloc, true, value),
        Shorthand::BorderTop
        | Shorthand::BorderRight
        | Shorthand::BorderBottom
        | Shorthand::BorderLeft => border(alloc, false, value),
        Shorthand::Columns => column_pair(alloc, value),
        Shorthand::Gap => gap(alloc, value),
        Shorthand::PageBreakBefore | Shorthand::PageBreakAfter => {
            one_value(alloc, page_break(), value)
        }
        Shorthand::PageBreakInside => one_value(alloc, page_break_inside(), value),
    }
}
