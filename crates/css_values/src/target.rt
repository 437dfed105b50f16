//! What declarations are about, in the order of the tables of properties.

ghost use Rattle.std.specs.Prelude.{◌≡◌, ◌<◌, [], ◌∷◌, ◌++◌, map, slice_get, Some, IfOk};
ghost use Rattle.css_values.specs.Targets as targets;
ghost use Rattle.css_values.specs.Targets.{PlacesAreKnown};
ghost use Rattle.css_values.specs.declared.target.Target.TheVariants.{Laid as IsLaid, Unlaid as IsUnlaid};

use crate::declared::Property;
use crate::name::{Barred, Name, named};
use crate::shorthand::longhands_of;
use mc_base::{List, NoMemory};
use std::alloc::{AllocError, Global};

/// A property that a declaration is about: one that has a value of its own, or one that isn't laid out.
#[derive(Clone, Copy)]
pub enum Target {
    Laid(Property),
    Unlaid(Barred),
}

/// The place of a property in the table of those that have a value of their own, from 0.
#[tactic(auto, unfolding(crate::specs::Targets::property_place))]
pub fn property_place(property: Property) -> usize
    ensures place { result ≡ targets.property_place property }
    ensures within { result < 40 }
{
    match property {
        Property::Display => 0,
        Property::FontSize => 1,
        Property::FontFamily => 2,
        Property::FontWeight => 3,
        Property::FontStyle => 4,
        Property::LineHeight => 5,
        Property::WhiteSpace => 6,
        Property::Hyphens => 7,
        Property::TextAlign => 8,
        Property::Orphans => 9,
        Property::Widows => 10,
        Property::MarginTop => 11,
        Property::MarginRight => 12,
        Property::MarginBottom => 13,
        Property::MarginLeft => 14,
        Property::PaddingTop => 15,
        Property::PaddingRight => 16,
        Property::PaddingBottom => 17,
        Property::PaddingLeft => 18,
        Property::BorderTopWidth => 19,
        Property::BorderRightWidth => 20,
        Property::BorderBottomWidth => 21,
        Property::BorderLeftWidth => 22,
        Property::BorderTopStyle => 23,
        Property::BorderRightStyle => 24,
        Property::BorderBottomStyle => 25,
        Property::BorderLeftStyle => 26,
        Property::Width => 27,
        Property::MaxWidth => 28,
        Property::Height => 29,
        Property::BoxSizing => 30,
        Property::ColumnWidth => 31,
        Property::ColumnCount => 32,
        Property::ColumnGap => 33,
        Property::ColumnFill => 34,
        Property::ColumnSpan => 35,
        Property::BreakBefore => 36,
        Property::BreakAfter => 37,
        Property::BreakInside => 38,
        Property::BoxDecorationBreak => 39,
    }
}

#[tactic(auto, unfolding(crate::specs::Targets::barred_place))]
fn barred_place(barred: Barred) -> usize
    ensures place { result ≡ targets.barred_place barred }
    ensures within { result < 20 }
{
    match barred {
        Barred::Float => 0,
        Barred::Position => 1,
        Barred::Top => 2,
        Barred::Right => 3,
        Barred::Bottom => 4,
        Barred::Left => 5,
        Barred::Overflow => 6,
        Barred::OverflowX => 7,
        Barred::OverflowY => 8,
        Barred::WritingMode => 9,
        Barred::Direction => 10,
        Barred::VerticalAlign => 11,
        Barred::TextIndent => 12,
        Barred::TextTransform => 13,
        Barred::LetterSpacing => 14,
        Barred::WordSpacing => 15,
        Barred::MinWidth => 16,
        Barred::MinHeight => 17,
        Barred::MaxHeight => 18,
        Barred::Font => 19,
    }
}

/// The place of a property in the two tables, from 0: those that aren't laid out come after the others.
pub fn target_place(target: Target) -> usize
    ensures place { result ≡ targets.target_place target }
    ensures within { result < 60 }
{
    match target {
        Target::Laid(property) => property_place(property),
        Target::Unlaid(barred) => 40 + barred_place(barred),
    }
}

/// Each property has its place in the two tables, so no two have one place.
pub fn places_are_known()
    ensures { PlacesAreKnown }
{}

fn one(alloc: Global, target: Target) -> Result<List<Target>, AllocError>
    ensures { IfOk result (λ found. found ≡ target ∷ []) }
{
    let mut found = List::new(alloc);
    found.push(target)?;
    Ok(found)
}

fn all_laid(alloc: Global, properties: &[Property]) -> Result<List<Target>, AllocError>
    ensures { IfOk result (λ found. found ≡ map IsLaid properties.now) }
{
    let mut found = List::new(alloc);
    for property in properties {
        found.push(Target::Laid(*property))?;
    }
    Ok(found)
}

/// What a declaration of this name is about: the property, or each one that the shorthand sets, in the order of the table.
/// Nothing, where no property and no shorthand has this name.
pub fn targets_of(alloc: Global, name: &[u8]) -> Result<List<Target>, NoMemory>
    ensures { IfOk result (λ found. found ≡ targets.targets_of name.now) }
{
    match named(name) {
        None => Ok(List::new(alloc)),
        Some(Name::Own(property)) => Ok(one(alloc, Target::Laid(property))?),
        Some(Name::Short(shorthand)) => Ok(all_laid(alloc, longhands_of(shorthand))?),
        Some(Name::Barred(barred)) => Ok(one(alloc, Target::Unlaid(barred))?),
    }
}
