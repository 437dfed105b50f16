//! The names of properties.

ghost use Rattle.std.specs.Prelude.{◌≡◌, find};
ghost use Rattle.std.specs.Option.{option_map};
ghost use Rattle.css_values.specs.Names as names;
ghost use Rattle.css_values.specs.Words.{same};

use crate::declared::Property;
use crate::text::is_same;
use mc_base::ConstructName;

/// A property that sets others.
#[derive(Clone, Copy)]
pub enum Shorthand {
    Margin,
    Padding,
    BorderWidth,
    BorderStyle,
    Border,
    BorderTop,
    BorderRight,
    BorderBottom,
    BorderLeft,
    Columns,
    Gap,
    PageBreakBefore,
    PageBreakAfter,
    PageBreakInside,
}

/// A property that isn't laid out.
#[derive(Clone, Copy)]
pub enum Barred {
    Float,
    Position,
    Top,
    Right,
    Bottom,
    Left,
    Overflow,
    OverflowX,
    OverflowY,
    WritingMode,
    Direction,
    VerticalAlign,
    TextIndent,
    TextTransform,
    LetterSpacing,
    WordSpacing,
    MinWidth,
    MinHeight,
    MaxHeight,
    Font,
}

/// What the name of a declaration names.
#[derive(Clone, Copy)]
pub enum Name {
    Own(Property),
    Short(Shorthand),
    Barred(Barred),
}

/// The properties that are laid out, in the order of their places.
pub fn all_properties() -> &'static [Property]
    ensures { result.now ≡ names.properties }
{
    &[
        Property::Display,
        Property::FontSize,
        Property::FontFamily,
        Property::FontWeight,
        Property::FontStyle,
        Property::LineHeight,
        Property::WhiteSpace,
        Property::Hyphens,
        Property::TextAlign,
        Property::Orphans,
        Property::Widows,
        Property::MarginTop,
        Property::MarginRight,
        Property::MarginBottom,
        Property::MarginLeft,
        Property::PaddingTop,
        Property::PaddingRight,
        Property::PaddingBottom,
        Property::PaddingLeft,
        Property::BorderTopWidth,
        Property::BorderRightWidth,
        Property::BorderBottomWidth,
        Property::BorderLeftWidth,
        Property::BorderTopStyle,
        Property::BorderRightStyle,
        Property::BorderBottomStyle,
        Property::BorderLeftStyle,
        Property::Width,
        Property::MaxWidth,
        Property::Height,
        Property::BoxSizing,
        Property::ColumnWidth,
        Property::ColumnCount,
        Property::ColumnGap,
        Property::ColumnFill,
        Property::ColumnSpan,
        Property::BreakBefore,
        Property::BreakAfter,
        Property::BreakInside,
        Property::BoxDecorationBreak,
    ]
}

fn all_shorthands() -> &'static [Shorthand]
    ensures { result.now ≡ names.shorthands }
{
    &[
        Shorthand::Margin,
        Shorthand::Padding,
        Shorthand::BorderWidth,
        Shorthand::BorderStyle,
        Shorthand::Border,
        Shorthand::BorderTop,
        Shorthand::BorderRight,
        Shorthand::BorderBottom,
        Shorthand::BorderLeft,
        Shorthand::Columns,
        Shorthand::Gap,
        Shorthand::PageBreakBefore,
        Shorthand::PageBreakAfter,
        Shorthand::PageBreakInside,
    ]
}

fn all_barred() -> &'static [Barred]
    ensures { result.now ≡ names.barred_properties }
{
    &[
        Barred::Float,
        Barred::Position,
        Barred::Top,
        Barred::Right,
        Barred::Bottom,
        Barred::Left,
        Barred::Overflow,
        Barred::OverflowX,
        Barred::OverflowY,
        Barred::WritingMode,
        Barred::Direction,
        Barred::VerticalAlign,
        Barred::TextIndent,
        Barred::TextTransform,
        Barred::LetterSpacing,
        Barred::WordSpacing,
        Barred::MinWidth,
        Barred::MinHeight,
        Barred::MaxHeight,
        Barred::Font,
    ]
}

#[tactic(auto, unfolding(crate::specs::Names::property_name))]
fn property_name(property: Property) -> &'static [u8]
    ensures { result.now ≡ names.property_name property }
{
    match property {
        Property::Display => b"display",
        Property::FontSize => b"font-size",
        Property::FontFamily => b"font-family",
        Property::FontWeight => b"font-weight",
        Property::FontStyle => b"font-style",
        Property::LineHeight => b"line-height",
        Property::WhiteSpace => b"white-space",
        Property::Hyphens => b"hyphens",
        Property::TextAlign => b"text-align",
        Property::Orphans => b"orphans",
        Property::Widows => b"widows",
        Property::MarginTop => b"margin-top",
        Property::MarginRight => b"margin-right",
        Property::MarginBottom => b"margin-bottom",
        Property::MarginLeft => b"margin-left",
        Property::PaddingTop => b"padding-top",
        Property::PaddingRight => b"padding-right",
        Property::PaddingBottom => b"padding-bottom",
        Property::PaddingLeft => b"padding-left",
        Property::BorderTopWidth => b"border-top-width",
        Property::BorderRightWidth => b"border-right-width",
        Property::BorderBottomWidth => b"border-bottom-width",
        Property::BorderLeftWidth => b"border-left-width",
        Property::BorderTopStyle => b"border-top-style",
        Property::BorderRightStyle => b"border-right-style",
        Property::BorderBottomStyle => b"border-bottom-style",
        Property::BorderLeftStyle => b"border-left-style",
        Property::Width => b"width",
        Property::MaxWidth => b"max-width",
        Property::Height => b"height",
        Property::BoxSizing => b"box-sizing",
        Property::ColumnWidth => b"column-width",
        Property::ColumnCount => b"column-count",
        Property::ColumnGap => b"column-gap",
        Property::ColumnFill => b"column-fill",
        Property::ColumnSpan => b"column-span",
        Property::BreakBefore => b"break-before",
        Property::BreakAfter => b"break-after",
        Property::BreakInside => b"break-inside",
        Property::BoxDecorationBreak => b"box-decoration-break",
    }
}

#[tactic(auto, unfolding(crate::specs::Names::shorthand_name))]
fn shorthand_name(shorthand: Shorthand) -> &'static [u8]
    ensures { result.now ≡ names.shorthand_name shorthand }
{
    match shorthand {
        Shorthand::Margin => b"margin",
        Shorthand::Padding => b"padding",
        Shorthand::BorderWidth => b"border-width",
        Shorthand::BorderStyle => b"border-style",
        Shorthand::Border => b"border",
        Shorthand::BorderTop => b"border-top",
        Shorthand::BorderRight => b"border-right",
        Shorthand::BorderBottom => b"border-bottom",
        Shorthand::BorderLeft => b"border-left",
        Shorthand::Columns => b"columns",
        Shorthand::Gap => b"gap",
        Shorthand::PageBreakBefore => b"page-break-before",
        Shorthand::PageBreakAfter => b"page-break-after",
        Shorthand::PageBreakInside => b"page-break-inside",
    }
}

#[tactic(auto, unfolding(crate::specs::Names::barred_name))]
fn barred_name(barred: Barred) -> &'static [u8]
    ensures { result.now ≡ names.barred_name barred }
{
    match barred {
        Barred::Float => b"float",
        Barred::Position => b"position",
        Barred::Top => b"top",
        Barred::Right => b"right",
        Barred::Bottom => b"bottom",
        Barred::Left => b"left",
        Barred::Overflow => b"overflow",
        Barred::OverflowX => b"overflow-x",
        Barred::OverflowY => b"overflow-y",
        Barred::WritingMode => b"writing-mode",
        Barred::Direction => b"direction",
        Barred::VerticalAlign => b"vertical-align",
        Barred::TextIndent => b"text-indent",
        Barred::TextTransform => b"text-transform",
        Barred::LetterSpacing => b"letter-spacing",
        Barred::WordSpacing => b"word-spacing",
        Barred::MinWidth => b"min-width",
        Barred::MinHeight => b"min-height",
        Barred::MaxHeight => b"max-height",
        Barred::Font => b"font",
    }
}

/// The construct that a property of this kind is refused as.
#[tactic(auto, unfolding(crate::specs::Names::construct_of))]
pub fn construct_of(barred: Barred) -> ConstructName
    ensures { result ≡ names.construct_of barred }
{
    match barred {
        Barred::Float => ConstructName::Float,
        Barred::Position => ConstructName::Position,
        Barred::Top => ConstructName::Top,
        Barred::Right => ConstructName::Right,
        Barred::Bottom => ConstructName::Bottom,
        Barred::Left => ConstructName::Left,
        Barred::Overflow => ConstructName::Overflow,
        Barred::OverflowX => ConstructName::OverflowX,
        Barred::OverflowY => ConstructName::OverflowY,
        Barred::WritingMode => ConstructName::WritingMode,
        Barred::Direction => ConstructName::Direction,
        Barred::VerticalAlign => ConstructName::VerticalAlign,
        Barred::TextIndent => ConstructName::TextIndent,
        Barred::TextTransform => ConstructName::TextTransform,
        Barred::LetterSpacing => ConstructName::LetterSpacing,
        Barred::WordSpacing => ConstructName::WordSpacing,
        Barred::MinWidth => ConstructName::MinWidth,
        Barred::MinHeight => ConstructName::MinHeight,
        Barred::MaxHeight => ConstructName::MaxHeight,
        Barred::Font => ConstructName::Font,
    }
}

#[tactic(auto, unfolding(crate::specs::Names::property_named))]
fn property_named(name: &[u8]) -> Option<Property>
    ensures { result ≡ names.property_named name.now }
{
    let all = all_properties();
    for property in all {
        if is_same(name, property_name(*property)) {
            return Some(*property);
        }
    }
    None
}

#[tactic(auto, unfolding(crate::specs::Names::shorthand_named))]
fn shorthand_named(name: &[u8]) -> Option<Shorthand>
    ensures { result ≡ names.shorthand_named name.now }
{
    let all = all_shorthands();
    for shorthand in all {
        if is_same(name, shorthand_name(*shorthand)) {
            return Some(*shorthand);
        }
    }
    None
}

#[tactic(auto, unfolding(crate::specs::Names::barred_named))]
fn barred_named(name: &[u8]) -> Option<Barred>
    ensures { result ≡ names.barred_named name.now }
{
    let all = all_barred();
    for barred in all {
        if is_same(name, barred_name(*barred)) {
            return Some(*barred);
        }
    }
    None
}

/// What this name names: letters are compared without ASCII case.
pub fn named(name: &[u8]) -> Option<Name>
    ensures { result ≡ names.named name.now }
{
    if let Some(property) = property_named(name) {
        return Some(Name::Own(property));
    }
    if let Some(shorthand) = shorthand_named(name) {
        return Some(Name::Short(shorthand));
    }
    let barred = barred_named(name)?;
    Some(Name::Barred(barred))
}
