//! What a declaration says.

use mc_base::{ConstructName, Decimal, List, Text};

/// A property that has a value of its own, in the order of the table of properties.
#[derive(Clone, Copy, Debug, PartialEq, Eq)]
pub enum Property {
    Display,
    FontSize,
    FontFamily,
    FontWeight,
    FontStyle,
    LineHeight,
    WhiteSpace,
    Hyphens,
    TextAlign,
    Orphans,
    Widows,
    MarginTop,
    MarginRight,
    MarginBottom,
    MarginLeft,
    PaddingTop,
    PaddingRight,
    PaddingBottom,
    PaddingLeft,
    BorderTopWidth,
    BorderRightWidth,
    BorderBottomWidth,
    BorderLeftWidth,
    BorderTopStyle,
    BorderRightStyle,
    BorderBottomStyle,
    BorderLeftStyle,
    Width,
    MaxWidth,
    Height,
    BoxSizing,
    ColumnWidth,
    ColumnCount,
    ColumnGap,
    ColumnFill,
    ColumnSpan,
    BreakBefore,
    BreakAfter,
    BreakInside,
    BoxDecorationBreak,
}

/// The value of a property. Words and units are in lower case, and no number is negative.
///
/// `Inherit`, `Initial` and `Unset` are the keywords that every property takes (CSS Cascade 4, section 7.3).
#[derive(Drop)]
pub enum Value {
    Word { name: Text },
    Length { value: Decimal, unit: Text },
    Percent { value: Decimal },
    Number { value: Decimal },
    Names { names: List<Text> },
    Inherit,
    Initial,
    Unset,
}

/// A property with its value.
#[derive(Drop)]
pub struct Longhand {
    pub property: Property,
    pub value: Value,
}

/// What a declaration says: nothing, the values of properties, or what isn't laid out.
#[derive(Drop)]
pub enum Declared {
    Ignored,
    Set(List<Longhand>),
    Refused(ConstructName),
}
