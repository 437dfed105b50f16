//! The table of properties.

ghost use Rattle.std.specs.Prelude.{◌≡◌};
ghost use Rattle.css_values.specs.Table as table;

use crate::declared::Property;
use crate::form::Form;
use crate::keyword::{Keyword, Unit};
use crate::name::Barred;

pub fn margin() -> &'static [Form]
    ensures { result.now ≡ table.margin }
{
    &[
        Form::SignedLength,
        Form::SignedPercent,
        Form::Is(Keyword::Auto),
    ]
}

pub fn padding() -> &'static [Form]
    ensures { result.now ≡ table.padding }
{
    &[Form::Length, Form::Percent]
}

pub fn border_width() -> &'static [Form]
    ensures { result.now ≡ table.border_width }
{
    &[
        Form::Length,
        Form::AsLength(Keyword::Thin, 1_000, Unit::Px),
        Form::AsLength(Keyword::Medium, 3_000, Unit::Px),
        Form::AsLength(Keyword::Thick, 5_000, Unit::Px),
    ]
}

pub fn border_style() -> &'static [Form]
    ensures { result.now ≡ table.border_style }
{
    &[
        Form::Is(Keyword::None),
        Form::Is(Keyword::Hidden),
        Form::Is(Keyword::Dotted),
        Form::Is(Keyword::Dashed),
        Form::Is(Keyword::Solid),
        Form::Is(Keyword::Double),
        Form::Is(Keyword::Groove),
        Form::Is(Keyword::Ridge),
        Form::Is(Keyword::Inset),
        Form::Is(Keyword::Outset),
    ]
}

pub fn column_gap() -> &'static [Form]
    ensures { result.now ≡ table.column_gap }
{
    &[Form::Is(Keyword::Normal), Form::Length, Form::Percent]
}

pub fn break_between() -> &'static [Form]
    ensures { result.now ≡ table.break_between }
{
    &[
        Form::Is(Keyword::Auto),
        Form::Is(Keyword::Avoid),
        Form::As(Keyword::AvoidColumn, Keyword::Avoid),
        Form::Is(Keyword::Column),
        Form::As(Keyword::AvoidPage, Keyword::Auto),
        Form::As(Keyword::Page, Keyword::Auto),
        Form::As(Keyword::Left, Keyword::Auto),
        Form::As(Keyword::Right, Keyword::Auto),
        Form::As(Keyword::Recto, Keyword::Auto),
        Form::As(Keyword::Verso, Keyword::Auto),
        Form::As(Keyword::AvoidRegion, Keyword::Auto),
        Form::As(Keyword::Region, Keyword::Auto),
    ]
}

pub fn columns() -> &'static [Form]
    ensures { result.now ≡ table.columns }
{
    &[Form::Is(Keyword::Auto), Form::Length, Form::Whole]
}

pub fn page_break() -> &'static [Form]
    ensures { result.now ≡ table.page_break }
{
    &[
        Form::Is(Keyword::Auto),
        Form::Is(Keyword::Avoid),
        Form::As(Keyword::Always, Keyword::Auto),
        Form::As(Keyword::Left, Keyword::Auto),
        Form::As(Keyword::Right, Keyword::Auto),
    ]
}

pub fn page_break_inside() -> &'static [Form]
    ensures { result.now ≡ table.page_break_inside }
{
    &[Form::Is(Keyword::Auto), Form::Is(Keyword::Avoid)]
}

/// What the value of a property may be.
#[tactic(auto, unfolding(crate::specs::Table::grammar_of))]
pub fn grammar(property: Property) -> &'static [Form]
    ensures { result.now ≡ table.grammar_of property }
{
    match property {
        Property::Display => &[
            Form::Is(Keyword::Inline),
            Form::Is(Keyword::Block),
            Form::Is(Keyword::ListItem),
            Form::Is(Keyword::None),
        ],
        Property::FontSize => &[
            Form::Length,
            Form::Percent,
            Form::AsLength(Keyword::XxSmall, 9_000, Unit::Px),
            Form::AsLength(Keyword::XSmall, 10_000, Unit::Px),
            Form::AsLength(Keyword::Small, 13_000, Unit::Px),
            Form::AsLength(Keyword::Medium, 16_000, Unit::Px),
            Form::AsLength(Keyword::Large, 18_000, Unit::Px),
            Form::AsLength(Keyword::XLarge, 24_000, Unit::Px),
            Form::AsLength(Keyword::XxLarge, 32_000, Unit::Px),
            Form::AsLength(Keyword::Smaller, 800, Unit::Em),
            Form::AsLength(Keyword::Larger, 1_200, Unit::Em),
        ],
        Property::FontFamily => &[],
        Property::FontWeight => &[
            Form::Is(Keyword::Normal),
            Form::Is(Keyword::Bold),
            Form::As(Keyword::Bolder, Keyword::Bold),
            Form::As(Keyword::Lighter, Keyword::Normal),
            Form::Weight,
        ],
        Property::FontStyle => &[
            Form::Is(Keyword::Normal),
            Form::Is(Keyword::Italic),
            Form::As(Keyword::Oblique, Keyword::Italic),
        ],
        Property::LineHeight => &[
            Form::AsNumber(Keyword::Normal, 1_200),
            Form::Number,
            Form::Length,
            Form::Percent,
        ],
        Property::WhiteSpace => &[
            Form::Is(Keyword::Normal),
            Form::Is(Keyword::Nowrap),
            Form::Is(Keyword::Pre),
        ],
        Property::Hyphens => &[
            Form::Is(Keyword::Manual),
            Form::Is(Keyword::None),
            Form::As(Keyword::Auto, Keyword::Manual),
        ],
        Property::TextAlign => &[
            Form::Is(Keyword::Left),
            Form::As(Keyword::Start, Keyword::Left),
            Form::As(Keyword::Justify, Keyword::Left),
            Form::Is(Keyword::Right),
            Form::As(Keyword::End, Keyword::Right),
            Form::Is(Keyword::Center),
        ],
        Property::Orphans | Property::Widows => &[Form::Whole],
        Property::MarginTop
        | Property::MarginRight
        | Property::MarginBottom
        | Property::MarginLeft => margin(),
        Property::PaddingTop
        | Property::PaddingRight
        | Property::PaddingBottom
        | Property::PaddingLeft => padding(),
        Property::BorderTopWidth
        | Property::BorderRightWidth
        | Property::BorderBottomWidth
        | Property::BorderLeftWidth => border_width(),
        Property::BorderTopStyle
        | Property::BorderRightStyle
        | Property::BorderBottomStyle
        | Property::BorderLeftStyle => border_style(),
        Property::Width => &[Form::Is(Keyword::Auto), Form::Length, Form::Percent],
        Property::MaxWidth => &[Form::Is(Keyword::None), Form::Length, Form::Percent],
        Property::Height => &[
            Form::Is(Keyword::Auto),
            Form::Length,
            Form::PercentAs(Keyword::Auto),
        ],
        Property::BoxSizing => &[Form::Is(Keyword::ContentBox), Form::Is(Keyword::BorderBox)],
        Property::ColumnWidth => &[Form::Is(Keyword::Auto), Form::Length],
        Property::ColumnCount => &[Form::Is(Keyword::Auto), Form::Whole],
        Property::ColumnGap => column_gap(),
        Property::ColumnFill => &[
            Form::Is(Keyword::Balance),
            Form::Is(Keyword::Auto),
            Form::Is(Keyword::BalanceAll),
        ],
        Property::ColumnSpan => &[Form::Is(Keyword::None), Form::Is(Keyword::All)],
        Property::BreakBefore | Property::BreakAfter => break_between(),
        Property::BreakInside => &[
            Form::Is(Keyword::Auto),
            Form::Is(Keyword::Avoid),
            Form::As(Keyword::AvoidColumn, Keyword::Avoid),
            Form::As(Keyword::AvoidPage, Keyword::Auto),
            Form::As(Keyword::AvoidRegion, Keyword::Auto),
        ],
        Property::BoxDecorationBreak => &[Form::Is(Keyword::Slice), Form::Is(Keyword::Clone)],
    }
}

/// The values without effect of a property that isn't laid out.
#[tactic(auto, unfolding(crate::specs::Table::harmless))]
pub fn harmless(barred: Barred) -> &'static [Form]
    ensures { result.now ≡ table.harmless barred }
{
    match barred {
        Barred::Float | Barred::TextTransform | Barred::MaxHeight => &[Form::Is(Keyword::None)],
        Barred::Position => &[Form::Is(Keyword::Static), Form::Is(Keyword::Relative)],
        Barred::Top
        | Barred::Right
        | Barred::Bottom
        | Barred::Left
        | Barred::MinWidth
        | Barred::MinHeight => &[Form::Is(Keyword::Auto), Form::Zero],
        Barred::Overflow | Barred::OverflowX | Barred::OverflowY => &[Form::Is(Keyword::Visible)],
        Barred::WritingMode => &[Form::Is(Keyword::HorizontalTb)],
        Barred::Direction => &[Form::Is(Keyword::Ltr)],
        Barred::VerticalAlign => &[Form::Is(Keyword::Baseline)],
        Barred::TextIndent => &[Form::Zero],
        Barred::LetterSpacing | Barred::WordSpacing => &[Form::Is(Keyword::Normal), Form::Zero],
        Barred::Font => &[],
    }
}
