//! The table of properties.

ghost use Rattle.std.specs.Prelude.{◌≡◌, ◌<◌, ◌^◌, IfOk};
ghost use Rattle.css_computed.specs.Table as tables;
ghost use Rattle.css_computed.specs.Table.{table};

use crate::copying::copied_text;
use crate::style::Computed;
use css_values::Property;
use mc_base::{Decimal, List, NoMemory};
use std::alloc::Global;

pub fn word(alloc: Global, name: &[u8]) -> Result<Computed, NoMemory>
    ensures { IfOk result (λ value. value ≡ Computed.Word name.now) }
{
    Ok(Computed::Word {
        name: copied_text(alloc, name)?,
    })
}

/// A number, in thousandths.
pub fn number(thousandths: u32) -> Computed
    ensures { result ≡ tables.number thousandths }
{
    Computed::Number {
        value: Decimal {
            negative: false,
            billionths: u64::from(thousandths) * 1_000_000,
        },
    }
}

fn px(n: u32) -> Computed
    ensures { result ≡ tables.px n }
{
    Computed::Length {
        units: u64::from(n) * 64,
    }
}

/// The initial value of a property.
#[tactic(auto, unfolding(crate::specs::Table::table))]
pub fn initial(alloc: Global, property: Property) -> Result<Computed, NoMemory>
    ensures { IfOk result (λ value. value ≡ (table property).initial) }
{
    match property {
        Property::Display => word(alloc, b"inline"),
        Property::FontSize => Ok(px(16)),
        Property::FontFamily => Ok(Computed::Names {
            names: List::new(alloc),
        }),
        Property::FontWeight => Ok(number(400_000)),
        Property::FontStyle | Property::WhiteSpace | Property::ColumnGap => word(alloc, b"normal"),
        Property::LineHeight => Ok(number(1_200)),
        Property::Hyphens => word(alloc, b"manual"),
        Property::TextAlign => word(alloc, b"left"),
        Property::Orphans | Property::Widows => Ok(number(2_000)),
        Property::MarginTop
        | Property::MarginRight
        | Property::MarginBottom
        | Property::MarginLeft
        | Property::PaddingTop
        | Property::PaddingRight
        | Property::PaddingBottom
        | Property::PaddingLeft => Ok(px(0)),
        Property::BorderTopWidth
        | Property::BorderRightWidth
        | Property::BorderBottomWidth
        | Property::BorderLeftWidth => Ok(px(3)),
        Property::BorderTopStyle
        | Property::BorderRightStyle
        | Property::BorderBottomStyle
        | Property::BorderLeftStyle
        | Property::MaxWidth
        | Property::ColumnSpan => word(alloc, b"none"),
        Property::Width
        | Property::Height
        | Property::ColumnWidth
        | Property::ColumnCount
        | Property::BreakBefore
        | Property::BreakAfter
        | Property::BreakInside => word(alloc, b"auto"),
        Property::BoxSizing => word(alloc, b"content-box"),
        Property::ColumnFill => word(alloc, b"balance"),
        Property::BoxDecorationBreak => word(alloc, b"slice"),
    }
}

/// Whether a child takes its parent's value where nothing is set for it.
#[tactic(auto, unfolding(crate::specs::Table::table))]
pub fn is_inherited(property: Property) -> bool
    ensures { result ≡ (table property).inherited }
{
    match property {
        Property::FontSize
        | Property::FontFamily
        | Property::FontWeight
        | Property::FontStyle
        | Property::LineHeight
        | Property::WhiteSpace
        | Property::Hyphens
        | Property::TextAlign
        | Property::Orphans
        | Property::Widows => true,
        _ => false,
    }
}
