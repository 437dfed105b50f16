//! The styles of a document's boxes.

ghost use Rattle.std.specs.Prelude.{◌≡◌, IfOk};
ghost use Rattle.box_style.specs.Styles.{entry_style as style_by, styles_in};
ghost use Rattle.box_data.specs.Styles as boxes;

use crate::style::box_style;
use box_data::{Align, BoxStyle, Display, Length, SideAmounts, SideLengths};
use break_rules::BreakValue;
use css_cascade::{NodeStyle, Styles};
use mc_base::{List, NoMemory};
use std::alloc::Global;

fn no_lengths() -> SideLengths
    ensures { result ≡ boxes.no_lengths }
{
    SideLengths {
        top: Length::Units(0),
        right: Length::Units(0),
        bottom: Length::Units(0),
        left: Length::Units(0),
    }
}

/// The initial values of all properties.
pub fn initial() -> BoxStyle
    ensures { result ≡ boxes.initial }
{
    BoxStyle {
        display: Display::Inline,
        size: 1024,
        line: 1228,
        wrap: true,
        keep: false,
        hyphens: true,
        align: Align::Left,
        orphans: 2,
        widows: 2,
        margin: no_lengths(),
        border: SideAmounts {
            top: 0,
            right: 0,
            bottom: 0,
            left: 0,
        },
        padding: no_lengths(),
        width: Length::Auto,
        max_width: Length::Auto,
        height: Length::Auto,
        border_box: false,
        column_count: None,
        column_width: None,
        column_gap: Length::Auto,
        fill_auto: false,
        span_all: false,
        break_before: BreakValue::Auto,
        break_after: BreakValue::Auto,
        avoid_inside: false,
        cloned: false,
        refused: None,
    }
}

fn entry_style(entry: &Option<NodeStyle>) -> BoxStyle
    ensures { result ≡ style_by entry.now }
{
    match entry {
        Some(entry) => box_style(&entry.style, entry.refused),
        None => initial(),
    }
}

/// The style of the box of each node, by its number: initial values, where the node is no element.
pub fn box_styles(alloc: Global, styles: &Styles) -> Result<List<BoxStyle>, NoMemory>
    ensures { IfOk result (λ all. all ≡ styles_in styles.now) }
{
    let mut all = List::new(alloc);
    let entries = styles.entries();
    for entry in entries {
        all.push(entry_style(entry))?;
    }
    Ok(all)
}
