//! The styles of boxes.

ghost use Rattle.std.specs.Prelude.{◌≡◌};
ghost use Rattle.box_data.specs.Styles as definitions;
ghost use Rattle.box_data.specs.Widths as widths;
ghost use Rattle.box_places.specs.Parts as parts;

use box_data::{Align, BoxKind, BoxNode, BoxStyle, Display, Length, SideAmounts, SideLengths};
use break_rules::BreakValue;

fn no_lengths() -> SideLengths
    ensures { result ≡ definitions.no_lengths }
{
    SideLengths {
        top: Length::Units(0),
        right: Length::Units(0),
        bottom: Length::Units(0),
        left: Length::Units(0),
    }
}

fn no_amounts() -> SideAmounts
    ensures { result ≡ definitions.no_amounts }
{
    SideAmounts {
        top: 0,
        right: 0,
        bottom: 0,
        left: 0,
    }
}

/// The initial values.
fn initial() -> BoxStyle
    ensures { result ≡ definitions.initial }
{
    BoxStyle {
        display: Display::Inline,
        size: 1024,
        line: 1228,
        wrap: true,
        keep: false,
        hyphens: true,
        align: Align::Left,
        orphans: 2,
        widows: 2,
        margin: no_lengths(),
        border: no_amounts(),
        padding: no_lengths(),
        width: Length::Auto,
        max_width: Length::Auto,
        height: Length::Auto,
        border_box: false,
        column_count: None,
        column_width: None,
        column_gap: Length::Auto,
        fill_auto: false,
        span_all: false,
        break_before: BreakValue::Auto,
        break_after: BreakValue::Auto,
        avoid_inside: false,
        cloned: false,
        refused: None,
    }
}

/// What an anonymous box has of a style: the inherited properties alone (CSS 2.1, section 9.2.1.1).
fn inherited(style: &BoxStyle) -> BoxStyle
    ensures { result ≡ definitions.inherited style.now }
{
    BoxStyle {
        size: style.size,
        line: style.line,
        wrap: style.wrap,
        keep: style.keep,
        hyphens: style.hyphens,
        align: style.align,
        orphans: style.orphans,
        widows: style.widows,
        ..initial()
    }
}

/// The style of a node.
pub fn style_of(styles: &[BoxStyle], node: u32) -> BoxStyle
    ensures { result ≡ definitions.style_of styles.now node }
{
    match styles.get(node as usize) {
        Some(style) => *style,
        None => initial(),
    }
}

/// The style of a box.
pub fn style_in(styles: &[BoxStyle], node: &BoxNode) -> BoxStyle
    ensures { result ≡ widths.style_in styles.now (parts.node_of node.now) }
{
    let style = style_of(styles, node.element);
    match node.kind {
        BoxKind::Anonymous => inherited(&style),
        BoxKind::Block | BoxKind::Container | BoxKind::ImageBlock => style,
    }
}
