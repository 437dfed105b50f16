//! The style of a box.

ghost use Rattle.std.specs.Prelude.{◌≡◌};
ghost use Rattle.box_style.specs.Styles as styles;

use crate::value::{
    align_of, amount_of, break_of, column_count_of, column_width_of, count_of, display_of, is_word,
    length_of, line_of,
};
use box_data::{BoxStyle, SideAmounts, SideLengths};
use css_computed::Style;
use mc_base::ConstructName;

fn margin_of(style: &Style) -> SideLengths
    ensures { result ≡ styles.margin_of style.now }
{
    SideLengths {
        top: length_of(&style.margin_top),
        right: length_of(&style.margin_right),
        bottom: length_of(&style.margin_bottom),
        left: length_of(&style.margin_left),
    }
}

fn border_of(style: &Style) -> SideAmounts
    ensures { result ≡ styles.border_of style.now }
{
    SideAmounts {
        top: amount_of(&style.border_top_width),
        right: amount_of(&style.border_right_width),
        bottom: amount_of(&style.border_bottom_width),
        left: amount_of(&style.border_left_width),
    }
}

fn padding_of(style: &Style) -> SideLengths
    ensures { result ≡ styles.padding_of style.now }
{
    SideLengths {
        top: length_of(&style.padding_top),
        right: length_of(&style.padding_right),
        bottom: length_of(&style.padding_bottom),
        left: length_of(&style.padding_left),
    }
}

/// The style of a box, by the computed style of its element and the first winning declaration that isn't laid out.
///
/// Lengths are in units, and a percentage is kept as one. It takes no memory.
pub fn box_style(style: &Style, refused: Option<ConstructName>) -> BoxStyle
    ensures { result ≡ styles.box_style_of style.now refused }
{
    let size = amount_of(&style.font_size);
    BoxStyle {
        display: display_of(&style.display),
        size,
        line: line_of(&style.line_height, size),
        wrap: is_word(&style.white_space, b"normal"),
        keep: is_word(&style.white_space, b"pre"),
        hyphens: is_word(&style.hyphens, b"manual"),
        align: align_of(&style.text_align),
        orphans: count_of(&style.orphans),
        widows: count_of(&style.widows),
        margin: margin_of(style),
        border: border_of(style),
        padding: padding_of(style),
        width: length_of(&style.width),
        max_width: length_of(&style.max_width),
        height: length_of(&style.height),
        border_box: is_word(&style.box_sizing, b"border-box"),
        column_count: column_count_of(&style.column_count),
        column_width: column_width_of(&style.column_width),
        column_gap: length_of(&style.column_gap),
        fill_auto: is_word(&style.column_fill, b"auto"),
        span_all: is_word(&style.column_span, b"all"),
        break_before: break_of(&style.break_before),
        break_after: break_of(&style.break_after),
        avoid_inside: is_word(&style.break_inside, b"avoid"),
        cloned: is_word(&style.box_decoration_break, b"clone"),
        refused,
    }
}
