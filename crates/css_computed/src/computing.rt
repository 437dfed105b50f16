//! The style of an element.

ghost use Rattle.std.specs.Prelude.{◌≡◌, IfOk};
ghost use Rattle.std.specs.Option.{option_copied};
ghost use Rattle.css_values.specs.declared.declared.Property.{Property};
ghost use Rattle.css_computed.specs.declared.style.Computed.{Computed};
ghost use Rattle.css_computed.specs.Styles.{style_by};
ghost use Rattle.css_computed.specs.Computing as computing;
ghost use Rattle.css_computed.specs.Computing.{with_widths, computed_value};
ghost use Rattle.css_computed.specs.Parts as parts;

use crate::length::FontSizes;
use crate::parts::{BoxPart, ColumnPart, Element, Sides, TextPart};
use crate::style::{Computed, Style};
use crate::value::{length_or, value_at, width_beside};
use crate::winning::Winning;
use css_values::Property;
use mc_base::{NoMemory, Units};
use std::alloc::Global;

/// The initial font size: 16px.
const MEDIUM: Units = 1024;

/// The font size of an element's parent, and at the root the initial one.
fn parent_size(parent: Option<&Style>) -> Units
    ensures { result ≡ computing.parent_size (option_copied parent.entry) }
{
    match parent {
        Some(parent) => length_or(MEDIUM, &parent.font_size),
        None => MEDIUM,
    }
}

/// The font size of an element.
fn own_size(
    alloc: Global,
    winning: &Winning,
    parent: Option<&Style>,
    root: Option<Units>,
) -> Result<Units, NoMemory>
    ensures { IfOk result (λ size. size ≡ computing.own_size winning.now (option_copied parent.entry) root) }
{
    let sizes = FontSizes {
        em: parent_size(parent),
        rem: root.unwrap_or(MEDIUM),
    };
    let property = Property::FontSize;
    let size = value_at(alloc, property, parent, sizes, winning.get(property))?;
    Ok(length_or(MEDIUM, &size))
}

/// The widths of borders, each beside its style.
fn widths_beside(styles: &Sides, widths: &Sides) -> Sides
    ensures { result ≡ parts.widths_beside styles.now widths.now }
{
    Sides {
        top: width_beside(&styles.top, &widths.top),
        right: width_beside(&styles.right, &widths.right),
        bottom: width_beside(&styles.bottom, &widths.bottom),
        left: width_beside(&styles.left, &widths.left),
    }
}

/// The style of these parts.
#[tactic(auto, unfolding(crate::specs::Computing::with_widths))]
fn joined(
    size: Units,
    text: TextPart,
    boxes: BoxPart,
    columns: ColumnPart,
    margins: Sides,
    paddings: Sides,
    lines: Sides,
    widths: Sides,
) -> Style
    ensures { (value : Property → Computed) → text ≡ parts.text_by value → boxes ≡ parts.boxes_by value →
        columns ≡ parts.columns_by value → margins ≡ parts.margins_by value → paddings ≡ parts.paddings_by value →
        lines ≡ parts.lines_by value → widths ≡ parts.widths_beside lines (parts.widths_by value) →
        result ≡ style_by (with_widths size value) }
{
    Style {
        display: boxes.display,
        font_size: Computed::Length { units: size },
        font_family: text.font_family,
        font_weight: text.font_weight,
        font_style: text.font_style,
        line_height: text.line_height,
        white_space: text.white_space,
        hyphens: text.hyphens,
        text_align: text.text_align,
        orphans: text.orphans,
        widows: text.widows,
        margin_top: margins.top,
        margin_right: margins.right,
        margin_bottom: margins.bottom,
        margin_left: margins.left,
        padding_top: paddings.top,
        padding_right: paddings.right,
        padding_bottom: paddings.bottom,
        padding_left: paddings.left,
        border_top_width: widths.top,
        border_right_width: widths.right,
        border_bottom_width: widths.bottom,
        border_left_width: widths.left,
        border_top_style: lines.top,
        border_right_style: lines.right,
        border_bottom_style: lines.bottom,
        border_left_style: lines.left,
        width: boxes.width,
        max_width: boxes.max_width,
        height: boxes.height,
        box_sizing: boxes.box_sizing,
        column_width: columns.column_width,
        column_count: columns.column_count,
        column_gap: columns.column_gap,
        column_fill: columns.column_fill,
        column_span: columns.column_span,
        break_before: columns.break_before,
        break_after: columns.break_after,
        break_inside: columns.break_inside,
        box_decoration_break: boxes.box_decoration_break,
    }
}

/// The style of an element, from what wins for its properties, its parent's style, and the root's font size. The root has
/// neither, and every other element has both.
///
/// A property for which nothing wins has its parent's value if it is inherited, and else its initial one.
pub fn style_of(
    alloc: Global,
    winning: &Winning,
    parent: Option<&Style>,
    root: Option<Units>,
) -> Result<Style, NoMemory>
    ensures { IfOk result (λ style. style ≡ style_by (computed_value winning.now (option_copied parent.entry) root)) }
{
    let em = own_size(alloc, winning, parent, root)?;
    let element = Element {
        winning,
        parent,
        sizes: FontSizes {
            em,
            rem: root.unwrap_or(em),
        },
    };
    let text = element.text(alloc)?;
    let boxes = element.boxes(alloc)?;
    let columns = element.columns(alloc)?;
    let margins = element.margins(alloc)?;
    let paddings = element.paddings(alloc)?;
    let lines = element.lines(alloc)?;
    let widths = widths_beside(&lines, &element.widths(alloc)?);
    Ok(joined(em, text, boxes, columns, margins, paddings, lines, widths))
}
