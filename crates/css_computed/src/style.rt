//! Computed values and styles.

ghost use Rattle.std.specs.Prelude.{◌≡◌};
ghost use Rattle.css_computed.specs.Styles as styles;

use css_values::Property;
use mc_base::{Decimal, List, Text, Units};

/// The computed value of a property (CSS Cascade 4, section 4.4).
///
/// Words are in lower case. A length is in whole units, rounded down, and never above 2^62. Percentages and numbers are not
/// negative.
#[derive(Drop)]
pub enum Computed {
    Word { name: Text },
    Length { units: Units },
    Percent { value: Decimal },
    Number { value: Decimal },
    Names { names: List<Text> },
}

/// The style of an element: the computed value of each property that is laid out.
///
/// `font_size` and the widths of borders are lengths. `font_weight` is a number, and so is `line_height` where it is
/// `normal` (1.2). No font family is an empty list.
#[derive(Drop)]
pub struct Style {
    pub display: Computed,
    pub font_size: Computed,
    pub font_family: Computed,
    pub font_weight: Computed,
    pub font_style: Computed,
    pub line_height: Computed,
    pub white_space: Computed,
    pub hyphens: Computed,
    pub text_align: Computed,
    pub orphans: Computed,
    pub widows: Computed,
    pub margin_top: Computed,
    pub margin_right: Computed,
    pub margin_bottom: Computed,
    pub margin_left: Computed,
    pub padding_top: Computed,
    pub padding_right: Computed,
    pub padding_bottom: Computed,
    pub padding_left: Computed,
    pub border_top_width: Computed,
    pub border_right_width: Computed,
    pub border_bottom_width: Computed,
    pub border_left_width: Computed,
    pub border_top_style: Computed,
    pub border_right_style: Computed,
    pub border_bottom_style: Computed,
    pub border_left_style: Computed,
    pub width: Computed,
    pub max_width: Computed,
    pub height: Computed,
    pub box_sizing: Computed,
    pub column_width: Computed,
    pub column_count: Computed,
    pub column_gap: Computed,
    pub column_fill: Computed,
    pub column_span: Computed,
    pub break_before: Computed,
    pub break_after: Computed,
    pub break_inside: Computed,
    pub box_decoration_break: Computed,
}

impl Style {
    /// The value of a property.
    #[tactic(auto, unfolding(crate::specs::Styles::field))]
    pub fn get(&self, property: Property) -> &Computed
        ensures { result.now ≡ styles.field property self.now }
    {
        match property {
            Property::Display => &self.display,
            Property::FontSize => &self.font_size,
            Property::FontFamily => &self.font_family,
            Property::FontWeight => &self.font_weight,
            Property::FontStyle => &self.font_style,
            Property::LineHeight => &self.line_height,
            Property::WhiteSpace => &self.white_space,
            Property::Hyphens => &self.hyphens,
            Property::TextAlign => &self.text_align,
            Property::Orphans => &self.orphans,
            Property::Widows => &self.widows,
            Property::MarginTop => &self.margin_top,
            Property::MarginRight => &self.margin_right,
            Property::MarginBottom => &self.margin_bottom,
            Property::MarginLeft => &self.margin_left,
            Property::PaddingTop => &self.padding_top,
            Property::PaddingRight => &self.padding_right,
            Property::PaddingBottom => &self.padding_bottom,
            Property::PaddingLeft => &self.padding_left,
            Property::BorderTopWidth => &self.border_top_width,
            Property::BorderRightWidth => &self.border_right_width,
            Property::BorderBottomWidth => &self.border_bottom_width,
            Property::BorderLeftWidth => &self.border_left_width,
            Property::BorderTopStyle => &self.border_top_style,
            Property::BorderRightStyle => &self.border_right_style,
            Property::BorderBottomStyle => &self.border_bottom_style,
            Property::BorderLeftStyle => &self.border_left_style,
            Property::Width => &self.width,
            Property::MaxWidth => &self.max_width,
            Property::Height => &self.height,
            Property::BoxSizing => &self.box_sizing,
            Property::ColumnWidth => &self.column_width,
            Property::ColumnCount => &self.column_count,
            Property::ColumnGap => &self.column_gap,
            Property::ColumnFill => &self.column_fill,
            Property::ColumnSpan => &self.column_span,
            Property::BreakBefore => &self.break_before,
            Property::BreakAfter => &self.break_after,
            Property::BreakInside => &self.break_inside,
            Property::BoxDecorationBreak => &self.box_decoration_break,
        }
    }
}
