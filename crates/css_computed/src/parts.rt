//! The values of a style in groups.

ghost use Rattle.std.specs.Prelude.{◌≡◌, IfOk};
ghost use Rattle.css_computed.specs.Parts as parts;
ghost use Rattle.css_computed.specs.Parts.{value_in};

use crate::length::FontSizes;
use crate::style::{Computed, Style};
use crate::value::value_at;
use crate::winning::Winning;
use css_values::Property;
use mc_base::NoMemory;
use std::alloc::Global;

/// What the values of an element are computed from.
#[derive(Drop)]
pub struct Element<'a> {
    pub winning: &'a Winning<'a>,
    pub parent: Option<&'a Style>,
    pub sizes: FontSizes,
}

/// The values of four sides.
#[derive(Drop)]
pub struct Sides {
    pub top: Computed,
    pub right: Computed,
    pub bottom: Computed,
    pub left: Computed,
}

/// The values of fonts and of text.
#[derive(Drop)]
pub struct TextPart {
    pub font_family: Computed,
    pub font_weight: Computed,
    pub font_style: Computed,
    pub line_height: Computed,
    pub white_space: Computed,
    pub hyphens: Computed,
    pub text_align: Computed,
    pub orphans: Computed,
    pub widows: Computed,
}

/// The values of boxes that have no sides.
#[derive(Drop)]
pub struct BoxPart {
    pub display: Computed,
    pub width: Computed,
    pub max_width: Computed,
    pub height: Computed,
    pub box_sizing: Computed,
    pub box_decoration_break: Computed,
}

/// The values of columns and of breaks.
#[derive(Drop)]
pub struct ColumnPart {
    pub column_width: Computed,
    pub column_count: Computed,
    pub column_gap: Computed,
    pub column_fill: Computed,
    pub column_span: Computed,
    pub break_before: Computed,
    pub break_after: Computed,
    pub break_inside: Computed,
}

impl Element<'_> {
    /// The value of a property that isn't `font-size`; that of a border's width is without regard to the border's style.
    fn value(&self, alloc: Global, property: Property) -> Result<Computed, NoMemory>
        ensures { IfOk result (λ value. value ≡ value_in self.now property) }
    {
        value_at(
            alloc,
            property,
            self.parent,
            self.sizes,
            self.winning.get(property),
        )
    }

    /// The margins.
    pub fn margins(&self, alloc: Global) -> Result<Sides, NoMemory>
        ensures { IfOk result (λ part. part ≡ parts.margins_by (value_in self.now)) }
    {
        Ok(Sides {
            top: self.value(alloc, Property::MarginTop)?,
            right: self.value(alloc, Property::MarginRight)?,
            bottom: self.value(alloc, Property::MarginBottom)?,
            left: self.value(alloc, Property::MarginLeft)?,
        })
    }

    /// The paddings.
    pub fn paddings(&self, alloc: Global) -> Result<Sides, NoMemory>
        ensures { IfOk result (λ part. part ≡ parts.paddings_by (value_in self.now)) }
    {
        Ok(Sides {
            top: self.value(alloc, Property::PaddingTop)?,
            right: self.value(alloc, Property::PaddingRight)?,
            bottom: self.value(alloc, Property::PaddingBottom)?,
            left: self.value(alloc, Property::PaddingLeft)?,
        })
    }

    /// The styles of the borders.
    pub fn lines(&self, alloc: Global) -> Result<Sides, NoMemory>
        ensures { IfOk result (λ part. part ≡ parts.lines_by (value_in self.now)) }
    {
        Ok(Sides {
            top: self.value(alloc, Property::BorderTopStyle)?,
            right: self.value(alloc, Property::BorderRightStyle)?,
            bottom: self.value(alloc, Property::BorderBottomStyle)?,
            left: self.value(alloc, Property::BorderLeftStyle)?,
        })
    }

    /// The widths of the borders, whatever their styles.
    pub fn widths(&self, alloc: Global) -> Result<Sides, NoMemory>
        ensures { IfOk result (λ part. part ≡ parts.widths_by (value_in self.now)) }
    {
        Ok(Sides {
            top: self.value(alloc, Property::BorderTopWidth)?,
            right: self.value(alloc, Property::BorderRightWidth)?,
            bottom: self.value(alloc, Property::BorderBottomWidth)?,
            left: self.value(alloc, Property::BorderLeftWidth)?,
        })
    }

    /// The values of fonts and of text.
    pub fn text(&self, alloc: Global) -> Result<TextPart, NoMemory>
        ensures { IfOk result (λ part. part ≡ parts.text_by (value_in self.now)) }
    {
        Ok(TextPart {
            font_family: self.value(alloc, Property::FontFamily)?,
            font_weight: self.value(alloc, Property::FontWeight)?,
            font_style: self.value(alloc, Property::FontStyle)?,
            line_height: self.value(alloc, Property::LineHeight)?,
            white_space: self.value(alloc, Property::WhiteSpace)?,
            hyphens: self.value(alloc, Property::Hyphens)?,
            text_align: self.value(alloc, Property::TextAlign)?,
            orphans: self.value(alloc, Property::Orphans)?,
            widows: self.value(alloc, Property::Widows)?,
        })
    }

    /// The values of boxes that have no sides.
    pub fn boxes(&self, alloc: Global) -> Result<BoxPart, NoMemory>
        ensures { IfOk result (λ part. part ≡ parts.boxes_by (value_in self.now)) }
    {
        Ok(BoxPart {
            display: self.value(alloc, Property::Display)?,
            width: self.value(alloc, Property::Width)?,
            max_width: self.value(alloc, Property::MaxWidth)?,
            height: self.value(alloc, Property::Height)?,
            box_sizing: self.value(alloc, Property::BoxSizing)?,
            box_decoration_break: self.value(alloc, Property::BoxDecorationBreak)?,
        })
    }

    /// The values of columns and of breaks.
    pub fn columns(&self, alloc: Global) -> Result<ColumnPart, NoMemory>
        ensures { IfOk result (λ part. part ≡ parts.columns_by (value_in self.now)) }
    {
        Ok(ColumnPart {
            column_width: self.value(alloc, Property::ColumnWidth)?,
            column_count: self.value(alloc, Property::ColumnCount)?,
            column_gap: self.value(alloc, Property::ColumnGap)?,
            column_fill: self.value(alloc, Property::ColumnFill)?,
            column_span: self.value(alloc, Property::ColumnSpan)?,
            break_before: self.value(alloc, Property::BreakBefore)?,
            break_after: self.value(alloc, Property::BreakAfter)?,
            break_inside: self.value(alloc, Property::BreakInside)?,
        })
    }
}
