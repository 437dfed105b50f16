//! What the style of each node says of its text.

ghost use Rattle.std.specs.Prelude.{◌≡◌, ◌<◌, ◌≤◌, ◌^◌, All, IfOk, length};
ghost use Rattle.line_breaker.specs.Lines.{IsStyle};
ghost use Rattle.box_style.specs.Texts as texts;

use crate::all::initial;
use crate::style::box_style;
use crate::value::{is_word, whole_of};
use box_data::BoxStyle;
use css_cascade::{NodeStyle, Styles};
use css_computed::{Computed, Style};
use font_table::{FaceId, Fonts};
use inline_text::RunStyle;
use mc_base::{List, NoMemory};
use std::alloc::Global;

/// The weight of a font: 400, where the value is no number.
fn weight_of(value: &Computed) -> u32
    ensures { result ≡ texts.weight_of value.now }
{
    match value {
        Computed::Number { value } => whole_of(*value),
        _ => 400,
    }
}

/// The first face of a table, which has one: no table is without a face.
fn first_face(fonts: &Fonts) -> FaceId
    ensures zero { result ≡ 0 }
    ensures known { result < length fonts.now }
{
    fonts.face(&[], 400, false)
}

/// The face of an element's text (CSS Fonts 4).
fn face_of(fonts: &Fonts, style: &Style) -> FaceId
    ensures choice { result ≡ texts.face_of fonts.now style.now }
    ensures known { result < length fonts.now }
{
    let weight = weight_of(&style.font_weight);
    let italic = is_word(&style.font_style, b"italic");
    match &style.font_family {
        Computed::Names { names } => fonts.face(names.as_slice(), weight, italic),
        _ => first_face(fonts),
    }
}

/// What a style says of text in a face, with a font size above the limit of lengths taken as that limit.
fn text_of(face: FaceId, style: &BoxStyle) -> RunStyle
    ensures { result ≡ texts.short_text face style.now }
{
    RunStyle {
        face,
        size: style.size.min(16_777_216),
        line: style.line,
        wrap: style.wrap,
        keep: style.keep,
        hyphens: style.hyphens,
    }
}

fn style_text(fonts: &Fonts, style: &NodeStyle) -> RunStyle
    ensures text { result ≡ texts.style_text fonts.now style.now }
    ensures known { IsStyle fonts.now result }
{
    let face = face_of(fonts, &style.style);
    text_of(face, &box_style(&style.style, style.refused))
}

/// What an entry says of its node's text; that of a node without one counts nowhere.
fn entry_text(fonts: &Fonts, entry: &Option<NodeStyle>) -> RunStyle
    ensures text { result ≡ texts.entry_text fonts.now entry.now }
    ensures known { IsStyle fonts.now result }
{
    match entry {
        Some(style) => style_text(fonts, style),
        None => text_of(first_face(fonts), &initial()),
    }
}

/// What the style of each node says of its text, by the node's number: its face in the table, font size and line height, how
/// white space is kept and where lines may wrap. Each can be broken into lines: its face is one of the table, its font size at
/// most 2^24 units and its line height at most 2^62.
pub fn run_texts(alloc: Global, styles: &Styles, fonts: &Fonts) -> Result<List<RunStyle>, NoMemory>
    ensures texts { IfOk result (λ all. all ≡ texts.run_texts fonts.now styles.now) }
    ensures known { IfOk result (λ all. All (IsStyle fonts.now) all) }
{
    let mut all = List::new(alloc);
    let entries = styles.entries();
    for entry in entries {
        all.push(entry_text(fonts, entry))?;
    }
    Ok(all)
}
