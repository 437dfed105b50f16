//! Runs in a notation of one character a piece: `<` is a `wbr`, `|` a forced break and `#` an image of 40 by 30 px. `{` and
//! `}` stand around text whose white space is kept, `(` and `)` around text that doesn't wrap, and `[` and `]` around text
//! without soft hyphens.

ghost use Rattle.std.specs.Prelude.{◌≡◌, ◌<◌, IfOk, IfSome, List, length};
ghost use Rattle.std.specs.List.{All};
ghost use Rattle.font_table.specs.declared.fonts.Face.{Face};
ghost use Rattle.inline_text.specs.declared.content.RunStyle.{RunStyle};
ghost use Rattle.inline_text.specs.WhiteSpace.{HasStyle, HasStyles};
ghost use Rattle.line_breaker.specs.Lines.{IsMeasurable, IsStyle};

use font_table::FaceId;
use inline_text::{Piece, RunStyle, Runs};
use mc_base::List;
use std::alloc::{AllocError, Global};

fn style(face: FaceId, wrap: bool, keep: bool, hyphens: bool) -> RunStyle
    ensures { (faces : List Face) → face < length faces → IsStyle faces result }
{
    RunStyle {
        face,
        size: 1024,
        line: 1280,
        wrap,
        keep,
        hyphens,
    }
}

/// The style that a character of the notation changes to.
fn style_named(ch: char) -> Option<u32>
    ensures { IfSome result (λ style. style < 4) }
{
    match ch {
        '{' => Some(1),
        '(' => Some(2),
        '[' => Some(3),
        '}' | ')' | ']' => Some(0),
        _ => None,
    }
}

fn piece(ch: char, style: u32) -> Piece
    requires { style < 4 }
    ensures named { (styles : List RunStyle) → length styles ≡ 4 → HasStyle styles result }
    ensures measurable { IsMeasurable result }
{
    match ch {
        '<' => Piece::Chance,
        '|' => Piece::Forced,
        '#' => Piece::Image {
            w: 2560,
            h: 1920,
            style,
        },
        _ => Piece::Char { ch, style },
    }
}

/// The run that a text in the notation says, in this face.
pub fn run(alloc: Global, face: FaceId, text: &str) -> Result<Runs, AllocError>
    ensures count { IfOk result (λ runs. length runs.styles ≡ 4) }
    ensures styles { IfOk result (λ runs. (faces : List Face) → face < length faces → All (IsStyle faces) runs.styles) }
    ensures named { IfOk result HasStyles }
    ensures measurable { IfOk result (λ runs. All IsMeasurable runs.pieces) }
{
    let styles = vec![in alloc;
        style(face, true, false, true),
        style(face, false, true, true),
        style(face, false, false, true),
        style(face, true, false, false),
    ]?;
    let mut pieces = Vec::new(alloc);
    let mut style_now = 0;
    for ch in text.chars() {
        if let Some(named) = style_named(ch) {
            style_now = named;
        } else {
            pieces.push(piece(ch, style_now))?;
        }
    }
    Ok(Runs {
        pieces: List::of(pieces),
        styles: List::of(styles),
    })
}
