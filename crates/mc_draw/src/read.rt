//! Reading the text of a drawing.

ghost use Rattle.std.specs.Prelude.{◌≡◌, ◌++◌, IfOk, IfErr, None};
ghost use Rattle.std.specs.List.{flat_map};
ghost use Rattle.mc_draw.specs.declared.drawing.Drawing.{Drawing as Picture};
ghost use Rattle.mc_draw.specs.DrawingText.{shape_text};
ghost use Rattle.mc_draw.specs.Fields.{shape_at};
ghost use Rattle.mc_draw.specs.ReadBack.{AreFit, IsBad, IsReadAs, IsTextOf};

use crate::drawing::{Drawing, Shape};
use crate::fields::{head_line, past, shape_line};
use mc_base::{List, NoMemory};
use std::alloc::Global;

/// Why bytes aren't read as a drawing.
#[derive(Clone, Copy, Debug, PartialEq, Eq)]
pub enum BadDrawing {
    /// They are none: the first line that is off the forms, from 1.
    BadLine { line: u64 },
    /// Out of memory.
    NoMemory,
}

impl From<NoMemory> for BadDrawing {
    ghost use Rattle.std.specs.Prelude.{◌≡◌};
    ghost use Rattle.mc_draw.specs.declared.read.BadDrawing.TheVariants.{NoMemory as Memory};

    ghost from_gives = { λ _ e. e ≡ Memory };

    fn from(_error: NoMemory) -> BadDrawing {
        BadDrawing::NoMemory
    }
}

/// The rectangles whose lines stand at the front, and what follows them.
fn shape_lines(alloc: Global, bytes: &[u8]) -> Result<(List<Shape>, &[u8]), NoMemory>
    ensures spelled { IfOk result (λ x. bytes.now ≡ flat_map shape_text x.0 ++ x.1.now) }
    ensures fit { IfOk result (λ x. AreFit x.0) }
    ensures all { IfOk result (λ x. shape_at x.1.now ≡ None) }
{
    let mut shapes = List::new(alloc);
    let mut rest = bytes;
    while let Some((shape, after)) = shape_line(rest) {
        shapes.push(shape)?;
        rest = after;
    }
    Ok((shapes, rest))
}

/// The drawing whose text this is (SVG 2, sections 8.2 and 10.2): a line that opens it, with its width and height, a line for
/// each of its rectangles, and a line that closes it. Numbers are decimal, without leading zeros, of at most 19 digits; each line
/// ends with a line feed, and nothing follows the last. Other bytes are `BadLine`, with the first line that is off these forms,
/// or the number of lines plus 1 where the last is lacking. So a drawing of such numbers that is written is read again as itself.
pub fn read_drawing(alloc: Global, text: &[u8]) -> Result<Drawing, BadDrawing>
    ensures ok { IfOk result (IsTextOf text.now) }
    ensures err { IfErr result (IsBad text.now) }
    ensures again { (d : Picture) → IsTextOf text.now d → IsReadAs d result }
{
    let Some((w, h, rest)) = head_line(text) else {
        return Err(BadDrawing::BadLine { line: 1 });
    };
    let (shapes, rest) = shape_lines(alloc, rest)?;
    let Some(rest) = past(b"</svg>\n", rest) else {
        return Err(BadDrawing::BadLine {
            line: shapes.len() as u64 + 2,
        });
    };
    if !rest.is_empty() {
        return Err(BadDrawing::BadLine {
            line: shapes.len() as u64 + 3,
        });
    }
    Ok(Drawing { w, h, shapes })
}
