//! The text of a drawing.

ghost use Rattle.std.specs.Prelude.{◌≡◌, ◌++◌, IfOk, OnOk, flat_map};
ghost use Rattle.mc_draw.specs.DrawingText.{class_text, drawing_text, foot_text, head_text, numbered, rect_text, shape_text};

use crate::drawing::{Drawing, Shape, ShapeClass};
use itoa::Buffer;
use mc_base::{NoMemory, Rect, Text, Units};
use std::alloc::Global;

/// Adds a text and a number.
fn put(out: &mut Text, front: &[u8], number: Units) -> Result<(), NoMemory>
    ensures { OnOk result (out.new ≡ out.old ++ numbered front.now number) }
{
    let mut buffer = Buffer::new();
    out.extend(front)?;
    out.extend(buffer.format(number).as_bytes())?;
    Ok(())
}

pub fn class_name(class: ShapeClass) -> &'static [u8]
    ensures { result.now ≡ class_text class }
{
    match class {
        ShapeClass::Stack => b"stack",
        ShapeClass::Row => b"row",
        ShapeClass::Col => b"col",
        ShapeClass::Piece => b"box",
        ShapeClass::Line => b"line",
        ShapeClass::Void => b"void",
        ShapeClass::Image => b"image",
        ShapeClass::Atom => b"atom",
        ShapeClass::Rule => b"rule",
    }
}

#[tactic(auto, unfolding(crate::specs::DrawingText::rect_text))]
fn put_rect(out: &mut Text, rect: Rect) -> Result<(), NoMemory>
    ensures { OnOk result (out.new ≡ out.old ++ rect_text rect) }
{
    put(out, b"\" x=\"", rect.x)?;
    put(out, b"\" y=\"", rect.y)?;
    put(out, b"\" width=\"", rect.w)?;
    put(out, b"\" height=\"", rect.h)?;
    out.extend(b"\"/>\n")?;
    Ok(())
}

#[tactic(auto, unfolding(crate::specs::DrawingText::shape_text))]
fn put_shape(out: &mut Text, shape: &Shape) -> Result<(), NoMemory>
    ensures { OnOk result (out.new ≡ out.old ++ shape_text shape.now) }
{
    out.extend(b"<rect class=\"")?;
    out.extend(class_name(shape.class))?;
    put_rect(out, shape.rect)
}

#[tactic(auto, unfolding(crate::specs::DrawingText::head_text))]
fn put_head(out: &mut Text, w: Units, h: Units) -> Result<(), NoMemory>
    ensures { OnOk result (out.new ≡ out.old ++ head_text w h) }
{
    put(
        out,
        b"<svg xmlns=\"http://www.w3.org/2000/svg\" viewBox=\"0 0 ",
        w,
    )?;
    put(out, b" ", h)?;
    out.extend(b"\">\n")?;
    Ok(())
}

#[tactic(auto, unfolding(crate::specs::DrawingText::foot_text))]
fn put_foot(out: &mut Text) -> Result<(), NoMemory>
    ensures { OnOk result (out.new ≡ out.old ++ foot_text) }
{
    out.extend(b"</svg>\n")?;
    Ok(())
}

/// Adds the lines of these shapes.
fn put_shapes(out: &mut Text, shapes: &[Shape]) -> Result<(), NoMemory>
    ensures { OnOk result (out.new ≡ out.old ++ flat_map shape_text shapes.now) }
{
    for shape in shapes {
        put_shape(out, shape)?;
    }
    Ok(())
}

/// The text of a drawing: a line that opens it, with its width and height in decimal units, a line for each of its rectangles,
/// in order, and a line that closes it (SVG 2, sections 8.2 and 10.2). The error is out of memory.
pub fn write_drawing(alloc: Global, drawing: &Drawing) -> Result<Text, NoMemory>
    ensures { IfOk result (λ text. text ≡ drawing_text drawing.now) }
{
    let mut out = Text::new(alloc);
    put_head(&mut out, drawing.w, drawing.h)?;
    put_shapes(&mut out, drawing.shapes.as_slice())?;
    put_foot(&mut out)?;
    Ok(out)
}
