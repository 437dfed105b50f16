//! What a line of a drawing's text says, field by field.

ghost use Rattle.std.specs.Prelude.{◌≡◌, option_map};
ghost use Rattle.mc_draw.specs.Fields.{class_at, first_class, head_at, numbered_at, past, rect_at, shape_at};

use crate::drawing::{Shape, ShapeClass};
use crate::number::number;
use crate::text::class_name;
use mc_base::{Rect, Units};

/// What follows these bytes at the front.
pub fn past<'a>(front: &[u8], bytes: &'a [u8]) -> Option<&'a [u8]>
    ensures { option_map (λ x. x.now) result ≡ past front.now bytes.now }
{
    if !bytes.starts_with(front) {
        return None;
    }
    Some(bytes.split_at(front.len()).1)
}

/// The number after these bytes, and what follows it.
fn numbered<'a>(front: &[u8], bytes: &'a [u8]) -> Option<(Units, &'a [u8])>
    ensures { option_map (λ x. (x.0, x.1.now)) result ≡ numbered_at front.now bytes.now }
{
    number(past(front, bytes)?)
}

/// The first of these classes whose word stands at the front, and what follows it.
fn first_class<'a>(classes: &[ShapeClass], bytes: &'a [u8]) -> Option<(ShapeClass, &'a [u8])>
    ensures { option_map (λ x. (x.0, x.1.now)) result ≡ first_class classes.now bytes.now }
{
    for class in classes {
        if let Some(rest) = past(class_name(*class), bytes) {
            return Some((*class, rest));
        }
    }
    None
}

/// The class whose word stands at the front, and what follows it.
#[tactic(auto, unfolding(crate::specs::Fields::class_at))]
fn class(bytes: &[u8]) -> Option<(ShapeClass, &[u8])>
    ensures { option_map (λ x. (x.0, x.1.now)) result ≡ class_at bytes.now }
{
    let classes = [
        ShapeClass::Stack,
        ShapeClass::Row,
        ShapeClass::Col,
        ShapeClass::Piece,
        ShapeClass::Line,
        ShapeClass::Void,
        ShapeClass::Image,
        ShapeClass::Atom,
        ShapeClass::Rule,
    ];
    first_class(&classes, bytes)
}

/// The rectangle after a class, up to the line's end, and what follows it.
#[tactic(auto, unfolding(crate::specs::Fields::rect_at))]
fn rectangle(bytes: &[u8]) -> Option<(Rect, &[u8])>
    ensures { option_map (λ x. (x.0, x.1.now)) result ≡ rect_at bytes.now }
{
    let (x, rest) = numbered(b"\" x=\"", bytes)?;
    let (y, rest) = numbered(b"\" y=\"", rest)?;
    let (w, rest) = numbered(b"\" width=\"", rest)?;
    let (h, rest) = numbered(b"\" height=\"", rest)?;
    let rest = past(b"\"/>\n", rest)?;
    Some((Rect { x, y, w, h }, rest))
}

/// The rectangle whose line stands at the front, and what follows that line.
#[tactic(auto, unfolding(crate::specs::Fields::shape_at))]
pub fn shape_line(bytes: &[u8]) -> Option<(Shape, &[u8])>
    ensures { option_map (λ x. (x.0, x.1.now)) result ≡ shape_at bytes.now }
{
    let rest = past(b"<rect class=\"", bytes)?;
    let (class, rest) = class(rest)?;
    let (rect, rest) = rectangle(rest)?;
    Some((Shape { class, rect }, rest))
}

/// The width and height in the line that opens a drawing, where it stands at the front, and what follows that line.
#[tactic(auto, unfolding(crate::specs::Fields::head_at))]
pub fn head_line(bytes: &[u8]) -> Option<(Units, Units, &[u8])>
    ensures { option_map (λ x. (x.0, x.1, x.2.now)) result ≡ head_at bytes.now }
{
    let (w, rest) = numbered(
        b"<svg xmlns=\"http://www.w3.org/2000/svg\" viewBox=\"0 0 ",
        bytes,
    )?;
    let (h, rest) = numbered(b" ", rest)?;
    let rest = past(b"\">\n", rest)?;
    Some((w, h, rest))
}
