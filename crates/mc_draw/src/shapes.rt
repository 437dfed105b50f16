//! The shapes of a tree.

ghost use Rattle.std.specs.Prelude.{◌≡◌, ◌++◌, ◌∷◌, [], IfOk, OnOk};
ghost use Rattle.mc_draw.specs.Shapes.{class_of, drawing_of, height_of, rule_before, shape_of, shapes_after, width_of};
ghost use Rattle.tree_lines.specs.Lines.{kind_of, line_of, lines_of};

use crate::drawing::{Drawing, Shape, ShapeClass};
use crate::rules::put_rule;
use flow_list::Flows;
use mc_base::{List, NoMemory, Rect, Units};
use std::alloc::Global;
use tree_lines::{TreeKind, TreeLine};

fn class_of(kind: &TreeKind) -> ShapeClass
    ensures { result ≡ class_of (kind_of kind.now) }
{
    match kind {
        TreeKind::Stack { .. } => ShapeClass::Stack,
        TreeKind::Row { .. } => ShapeClass::Row,
        TreeKind::Col { .. } => ShapeClass::Col,
        TreeKind::Piece { .. } => ShapeClass::Piece,
        TreeKind::Line { .. } => ShapeClass::Line,
        TreeKind::Void { .. } => ShapeClass::Void,
        TreeKind::Image { .. } => ShapeClass::Image,
        TreeKind::Atom { .. } => ShapeClass::Atom,
    }
}

/// The rectangle of a line.
fn shape_of(line: &TreeLine) -> Shape
    ensures { result ≡ shape_of (line_of line.now) }
{
    Shape {
        class: class_of(&line.kind),
        rect: line.rect,
    }
}

/// The width and height of the first line.
fn size_of(lines: &[TreeLine]) -> (Units, Units)
    ensures { result ≡ (width_of (lines_of lines.now), height_of (lines_of lines.now)) }
{
    match lines {
        [] => (0, 0),
        [first, ..] => (first.rect.w, first.rect.h),
    }
}

/// Adds the rectangle of a line, with the rule before it.
fn put_line(
    shapes: &mut List<Shape>,
    flows: &Flows,
    rule: Units,
    before: &[TreeLine],
    line: &TreeLine,
) -> Result<(), NoMemory>
    ensures { OnOk result (shapes.new ≡ shapes.old
        ++ (rule_before flows.now rule (lines_of before.now) (kind_of line.now.kind) (line_of line.now)
        ++ shape_of (line_of line.now) ∷ [])) }
{
    put_rule(shapes, flows, rule, before, line)?;
    shapes.push(shape_of(line))?;
    Ok(())
}

/// Adds the shapes of these lines.
fn put_lines(
    shapes: &mut List<Shape>,
    flows: &Flows,
    rule: Units,
    lines: &[TreeLine],
) -> Result<(), NoMemory>
    ensures { OnOk result (shapes.new ≡ shapes.old ++ shapes_after flows.now rule [] (lines_of lines.now)) }
{
    for i in 0..lines.len() {
        put_line(shapes, flows, rule, &lines[..i], &lines[i])?;
    }
    Ok(())
}

/// The drawing of the lines of a tree: their rectangles, in order, and directly before that of each column but a row's first a
/// rule of this width, where its gap has room (CSS Multi-column Layout 1, section 4.3). Lengths are in units; 1 unit is 1/64 px.
/// A rule wider than its gap is as wide as the gap, and one of width 0 isn't drawn. The error is out of memory.
pub fn draw_tree(
    alloc: Global,
    flows: &Flows,
    lines: &List<TreeLine>,
    rule: Units,
) -> Result<Drawing, NoMemory>
    ensures { IfOk result (λ drawing. drawing ≡ drawing_of flows.now rule (lines_of lines.now)) }
{
    let mut shapes = List::new(alloc);
    put_lines(&mut shapes, flows, rule, lines.as_slice())?;
    let (w, h) = size_of(lines.as_slice());
    Ok(Drawing { w, h, shapes })
}
