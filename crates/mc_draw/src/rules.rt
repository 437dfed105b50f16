//! Column rules.

ghost use Rattle.std.specs.Prelude.{◌≡◌, ◌++◌, OnOk, option_map};
ghost use Rattle.mc_draw.specs.Shapes.{last_above, row_of_kind, rule_before, rule_drawn};
ghost use Rattle.tree_lines.specs.Lines.{kind_of, line_of, lines_of};

use crate::drawing::{Shape, ShapeClass};
use flow_list::{Flows, RowInfo, flow_counts, row_at};
use mc_base::{List, NoMemory, Rect, Units};
use tree_lines::{TreeKind, TreeLine};

/// The last of these lines that is one less deep than this.
fn last_above(lines: &[TreeLine], depth: u32) -> Option<&TreeLine>
    ensures { option_map (λ l. line_of l.now) result ≡ last_above depth (lines_of lines.now) }
{
    let mut last = None;
    for line in lines {
        if u64::from(line.depth) + 1 == u64::from(depth) {
            last = Some(line);
        }
    }
    last
}

/// The row that a line of this kind is a piece of.
fn row_of<'a>(flows: &'a Flows, kind: &TreeKind) -> Option<&'a RowInfo>
    ensures { option_map (λ r. r.now) result ≡ row_of_kind flows.now (kind_of kind.now) }
{
    let TreeKind::Row { row, .. } = kind else {
        return None;
    };
    if *row >= flow_counts(flows).rows {
        return None;
    }
    Some(row_at(flows, *row))
}

/// Adds the rule to the left of a column of a row, where it isn't of width 0.
fn put_drawn(
    shapes: &mut List<Shape>,
    row: &RowInfo,
    rule: Units,
    column: Rect,
) -> Result<(), NoMemory>
    ensures { OnOk result (shapes.new ≡ shapes.old ++ rule_drawn row.now rule column) }
{
    let gap = row.step.saturating_sub(row.w);
    let width = rule.min(gap);
    if width == 0 {
        return Ok(());
    }
    let left = column.x.saturating_sub(row.step) + row.w;
    let rect = Rect {
        x: left + (gap - width) / 2,
        y: column.y,
        w: width,
        h: column.h,
    };
    shapes.push(Shape {
        class: ShapeClass::Rule,
        rect,
    })?;
    Ok(())
}

/// Adds the rule before a line, where it is a column's that has one.
pub fn put_rule(
    shapes: &mut List<Shape>,
    flows: &Flows,
    rule: Units,
    before: &[TreeLine],
    line: &TreeLine,
) -> Result<(), NoMemory>
    ensures { OnOk result (shapes.new ≡ shapes.old
        ++ rule_before flows.now rule (lines_of before.now) (kind_of line.now.kind) (line_of line.now)) }
{
    let TreeKind::Col { index } = line.kind else {
        return Ok(());
    };
    if index == 0 {
        return Ok(());
    }
    let Some(around) = last_above(before, line.depth) else {
        return Ok(());
    };
    let Some(row) = row_of(flows, &around.kind) else {
        return Ok(());
    };
    put_drawn(shapes, row, rule, line.rect)
}
