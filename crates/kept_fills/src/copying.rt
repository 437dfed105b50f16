//! A copy of a fill.

ghost use Rattle.std.specs.Prelude.{◌≡◌, ◌++◌, ◌∷◌, [], IfOk, OnOk};

use flow_list::ColLine;
use inner_rows::Filled;
use mc_base::{List, NoMemory, Token};
use std::alloc::Global;

/// A copy of a column line.
fn line_of(line: &ColLine) -> ColLine
    ensures { result ≡ line.now }
{
    ColLine {
        depth: line.depth,
        end: end_of(&line.end),
        stop: line.stop,
    }
}

/// A copy of the place where a column ends, if it has one.
fn end_of(end: &Option<Token>) -> Option<Token>
    ensures { result ≡ end.now }
{
    match end {
        None => None,
        Some(end) => Some(end.copy()),
    }
}

/// A copy of column lines.
fn lines_of(alloc: Global, lines: &[ColLine]) -> Result<List<ColLine>, NoMemory>
    ensures { IfOk result (λ copy. copy ≡ lines.now) }
{
    let mut copy = List::new(alloc);
    for line in lines {
        copy.push(line_of(line))?;
    }
    Ok(copy)
}

/// A copy of a fill, with the same fragment.
pub fn copy_of(alloc: Global, fill: &Filled) -> Result<Filled, NoMemory>
    ensures { IfOk result (λ copy. copy ≡ fill.now) }
{
    Ok(Filled {
        end: fill.end.copy(),
        at_end: fill.at_end,
        level: fill.level,
        overflow: fill.overflow,
        short: fill.short,
        lines: lines_of(alloc, fill.lines.as_slice())?,
        frag: fill.frag,
    })
}
