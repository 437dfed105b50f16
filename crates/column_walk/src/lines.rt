//! The lines that tell how a column came to be, and a decision with them.

ghost use Rattle.std.specs.Prelude.{◌≡◌, ◌+◌, ◌^◌, ◌<◌, IfOk, [], ◌∷◌, cond, map};
ghost use Rattle.flow_list.specs.Column.{deeper};
ghost use Rattle.column_walk.specs.Deciding.{IsTold, first_line};
ghost use Rattle.column_walk.specs.Stopping.{AreShallow};

use crate::deciding::{Decision, FilledRow};
use crate::endings::Spot;
use flow_list::ColLine;
use inner_rows::Filled;
use mc_base::{List, NoMemory, Token, Units};
use std::alloc::Global;

/// The same place once more, where there is one.
fn copied(place: &Option<Token>) -> Option<Token>
    ensures { result ≡ place.now }
{
    match place {
        Some(place) => Some(place.copy()),
        None => None,
    }
}

/// The same line, one deeper.
fn deeper_line(line: &ColLine) -> ColLine
    requires { line.now.depth + 1 < 2 ^ 32 }
    ensures { result ≡ deeper line.now }
{
    ColLine {
        depth: line.depth + 1,
        end: copied(&line.end),
        stop: line.stop,
    }
}

/// The first line of a column that ends there.
fn line_of(spot: &Spot, stop: Option<u32>) -> ColLine
    ensures { result ≡ first_line spot.now.overflow spot.now.end stop }
{
    ColLine {
        depth: 0,
        end: if spot.overflow {
            None
        } else {
            Some(spot.end.copy())
        },
        stop,
    }
}

/// The lines of a row that is cut, and else none.
pub fn cut_lines(filled: &Filled, cuts: bool) -> &[ColLine]
    ensures { result.now ≡ cond cuts filled.now.lines [] }
{
    if cuts { filled.lines.as_slice() } else { &[] }
}

/// The lines of a column that ends there: its own, and those of the row that it cuts, one deeper.
fn lines_of(
    alloc: Global,
    spot: &Spot,
    stop: Option<u32>,
    inner: &[ColLine],
) -> Result<List<ColLine>, NoMemory>
    requires { AreShallow inner.now }
    ensures { IfOk result (λ lines. lines ≡ first_line spot.now.overflow spot.now.end stop ∷ map deeper inner.now) }
{
    let mut lines = List::new(alloc);
    lines.push(line_of(spot, stop))?;
    for line in inner {
        lines.push(deeper_line(line))?;
    }
    Ok(lines)
}

/// The decision of a column that ends there, with these lines of the row that it cuts.
pub fn decided(
    alloc: Global,
    spot: Spot,
    stop: Option<u32>,
    short: Option<Units>,
    inner: &[ColLine],
    filled: Option<FilledRow>,
) -> Result<Decision, NoMemory>
    requires { AreShallow inner.now }
    ensures { IfOk result (IsTold spot stop short inner.now filled) }
{
    let lines = lines_of(alloc, &spot, stop, inner)?;
    Ok(Decision {
        end: spot.end,
        level: spot.level,
        overflow: spot.overflow,
        extent: spot.extent,
        short,
        lines,
        filled,
    })
}
