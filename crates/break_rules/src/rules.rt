//! The level of a seam.

ghost use Rattle.std.specs.Prelude.{◌≡◌};
ghost use Rattle.std.specs.List.{list_any};
ghost use Rattle.break_rules.specs.Levels.{
  IsLevelOf,
  avoids_break,
  is_avoid,
  is_column,
  is_forced,
  leaves_few_lines,
  level_of,
};
ghost use Rattle.mc_base.specs.declared.level.Level.{Level as AnyLevel};

use crate::seam::{BreakValue, SeamBoxes};
use mc_base::Level;

/// The level of a break at a seam (CSS Fragmentation 3, sections 4.1, 4.3 and 4.4).
///
/// It is `Forced` where a box that ends or starts there forces a break, whatever else is asked for. Otherwise it is `L2`
/// where, not between two lines of one block container, such a box avoids a break there, or where a box around the seam
/// avoids a break inside. Otherwise it is `L1` where fewer lines would be left before the break than `orphans` wants, or
/// fewer after it than `widows` wants, and `L0` elsewhere. How the values of several boxes at one seam go together is this
/// project's own.
pub fn level(seam: &SeamBoxes) -> Level
    ensures table { IsLevelOf seam.now result }
    ensures only { (other : AnyLevel) → IsLevelOf seam.now other → other ≡ result }
    ensures value { result ≡ level_of seam.now }
{
    if forces_break(seam) {
        Level::Forced
    } else if avoids(seam) {
        Level::L2
    } else if leaves_few(seam) {
        Level::L1
    } else {
        Level::L0
    }
}

fn forces_break(seam: &SeamBoxes) -> bool
    ensures { result ≡ is_forced seam.now }
{
    asks_for_column(seam.after.as_slice()) || asks_for_column(seam.before.as_slice())
}

fn avoids(seam: &SeamBoxes) -> bool
    ensures { result ≡ avoids_break seam.now }
{
    let here = asks_to_avoid(seam.after.as_slice()) || asks_to_avoid(seam.before.as_slice());
    seam.lines.is_none() && here || seam.inside_avoid
}

fn leaves_few(seam: &SeamBoxes) -> bool
    ensures { result ≡ leaves_few_lines seam.now }
{
    match seam.lines {
        Some(lines) => lines.before < lines.orphans || lines.after < lines.widows,
        None => false,
    }
}

fn asks_for_column(values: &[BreakValue]) -> bool
    ensures { result ≡ list_any is_column values.now }
{
    values
        .iter()
        .any(|value| matches!(*value, BreakValue::Column))
}

fn asks_to_avoid(values: &[BreakValue]) -> bool
    ensures { result ≡ list_any is_avoid values.now }
{
    values
        .iter()
        .any(|value| matches!(*value, BreakValue::Avoid))
}
