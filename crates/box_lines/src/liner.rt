//! The law of what breaks inline content into lines.

ghost use Rattle.std.specs.Prelude.{◌≤◌, ◌<◌, ◌^◌, List as Items, IfOk, length};
ghost use Rattle.std.specs.List.{All};
ghost use Rattle.font_table.specs.declared.fonts.Face.{Face as OneFace};
ghost use Rattle.line_breaker.specs.Lines.{AreLines, CanBreak};

use font_table::Fonts;
use inline_text::Runs;
use line_breaker::{Line, break_lines};
use mc_base::{List, NoMemory, Units};
use std::alloc::Global;

/// What breaks the inline content of boxes into lines. It may keep what it found for the next call.
pub trait Liner {
    // what it keeps is right for these faces
    ghost is_true: { Self → Items OneFace → Type 0 };

    /// The lines of a collapsed run, of at most `width` units where it has break opportunities, as `break_lines` makes them;
    /// `strut` is the number of the block container's own style. Out of memory, what it keeps stays right too.
    fn lines(
        &mut self,
        alloc: Global,
        runs: &Runs,
        fonts: &Fonts,
        width: Units,
        strut: u32,
    ) -> Result<List<Line>, NoMemory>
        requires can { CanBreak runs.now fonts.now strut }
        requires kept { is_true self.old fonts.now }
        ensures lines { IfOk result (AreLines runs.now fonts.now width strut 0) }
        ensures widths { IfOk result (All (λ line. line.w < 2 ^ 60)) }
        ensures few { IfOk result (λ lines. length lines ≤ length runs.now.pieces) }
        ensures kept { is_true self.new fonts.now };
}

/// Breaks each run anew.
#[derive(Drop)]
pub struct PlainLiner;

impl Liner for PlainLiner {
    ghost is_true = { λ _ _. Unit {0} };

    fn lines(
        &mut self,
        alloc: Global,
        runs: &Runs,
        fonts: &Fonts,
        width: Units,
        strut: u32,
    ) -> Result<List<Line>, NoMemory> {
        break_lines(alloc, runs, fonts, width, strut)
    }
}
