//! Lines that are kept, as the lines of boxes.

use crate::keeping::KeptLines;
use box_lines::Liner;
use font_table::Fonts;
use inline_text::Runs;
use line_breaker::Line;
use mc_base::{List, NoMemory, Units};
use std::alloc::Global;

impl Liner for KeptLines {
    ghost use Rattle.kept_lines.specs.Keeping.{AreTrue};

    ghost is_true = { λ s faces. AreTrue faces s };

    fn lines(
        &mut self,
        alloc: Global,
        runs: &Runs,
        fonts: &Fonts,
        width: Units,
        strut: u32,
    ) -> Result<List<Line>, NoMemory> {
        self.kept_or_broken(alloc, runs, fonts, width, strut)
    }
}
