//! What the definitions mean for one another: laws, each the contract of a function that does nothing.

ghost use Rattle.std.specs.Prelude.{◌≡◌, ℕ, List};
ghost use Rattle.font_table.specs.declared.fonts.Face.{Face};
ghost use Rattle.inline_text.specs.declared.content.Runs.{Runs};
ghost use Rattle.line_breaker.specs.declared.line.Line.{Line};
ghost use Rattle.line_breaker.specs.Lines.{AreLines, EndsAt};

/// A line that begins at a place ends at one place, and a run has one list of lines from a place on.
pub fn a_run_has_one_list_of_lines()
    ensures end { (runs : Runs) (faces : List Face) (width from to other : ℕ) →
        EndsAt runs faces width from to → EndsAt runs faces width from other → to ≡ other }
    ensures lines { (runs : Runs) (faces : List Face) (width strut from : ℕ) (lines others : List Line) →
        AreLines runs faces width strut from lines → AreLines runs faces width strut from others → lines ≡ others }
{}
