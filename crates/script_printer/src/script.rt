//! All lines of a script.

ghost use Rattle.std.specs.Prelude.{◌≡◌, ◌≤◌, ◌<◌, ◌^◌, ◌⊎◌, ◌∷◌, List, length, sum_by, None, IfOk, IfErr};
ghost use Rattle.std.specs.List.{AllByRecursion};
ghost use Rattle.mc_base.specs.declared.refusal.Refusal.TheVariants as refusals;
ghost use Rattle.html_grammar.specs.Tree.{Forest};
ghost use Rattle.html_subset.specs.WellFormed.{IsWellFormed};
ghost use Rattle.css_cascade.specs.Attributes.{AllAreRead};
ghost use Rattle.script_runs.specs.Room.{HasRoomFor, LineIsUtf8, line_bytes};
ghost use Rattle.script_runs.specs.Runs.{Prints, Stops, begun};
ghost use Rattle.script_printer.specs.Shown.{Shows, Denies, document_of};
ghost use Rattle.doc_flows.specs.Parts.{read_as};
ghost use Rattle.script_printer.specs.Answers.{ReadingPrints, RefusesReading, ScriptPrints, RefusesScript};
ghost use Rattle.script_printer.specs.Parts.{setting_in};

use crate::line::run_line;
use doc_flows::{Reading, all_sheets, read};
use edit_script::{ScriptLine, read_script};
use mc_base::{NoMemory, Refusal, Text, Units};
use mc_session::Session;
use script_runs::{documents_have_room, scripts_are_bounded};
use std::alloc::Global;

/// What the lines of a script print, one after the other.
fn run_lines(alloc: Global, session: Session, lines: &[ScriptLine]) -> Result<Text, Refusal>
    requires room { HasRoomFor (sum_by line_bytes lines.now) session.dom }
    requires utf8 { AllByRecursion LineIsUtf8 lines.now }
    ensures text { (tree : Forest) → session.dom ≡ document_of tree →
        IfOk result (Prints (Shows (setting_in session)) lines.now tree) }
    ensures refused { (tree : Forest) → session.dom ≡ document_of tree →
        IfErr result (λ e. (e ≡ refusals.NoMemory)
        ⊎ Stops (Shows (setting_in session)) (Denies (setting_in session)) lines.now (begun tree) e) }
{
    let mut session = session;
    let mut printed = Text::new(alloc);
    for line in lines {
        run_line(&mut session, &mut printed, line)?;
    }
    Ok(printed)
}

/// A session of what was read.
fn session_of(
    alloc: Global,
    reading: Reading,
    width: Units,
    height: Option<Units>,
) -> Result<Session, NoMemory>
    requires formed { IsWellFormed reading.dom }
    requires read { AllAreRead reading.dom.nodes }
    requires wide { width < 2 ^ 60 }
    ensures { IfOk result (λ session. session ≡ record {
      dom = reading.dom;
      sheets = reading.author ∷ reading.own.sheets;
      faces = reading.fonts;
      width = width;
      height = height;
      broken = 0;
    }) }
{
    let Reading {
        dom,
        own,
        author,
        fonts,
    } = reading;
    let sheets = all_sheets(alloc, author, own.sheets)?;
    Ok(Session::begin(alloc, dom, sheets, fonts, width, height))
}

/// What a script of edits prints of what was read.
fn print_reading(
    alloc: Global,
    reading: Reading,
    script: &[u8],
    width: Units,
    height: Option<Units>,
) -> Result<Text, Refusal>
    requires formed { IsWellFormed reading.dom }
    requires read { AllAreRead reading.dom.nodes }
    requires wide { width < 2 ^ 60 }
    requires room { HasRoomFor (length script.now) reading.dom }
    requires construct { reading.dom.construct ≡ None }
    ensures text { IfOk result (ReadingPrints (read_as reading) script.now width height) }
    ensures refused { IfErr result (λ e. (e ≡ refusals.NoMemory)
        ⊎ RefusesReading (read_as reading) script.now width height e) }
{
    let lines = match read_script(alloc, script) {
        Ok(lines) => lines,
        Err(refusal) => return Err(refusal),
    };
    scripts_are_bounded();
    let session = session_of(alloc, reading, width, height)?;
    run_lines(alloc, session, lines.as_slice())
}

/// What a script of edits prints of a document with a style sheet and a table of metrics, in a block container of this width and
/// with this available height for columns, if there is one, in units of 1/64 px: the result of the document as it is at each
/// print, one after the other.
///
/// The document and the script have at most 2^26 bytes each, the sheet and the metrics at most 2^28, and the width is below 2^60.
/// The first of these steps that refuses decides: those of `doc_flows::read`, by `Grammar`, `Limit` or `Construct`; the script,
/// by `Grammar`, l1 before l2 and l3; then its lines in order. An edit is refused by `Grammar`, l4 where no element has its id
/// and l5 where it isn't allowed there; a print by `Construct` or `Limit` for the document as it is then, and by `Limit` where
/// all that is printed has more than 2^28 bytes. Out of memory may be answered for every script.
pub fn print_script(
    alloc: Global,
    document: &[u8],
    sheet: &[u8],
    metrics: &[u8],
    script: &[u8],
    width: Units,
    height: Option<Units>,
) -> Result<Text, Refusal>
    requires document { length document.now ≤ 2 ^ 26 }
    requires sheet { length sheet.now ≤ 2 ^ 28 }
    requires metrics { length metrics.now ≤ 2 ^ 28 }
    requires script { length script.now ≤ 2 ^ 26 }
    requires wide { width < 2 ^ 60 }
    // What is answered is what the script prints.
    ensures text { IfOk result (ScriptPrints document.now sheet.now metrics.now script.now width height) }
    // A refusal has its reason, the first in their order, unless memory ran out.
    ensures refused { IfErr result (λ e. (e ≡ refusals.NoMemory)
        ⊎ RefusesScript document.now sheet.now metrics.now script.now width height e) }
{
    documents_have_room();
    match read(alloc, document, sheet, metrics) {
        Ok(reading) => print_reading(alloc, reading, script, width, height),
        Err(refusal) => Err(refusal),
    }
}
