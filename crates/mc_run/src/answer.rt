//! What the words ask for, and its result.

ghost use Rattle.std.specs.Prelude.{◌≡◌, ◌≢◌, ◌<◌, ◌^◌, ℕ, ◌⊎◌, List, Option, map, None, Some, IfOk, IfErr, OnOk, string_bytes};
ghost use Rattle.mc_run.specs.Inputs.{reads, inputs_of, OnlyThese};
ghost use Rattle.mc_base.specs.declared.refusal.Refusal.TheVariants.{NoMemory};
ghost use Rattle.mc_run.specs.Commands.{built, command_of};
ghost use Rattle.mc_words.specs.Asked.{asked, page_asked, IsNarrow};
ghost use Rattle.mc_words.specs.Words.{rows, gen, trial, all};
ghost use Rattle.mc_run.specs.Viewed.{page_command};
ghost use Rattle.mc_run.specs.Outcome.{Gives, IsCause, GetsResult, GetsPart};

use crate::all::all_result;
use crate::inputs::{read_input, read_texts};
use crate::pages::{View, page_result};
use crate::rows::rows_result;
use crate::stop::Stop;
use crate::trial::trial_result;
use doc_gen::generate;
use mc_base::{Files, Input, Refusal, Sink, Text};
use mc_words::{Command, Page, WordsFault, read_words};
use std::alloc::Global;

/// The result of a flow file, by its name.
#[tactic(auto, using(crate::proofs::Stopping::flow_lemmas))]
fn answer_rows<F: Files>(alloc: Global, flow: &str, files: &mut F) -> Result<Text, Stop>
    ensures content { (other : List ℕ) → F.held files.new other ≡ F.held files.old other }
    ensures others { OnlyThese (F.faults files.old) (F.faults files.new) (reads (rows flow.now)) }
    ensures ok { IfOk result (Gives (Some (rows flow.now)) (F.held files.old)) }
    ensures err { IfErr result (IsCause (Some (rows flow.now)) (F.held files.old)
        (F.faults files.old) (F.faults files.new) 0 0) }
{
    let bytes = read_input(alloc, files, Input::Flow, flow)?;
    match rows_result(alloc, bytes.as_slice()) {
        Ok(text) => Ok(text),
        Err(refusal) => Err(Stop::Refused { refusal }),
    }
}

/// The generated document of a start and a count of paragraphs. It reads no input.
fn answer_gen(alloc: Global, start: u64, count: u32) -> Result<Text, Stop>
    ensures ok { (held : List ℕ → Option (List ℕ)) → IfOk result (Gives (Some (gen start count)) held) }
    ensures err { (held : List ℕ → Option (List ℕ)) (before now : List ℕ → ℕ) →
        IfErr result (IsCause (Some (gen start count)) held before now 0 0) }
{
    match generate(alloc, start, count) {
        Ok(text) => Ok(text),
        Err(refusal) => Err(Stop::Refused { refusal }),
    }
}

/// The summary of the generated document of a start and a count of paragraphs. It reads no input.
fn answer_trial(alloc: Global, start: u64, count: u32) -> Result<Text, Stop>
    ensures ok { (held : List ℕ → Option (List ℕ)) → IfOk result (Gives (Some (trial start count)) held) }
    ensures err { (held : List ℕ → Option (List ℕ)) (before now : List ℕ → ℕ) →
        IfErr result (IsCause (Some (trial start count)) held before now 0 0) }
{
    match trial_result(alloc, start, count) {
        Ok(text) => Ok(text),
        Err(refusal) => Err(Stop::Refused { refusal }),
    }
}

/// The layout of a document with each cut piece of a row as low as it can be, where the row asks for it. Its inputs are all read
/// before any is judged.
#[tactic(auto, using(crate::proofs::Stopping::flow_lemmas))]
fn answer_all<F: Files>(alloc: Global, page: Page<'_>, files: &mut F) -> Result<Text, Stop>
    requires { page.width < 2 ^ 60 }
    ensures content { (other : List ℕ) → F.held files.new other ≡ F.held files.old other }
    ensures others { OnlyThese (F.faults files.old) (F.faults files.new) (reads (all (page_asked page.entry))) }
    ensures ok { IfOk result (Gives (Some (all (page_asked page.entry))) (F.held files.old)) }
    ensures err { IfErr result (IsCause (Some (all (page_asked page.entry))) (F.held files.old)
        (F.faults files.old) (F.faults files.new) 0 0) }
{
    let texts = read_texts(alloc, files, page)?;
    match all_result(alloc, &texts, page.width, page.height) {
        Ok(text) => Ok(text),
        Err(refusal) => Err(Stop::Refused { refusal }),
    }
}

/// What is shown of a document that is laid out. Its inputs are all read before any is judged.
#[tactic(auto, using(crate::proofs::Stopping::flow_lemmas))]
fn answer_page<F: Files>(
    alloc: Global,
    page: Page<'_>,
    view: View,
    files: &mut F,
) -> Result<Text, Stop>
    requires { page.width < 2 ^ 60 }
    ensures content { (other : List ℕ) → F.held files.new other ≡ F.held files.old other }
    ensures others { OnlyThese (F.faults files.old) (F.faults files.new) (reads (page_command view (page_asked page.entry))) }
    ensures ok { IfOk result (Gives (Some (page_command view (page_asked page.entry))) (F.held files.old)) }
    ensures err { IfErr result (IsCause (Some (page_command view (page_asked page.entry))) (F.held files.old)
        (F.faults files.old) (F.faults files.new) 0 0) }
{
    let texts = read_texts(alloc, files, page)?;
    match page_result(alloc, &texts, page.width, page.height, view) {
        Ok(text) => Ok(text),
        Err(refusal) => Err(Stop::Refused { refusal }),
    }
}

/// The result of a command that is built.
fn result_of<F: Files>(alloc: Global, command: Command<'_>, files: &mut F) -> Result<Text, Stop>
    requires { IsNarrow command }
    ensures content { (other : List ℕ) → F.held files.new other ≡ F.held files.old other }
    ensures others { OnlyThese (F.faults files.old) (F.faults files.new) (inputs_of (built (asked command.entry))) }
    ensures ok { IfOk result (Gives (built (asked command.entry)) (F.held files.old)) }
    ensures err { IfErr result (IsCause (built (asked command.entry)) (F.held files.old)
        (F.faults files.old) (F.faults files.new) 0 0) }
{
    match command {
        Command::Rows { flow } => answer_rows(alloc, flow, files),
        Command::Gen { start, count } => answer_gen(alloc, start, count),
        Command::Trial { start, count } => answer_trial(alloc, start, count),
        Command::Layout { page } => answer_page(alloc, page, View::Tree, files),
        Command::All { page } => answer_all(alloc, page, files),
        Command::Hit { page, x, y } => answer_page(alloc, page, View::Point { x, y }, files),
        Command::Draw { page, rule } => answer_page(alloc, page, View::Drawing { rule }, files),
        Command::Check { .. } => Err(Stop::Usage),
        Command::RowsCheck { .. } => Err(Stop::Usage),
    }
}

/// The command that the words ask for.
fn asked_command(alloc: Global, words: &[String]) -> Result<Command<'_>, Stop>
    ensures asked { IfOk result (λ command. command_of (map string_bytes words.now) ≡ built (asked command)) }
    ensures narrow { IfOk result IsNarrow }
    ensures err { IfErr result (λ stop. ((stop ≡ Stop.Usage) × (command_of (map string_bytes words.now) ≡ None))
        ⊎ (stop ≡ Stop.Refused NoMemory)) }
{
    match read_words(alloc, words) {
        Ok(command) => Ok(command),
        Err(WordsFault::Refused) => Err(Stop::Usage),
        Err(WordsFault::NoMemory) => Err(Stop::Refused {
            refusal: Refusal::NoMemory,
        }),
    }
}

/// Puts the result of the command that the words ask for, in one call.
pub fn answer<F: Files, K: Sink>(
    alloc: Global,
    words: &[String],
    files: &mut F,
    out: &mut K,
) -> Result<(), Stop>
    ensures content { (other : List ℕ) → F.held files.new other ≡ F.held files.old other }
    ensures others { OnlyThese (F.faults files.old) (F.faults files.new) (inputs_of (command_of (map string_bytes words.now))) }
    ensures ok { OnOk result (GetsResult (command_of (map string_bytes words.now)) (F.held files.old)
        (K.written out.old) (K.written out.new)) }
    ensures part { IfErr result (λ stop. stop ≡ Stop.Write →
        GetsPart (command_of (map string_bytes words.now)) (F.held files.old) (K.written out.old) (K.written out.new)) }
    ensures untouched { IfErr result (λ stop. stop ≢ Stop.Write → out.new ≡ out.old) }
    ensures err { IfErr result (IsCause (command_of (map string_bytes words.now)) (F.held files.old)
        (F.faults files.old) (F.faults files.new) (K.faults out.old) (K.faults out.new)) }
{
    let command = match asked_command(alloc, words) {
        Ok(command) => command,
        Err(stop) => return Err(stop),
    };
    let text = result_of(alloc, command, files)?;
    match out.put(text.as_slice()) {
        Ok(()) => Ok(()),
        Err(_) => Err(Stop::Write),
    }
}
