//! What the words ask for, and all that is printed.

ghost use Rattle.std.specs.Prelude.{◌≡◌, ◌≢◌, ◌<◌, ◌≤◌, ◌^◌, ◌⊎◌, ℕ, List, length, map, None, Some, IfOk, IfErr, OnOk};
ghost use Rattle.std.specs.Prelude.{string_bytes};
ghost use Rattle.mc_base.specs.declared.refusal.Refusal.TheVariants.{NoMemory};
ghost use Rattle.mc_run.specs.Inputs.{OnlyThese};
ghost use Rattle.mc_words.specs.Asked.{session_asked};
ghost use Rattle.mc_words.specs.Words.{session_of};
ghost use Rattle.script_printer.specs.Answers.{ScriptPrints, RefusesScript};
ghost use Rattle.live_run.specs.Inputs.{reads, inputs_of};
ghost use Rattle.live_run.specs.Outcome.{Gives, IsCause, GetsResult, GetsPart};

use crate::inputs::{SessionTexts, read_session};
use mc_base::{Files, Refusal, Sink, Text, Units};
use mc_run::Stop;
use mc_words::{SessionWords, read_session_words};
use script_printer::print_script;
use std::alloc::Global;

/// What the script prints of what was read.
fn printed(
    alloc: Global,
    texts: &SessionTexts,
    width: Units,
    height: Option<Units>,
) -> Result<Text, Refusal>
    requires document { length texts.now.page.document.items ≤ 4194304 }
    requires sheet { length texts.now.page.sheet.items ≤ 1048576 }
    requires metrics { length texts.now.page.metrics.items ≤ 1048576 }
    requires script { length texts.now.script.items ≤ 1048576 }
    requires narrow { width < 2 ^ 60 }
    ensures ok { IfOk result (ScriptPrints texts.now.page.document.items texts.now.page.sheet.items
        texts.now.page.metrics.items texts.now.script.items width height) }
    ensures err { IfErr result (λ refusal. (refusal ≡ Refusal.NoMemory)
        ⊎ RefusesScript texts.now.page.document.items texts.now.page.sheet.items texts.now.page.metrics.items
        texts.now.script.items width height refusal) }
{
    print_script(
        alloc,
        texts.page.document.as_slice(),
        texts.page.sheet.as_slice(),
        texts.page.metrics.as_slice(),
        texts.script.as_slice(),
        width,
        height,
    )
}

/// All that a session prints. Its inputs are all read before any is judged.
fn text_of<F: Files>(alloc: Global, session: SessionWords<'_>, files: &mut F) -> Result<Text, Stop>
    requires { session.page.width < 2 ^ 60 }
    ensures content { (other : List ℕ) → F.held files.new other ≡ F.held files.old other }
    ensures others { OnlyThese (F.faults files.old) (F.faults files.new) (reads (session_asked session.entry)) }
    ensures ok { IfOk result (Gives (Some (session_asked session.entry)) (F.held files.old)) }
    ensures err { IfErr result (IsCause (Some (session_asked session.entry)) (F.held files.old)
        (F.faults files.old) (F.faults files.new) 0 0) }
{
    let texts = match read_session(alloc, files, session) {
        Ok(texts) => texts,
        Err(stop) => return Err(stop),
    };
    match printed(alloc, &texts, session.page.width, session.page.height) {
        Ok(text) => Ok(text),
        Err(refusal) => Err(Stop::Refused { refusal }),
    }
}

/// The session that the words ask for.
fn asked_session(words: &[String]) -> Result<SessionWords<'_>, Stop>
    ensures asked { IfOk result (λ session. session_of (map string_bytes words.now) ≡ Some (session_asked session)) }
    ensures narrow { IfOk result (λ session. session.page.width < 2 ^ 60) }
    ensures err { IfErr result (λ stop. (stop ≡ Stop.Usage) × (session_of (map string_bytes words.now) ≡ None)) }
{
    match read_session_words(words) {
        Some(session) => Ok(session),
        None => Err(Stop::Usage),
    }
}

/// Puts all that the session prints that the words ask for, in one call.
pub fn answer<F: Files, K: Sink>(
    alloc: Global,
    words: &[String],
    files: &mut F,
    out: &mut K,
) -> Result<(), Stop>
    ensures content { (other : List ℕ) → F.held files.new other ≡ F.held files.old other }
    ensures others { OnlyThese (F.faults files.old) (F.faults files.new) (inputs_of (session_of (map string_bytes words.now))) }
    ensures ok { OnOk result (GetsResult (session_of (map string_bytes words.now)) (F.held files.old)
        (K.written out.old) (K.written out.new)) }
    ensures part { IfErr result (λ stop. stop ≡ Stop.Write →
        GetsPart (session_of (map string_bytes words.now)) (F.held files.old) (K.written out.old) (K.written out.new)) }
    ensures untouched { IfErr result (λ stop. stop ≢ Stop.Write → out.new ≡ out.old) }
    ensures usage { session_of (map string_bytes words.now) ≡ None → IfErr result (λ stop. stop ≡ Stop.Usage) }
    ensures err { IfErr result (IsCause (session_of (map string_bytes words.now)) (F.held files.old)
        (F.faults files.old) (F.faults files.new) (K.faults out.old) (K.faults out.new)) }
{
    let session = match asked_session(words) {
        Ok(session) => session,
        Err(stop) => return Err(stop),
    };
    let text = match text_of(alloc, session, files) {
        Ok(text) => text,
        Err(stop) => return Err(stop),
    };
    match out.put(text.as_slice()) {
        Ok(()) => Ok(()),
        Err(_) => Err(Stop::Write),
    }
}
