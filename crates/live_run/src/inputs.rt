//! The inputs of a session.

ghost use Rattle.std.specs.Prelude.{◌≡◌, ℕ, List, Some, IfOk, IfErr};
ghost use Rattle.mc_base.specs.declared.refusal.Input.TheVariants as inputs;
ghost use Rattle.mc_run.specs.Inputs.{OnlyThese};
ghost use Rattle.mc_run.specs.Reading.{IsContent};
ghost use Rattle.mc_words.specs.Asked.{session_asked};
ghost use Rattle.live_run.specs.Inputs.{reads};
ghost use Rattle.live_run.specs.Outcome.{IsCause};

use mc_base::{Files, Input};
use mc_run::{Stop, Texts, read_input, read_texts};
use mc_words::SessionWords;
use std::alloc::Global;

/// The bytes of a document, a style sheet and a table of metrics, and of a script of edits.
#[derive(Drop)]
pub struct SessionTexts {
    pub page: Texts,
    pub script: Vec<u8>,
}

/// Reads the inputs of a session, in the order of its words.
pub fn read_session<F: Files>(
    alloc: Global,
    files: &mut F,
    session: SessionWords<'_>,
) -> Result<SessionTexts, Stop>
    ensures content { (other : List ℕ) → F.held files.new other ≡ F.held files.old other }
    ensures others { OnlyThese (F.faults files.old) (F.faults files.new) (reads (session_asked session.entry)) }
    ensures document { IfOk result (λ texts. IsContent
        (record { input = inputs.Document; name = session.entry.page.document.now }) (F.held files.old)
        texts.page.document.items) }
    ensures sheet { IfOk result (λ texts. IsContent
        (record { input = inputs.Sheet; name = session.entry.page.sheet.now }) (F.held files.old) texts.page.sheet.items) }
    ensures metrics { IfOk result (λ texts. IsContent
        (record { input = inputs.Metrics; name = session.entry.page.metrics.now }) (F.held files.old) texts.page.metrics.items) }
    ensures script { IfOk result (λ texts. IsContent (record { input = inputs.Script; name = session.entry.script.now })
        (F.held files.old) texts.script.items) }
    ensures err { IfErr result (IsCause (Some (session_asked session.entry)) (F.held files.old)
        (F.faults files.old) (F.faults files.new) 0 0) }
{
    let page = match read_texts(alloc, files, session.page) {
        Ok(page) => page,
        Err(stop) => return Err(stop),
    };
    match read_input(alloc, files, Input::Script, session.script) {
        Ok(script) => Ok(SessionTexts { page, script }),
        Err(stop) => Err(stop),
    }
}
