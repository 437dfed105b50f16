//! A session of edits, from its words to the bytes that it prints.
//!
//! It stands on mc_words for the words, on mc_run for reading inputs and telling why a program stops, and on script_printer for
//! what a script of edits prints of a document.
//! Its one call, `live`, promises which status comes when, that the sink gets exactly what the prints of the script show, the
//! results of the document as it is at each of them, and that nothing is put before the last line has run.
#![tactic(auto)]

ghost use Rattle.std.specs.Prelude.{◌≡◌, ◌≢◌, ℕ, ◌≤◌, List, map, None, string_bytes};
ghost use Rattle.mc_base.specs.Outside.{HasRisen};
ghost use Rattle.mc_base.specs.declared.refusal.ConstructName.{ConstructName};
ghost use Rattle.mc_base.specs.declared.refusal.Input.{Input};
ghost use Rattle.mc_base.specs.declared.refusal.LimitName.{LimitName};
ghost use Rattle.mc_base.specs.declared.refusal.Refusal.{Refusal as AnyRefusal};
ghost use Rattle.mc_base.specs.declared.refusal.Refusal.TheVariants.{Grammar, Construct, Limit};
ghost use Rattle.mc_base.specs.declared.refusal.Rule.{Rule};
ghost use Rattle.mc_run.specs.declared.stop.Stop.{Stop as AnyStop};
ghost use Rattle.mc_run.specs.declared.stop.Stop.TheVariants as stops;
ghost use Rattle.mc_run.specs.Inputs.{HasFault, AreRead, OnlyThese};
ghost use Rattle.mc_run.specs.Stops.{refusal_status, status_of};
ghost use Rattle.mc_run.specs.Told.{Tells};
ghost use Rattle.mc_words.specs.Words.{session_of};
ghost use Rattle.live_run.specs.Inputs.{inputs_of};
ghost use Rattle.live_run.specs.Outcome.{Refuses, RefusesTold, Accepts, IsCause, GetsResult, GetsPart};
ghost use Rattle.live_run.specs.Told.{session_line};

mod answer;
mod inputs;
#[cfg(test)]
mod tests;
mod told;

use mc_base::{Files, Sink};
use mc_run::status;
use script_printer::scripts_have_one_answer;
use std::alloc::Global;
use told::tell_session;

/// Runs the session that the words after the program's name ask for: the names of a document, a style sheet and a table of
/// metrics, a width, an available height, and the name of a script of edits. It answers the exit status.
///
/// `files` are read by name; all that the script prints is put to `out` in one call after its last line has run, and the line of
/// a refusal to `err`, whose faults change nothing. The status is 0 where every line of the script has run and all was put, 1
/// where the words aren't taken, 2 after a read fault, 3 after a write fault, 4 where an input is off its grammar or an edit
/// isn't done, 5 where there is a construct that isn't laid out, 6 where a limit is passed and 7 when out of memory.
pub fn live<F: Files, K: Sink, E: Sink>(
    alloc: Global,
    words: &[String],
    files: &mut F,
    out: &mut K,
    err: &mut E,
) -> u8
    // With 0 the sink got exactly what the prints of the script show, one after the other.
    ensures done { result ≡ 0 → GetsResult (session_of (map string_bytes words.now)) (F.held files.old)
        (K.written out.old) (K.written out.new) }

    // With 1 the words aren't taken.
    ensures words { result ≡ 1 → session_of (map string_bytes words.now) ≡ None }

    // Words that aren't taken come to 1 and the usage line, and no input is read.
    ensures usage { session_of (map string_bytes words.now) ≡ None → (result ≡ 1) ×
        Tells (E.written err.old) (E.written err.new) (E.faults err.old) (E.faults err.new) (session_line stops.Usage) }

    // With 2 the count of faults of an input rose, with 3 that of the sink, which got a first part of what is printed.
    ensures read { result ≡ 2 → (input : Input) ×
        HasFault (F.faults files.old) (F.faults files.new) (inputs_of (session_of (map string_bytes words.now))) input }
    ensures write { result ≡ 3 → HasRisen (K.faults out.old) (K.faults out.new) ×
        GetsPart (session_of (map string_bytes words.now)) (F.held files.old) (K.written out.old) (K.written out.new) }

    // With 4 the session is refused for a fault of grammar in an input or an edit that isn't done, with 5 for a construct that
    // isn't laid out, with 6 for a limit that is passed.
    ensures grammar { result ≡ 4 → (input : Input) × (offset : ℕ) × (rule : Rule) ×
        Refuses (session_of (map string_bytes words.now)) (F.held files.old) (Grammar input offset rule) }
    ensures construct { result ≡ 5 → (input : Input) × (offset : ℕ) × (name : ConstructName) ×
        Refuses (session_of (map string_bytes words.now)) (F.held files.old) (Construct input offset name) }
    ensures limit { result ≡ 6 → (name : LimitName) × (reached : ℕ) × (limit : ℕ) ×
        Refuses (session_of (map string_bytes words.now)) (F.held files.old) (Limit name reached limit) }
    ensures statuses { result ≤ 7 }

    // The line tells why the session stopped, and that is so.
    ensures told { result ≢ 0 → (stop : AnyStop) × (result ≡ status_of stop) ×
        IsCause (session_of (map string_bytes words.now)) (F.held files.old)
        (F.faults files.old) (F.faults files.new) (K.faults out.old) (K.faults out.new) stop ×
        Tells (E.written err.old) (E.written err.new) (E.faults err.old) (E.faults err.new) (session_line stop) }
    ensures silent { result ≡ 0 → err.new ≡ err.old }

    // A session that is refused for a reason is refused for that one and no other, and the line tells it, unless an input isn't
    // read or memory runs out.
    ensures refused { (refusal : AnyRefusal) → RefusesTold (session_of (map string_bytes words.now)) (F.held files.old) refusal →
        AreRead (F.faults files.old) (F.faults files.new) (inputs_of (session_of (map string_bytes words.now))) → result ≢ 7 →
        (result ≡ refusal_status refusal) ×
        Tells (E.written err.old) (E.written err.new) (E.faults err.old) (E.faults err.new)
        (session_line (stops.Refused refusal)) }

    // Where the session stopped before all was put, the sink is as before.
    ensures untouched { result ≢ 0 → result ≢ 3 → out.new ≡ out.old }
    ensures content { (name : List ℕ) → F.held files.new name ≡ F.held files.old name }
    ensures others { OnlyThese (F.faults files.old) (F.faults files.new) (inputs_of (session_of (map string_bytes words.now))) }

    // Words that are taken, inputs that are accepted and no faults give all that is printed, unless memory runs out.
    ensures complete { Accepts (session_of (map string_bytes words.now)) (F.held files.old) →
        AreRead (F.faults files.old) (F.faults files.new) (inputs_of (session_of (map string_bytes words.now))) →
        (HasRisen (K.faults out.old) (K.faults out.new) → ⊥) → result ≢ 7 → result ≡ 0 }
{
    scripts_have_one_answer();
    let Err(stop) = answer::answer(alloc, words, files, out) else {
        return 0;
    };
    tell_session(err, stop);
    status(stop)
}
