//! The commands of mcol, from their words to the bytes of the result.
//!
//! It stands on mc_words for the words, on the readers of flow files and of documents, on result_writer and page_views for what
//! is shown of their layout, and on doc_gen for the generated document.
//! Its call `run` promises which status comes when, that the sink gets exactly the result of the command, and that the line of
//! a refusal tells its cause. All that it promises is said of any command; a command adds which inputs it reads, what its result
//! is, and what it refuses. How `run` reads an input, and how it tells why it stops, is there for other programs too:
//! `read_input` and `read_texts`, and `tell` and `status`.
#![tactic(auto)]

ghost use Rattle.std.specs.Prelude.{◌≡◌, ◌≢◌, ℕ, ◌≤◌, List, map, None, string_bytes};
ghost use Rattle.mc_base.specs.Outside.{HasRisen};
ghost use Rattle.mc_base.specs.declared.refusal.ConstructName.{ConstructName};
ghost use Rattle.mc_base.specs.declared.refusal.Input.{Input};
ghost use Rattle.mc_base.specs.declared.refusal.LimitName.{LimitName};
ghost use Rattle.mc_base.specs.declared.refusal.Refusal.{Refusal as AnyRefusal};
ghost use Rattle.mc_base.specs.declared.refusal.Refusal.TheVariants.{Grammar, Construct, Limit};
ghost use Rattle.mc_base.specs.declared.refusal.Rule.{Rule};
ghost use Rattle.mc_run.specs.declared.stop.Stop.{Stop as AnyStop};
ghost use Rattle.mc_run.specs.Told.{Tells};
ghost use Rattle.mc_run.specs.Stops.{line_of, refusal_status, status_of};
ghost use Rattle.mc_run.specs.Commands.{command_of};
ghost use Rattle.mc_run.specs.Inputs.{inputs_of, HasFault, AreRead, OnlyThese};
ghost use Rattle.mc_run.specs.Outcome.{Refuses, RefusesTold, Accepts, IsCause, GetsResult, GetsPart};

mod all;
mod answer;
mod inputs;
mod pages;
mod printing;
mod rows;
mod stop;
mod trial;

use doc_flows::{documents_have_one_answer, rows_have_one_flagging};
pub use inputs::{Texts, read_input, read_texts};
use mc_base::{Files, Sink};
use std::alloc::Global;
pub use stop::{Stop, status, tell};

/// Runs the command that the words after the program's name ask for, `layout`, `rows`, `gen`, `trial`, `all`, `hit` or `draw`, and
/// answers the exit status.
///
/// `files` are read by name; the result is put to `out` in one call after it is whole, and the line of a refusal to
/// `err`, whose faults change nothing. The status is 0 where the result was put, 1 where the words aren't taken, 2 after a
/// read fault, 3 after a write fault, 4 where an input is off its grammar, 5 where an input has a construct that isn't laid
/// out, 6 where a limit is passed and 7 when out of memory.
pub fn run<F: Files, K: Sink, E: Sink>(
    alloc: Global,
    words: &[String],
    files: &mut F,
    out: &mut K,
    err: &mut E,
) -> u8
    // With 0 the sink got exactly the result of the command.
    ensures done { result ≡ 0 → GetsResult (command_of (map string_bytes words.now)) (F.held files.old)
        (K.written out.old) (K.written out.new) }

    // With 1 the words are no command.
    ensures words { result ≡ 1 → command_of (map string_bytes words.now) ≡ None }

    // Words that are no command come to 1 and the usage line, and no input is read, unless memory runs out.
    ensures usage { command_of (map string_bytes words.now) ≡ None → result ≢ 7 → (result ≡ 1) ×
        Tells (E.written err.old) (E.written err.new) (E.faults err.old) (E.faults err.new) (line_of Stop.Usage) }

    // With 2 the count of faults of an input rose, with 3 that of the sink, which got a first part of the result.
    ensures read { result ≡ 2 → (input : Input) ×
        HasFault (F.faults files.old) (F.faults files.new) (inputs_of (command_of (map string_bytes words.now))) input }
    ensures write { result ≡ 3 → HasRisen (K.faults out.old) (K.faults out.new) ×
        GetsPart (command_of (map string_bytes words.now)) (F.held files.old) (K.written out.old) (K.written out.new) }

    // With 4 the command is refused for a fault of grammar in an input, with 5 for a construct that isn't laid out, with 6
    // for a limit that is passed.
    ensures grammar { result ≡ 4 → (input : Input) × (offset : ℕ) × (rule : Rule) ×
        Refuses (command_of (map string_bytes words.now)) (F.held files.old) (Grammar input offset rule) }
    ensures construct { result ≡ 5 → (input : Input) × (offset : ℕ) × (name : ConstructName) ×
        Refuses (command_of (map string_bytes words.now)) (F.held files.old) (Construct input offset name) }
    ensures limit { result ≡ 6 → (name : LimitName) × (reached : ℕ) × (limit : ℕ) ×
        Refuses (command_of (map string_bytes words.now)) (F.held files.old) (Limit name reached limit) }
    ensures statuses { result ≤ 7 }

    // The line tells why the command stopped, and that is so.
    ensures told { result ≢ 0 → (stop : AnyStop) × (result ≡ status_of stop) ×
        IsCause (command_of (map string_bytes words.now)) (F.held files.old)
        (F.faults files.old) (F.faults files.new) (K.faults out.old) (K.faults out.new) stop ×
        Tells (E.written err.old) (E.written err.new) (E.faults err.old) (E.faults err.new) (line_of stop) }
    ensures silent { result ≡ 0 → err.new ≡ err.old }

    // A command that is refused for a reason is refused for that one and no other, and the line tells it, unless an input
    // isn't read or memory runs out.
    ensures refused { (refusal : AnyRefusal) → RefusesTold (command_of (map string_bytes words.now)) (F.held files.old) refusal →
        AreRead (F.faults files.old) (F.faults files.new) (inputs_of (command_of (map string_bytes words.now))) → result ≢ 7 →
        (result ≡ refusal_status refusal) ×
        Tells (E.written err.old) (E.written err.new) (E.faults err.old) (E.faults err.new) (line_of (Stop.Refused refusal)) }

    // Where the command stopped before its result was put, the sink is as before.
    ensures untouched { result ≢ 0 → result ≢ 3 → out.new ≡ out.old }
    ensures content { (name : List ℕ) → F.held files.new name ≡ F.held files.old name }
    ensures others { OnlyThese (F.faults files.old) (F.faults files.new) (inputs_of (command_of (map string_bytes words.now))) }

    // A command that is taken, inputs that are accepted and no faults give the result, unless memory runs out.
    ensures complete { Accepts (command_of (map string_bytes words.now)) (F.held files.old) →
        AreRead (F.faults files.old) (F.faults files.new) (inputs_of (command_of (map string_bytes words.now))) →
        (HasRisen (K.faults out.old) (K.faults out.new) → ⊥) → result ≢ 7 → result ≡ 0 }
{
    documents_have_one_answer();
    rows_have_one_flagging();
    let Err(stop) = answer::answer(alloc, words, files, out) else {
        return 0;
    };
    tell(err, stop);
    status(stop)
}
