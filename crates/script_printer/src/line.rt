//! One line of a script.

ghost use Rattle.std.specs.Prelude.{◌≡◌, ℕ, ◌+◌, ◌++◌, ◌<◌, ◌≤◌, ◌⊎◌, Ok, Err, List, length, IsUtf8, OnOk, IfErr};
ghost use Rattle.mc_base.specs.declared.refusal.Refusal.TheVariants as refusals;
ghost use Rattle.html_grammar.specs.Tree.{Forest};
ghost use Rattle.edit_script.specs.declared.script.EditFault.{EditFault as AnyFault};
ghost use Rattle.edit_script.specs.Edited.{edited};
ghost use Rattle.dom_edits.specs.Sizes.{added_bytes, rest_of};
ghost use Rattle.script_runs.specs.Room.{HasRoomFor, LineIsUtf8, line_bytes};
ghost use Rattle.script_runs.specs.Runs as runs;
ghost use Rattle.script_runs.specs.Runs.{State, Does, IsStopped, printed_limit};
ghost use Rattle.script_printer.specs.Shown.{Shows, Denies, document_of};
ghost use Rattle.script_printer.specs.Parts.{Stands, setting_in};

use edit_script::{Edit, ScriptLine, Step};
use mc_base::{Refusal, Text};
use mc_session::{Session, edits_with_room_stay_formed};
use script_runs::{PRINTED_LIMIT, edit_refusal, edits_leave_room};

/// Does the edit of the line that begins at this byte.
fn change(session: &mut Session, at: u64, edit: &Edit) -> Result<(), Refusal>
    requires room { HasRoomFor (added_bytes edit.now) session.old.dom }
    requires utf8 { IsUtf8 (rest_of edit.now) }
    ensures done { (tree : Forest) → session.old.dom ≡ document_of tree →
        OnOk result ((next : Forest) × (edited edit.now tree ≡ Ok next) × (session.new.dom ≡ document_of next)) }
    ensures refused { (tree : Forest) → session.old.dom ≡ document_of tree →
        IfErr result (λ e. (e ≡ refusals.NoMemory)
        ⊎ ((fault : AnyFault) × (edited edit.now tree ≡ Err fault) × (e ≡ runs.edit_refusal at fault))) }
    ensures same { setting_in session.new ≡ setting_in session.old }
    ensures room { (n : ℕ) → HasRoomFor (added_bytes edit.now + n) session.old.dom →
        OnOk result (HasRoomFor n session.new.dom) }
{
    edits_leave_room();
    edits_with_room_stay_formed();
    match session.apply(edit) {
        Ok(()) => Ok(()),
        Err(fault) => Err(edit_refusal(at, fault)),
    }
}

/// Adds the result of the document as it is now to what was printed.
fn print(session: &mut Session, printed: &mut Text) -> Result<(), Refusal>
    requires { length printed.old ≤ printed_limit }
    ensures done { (tree : Forest) → session.old.dom ≡ document_of tree →
        OnOk result ((text : List ℕ) × Shows (setting_in session.old) tree text
        × (printed.new ≡ printed.old ++ text) × (length printed.new ≤ printed_limit)) }
    ensures refused { (tree : Forest) → session.old.dom ≡ document_of tree →
        IfErr result (λ e. (e ≡ refusals.NoMemory) ⊎ (Denies (setting_in session.old) tree e
        ⊎ ((text : List ℕ) × Shows (setting_in session.old) tree text
        × (printed_limit < length (printed.old ++ text)) × (e ≡ runs.too_much)))) }
    ensures short { OnOk result (length printed.new ≤ printed_limit) }
    ensures dom { session.new.dom ≡ session.old.dom }
    ensures same { setting_in session.new ≡ setting_in session.old }
{
    match session.print(PRINTED_LIMIT - printed.len() as u64) {
        Ok(text) => {
            printed.extend(text.as_slice())?;
            Ok(())
        }
        Err(refusal) => Err(refusal),
    }
}

/// Runs a line: an edit changes the session's document, and a print adds to what was printed.
pub fn run_line(session: &mut Session, printed: &mut Text, line: &ScriptLine) -> Result<(), Refusal>
    requires room { HasRoomFor (line_bytes line.now) session.old.dom }
    requires utf8 { LineIsUtf8 line.now }
    requires short { length printed.old ≤ printed_limit }
    ensures done { (state : State) → Stands session.old printed.old state →
        OnOk result ((next : State) × Does (Shows (setting_in session.old)) line.now.step state next
        × Stands session.new printed.new next) }
    ensures refused { (state : State) → Stands session.old printed.old state →
        IfErr result (λ e. (e ≡ refusals.NoMemory)
        ⊎ IsStopped (Shows (setting_in session.old)) (Denies (setting_in session.old)) line.now.at line.now.step state e) }
    ensures same { setting_in session.new ≡ setting_in session.old }
    ensures room { (n : ℕ) → HasRoomFor (line_bytes line.now + n) session.old.dom →
        OnOk result (HasRoomFor n session.new.dom) }
    ensures short { OnOk result (length printed.new ≤ printed_limit) }
{
    match &line.step {
        Step::Change { edit } => change(session, line.at, edit),
        Step::Print => print(session, printed),
    }
}
