//! Reading a script line by line.

ghost use Rattle.std.specs.Prelude.{◌≡◌};
ghost use Rattle.mc_base.specs.Reading.{Gives};
ghost use Rattle.edit_script.specs.Lines as lines;
ghost use Rattle.edit_script.specs.Script as scripts;

use crate::cut::{end_len, line_len, mark_len};
use crate::script::ScriptLine;
use crate::step::step_of;
use mc_base::{Fault, Input, List, ReadError, Refusal, Rule, fault_at, sound_len};
use std::alloc::Global;

/// What a line says that begins here.
#[tactic(auto, unfolding(crate::specs::Script::line_at))]
fn line_at(alloc: Global, at: u64, text: &[u8], ended: bool) -> Result<ScriptLine, ReadError<Fault>>
    ensures { Gives result (scripts.line_at (record { at = at; text = text.now; ended = ended })) }
{
    if !ended {
        return Err(fault_at(at, 2));
    }
    match step_of(alloc, text)? {
        Some(step) => Ok(ScriptLine { at, step }),
        None => Err(fault_at(at, 3)),
    }
}

/// The lines of a text without U+0000 and bad sequences, or its first fault.
fn lines_in(alloc: Global, text: &[u8]) -> Result<List<ScriptLine>, ReadError<Fault>>
    ensures { Gives result (scripts.steps_in (lines.lines_of text.now)) }
{
    let mut lines = List::new(alloc);
    let mut at = mark_len(text);
    while at < text.len() {
        let rest = text.split_at(at).1;
        let (front, behind) = rest.split_at(line_len(rest));
        let line = line_at(alloc, at as u64, front, !behind.is_empty())?;
        lines.push(line)?;
        at += front.len() + end_len(behind);
    }
    Ok(lines)
}

/// The lines of a text, or its first fault.
#[tactic(auto, unfolding(crate::specs::Script::steps_of))]
fn steps_of(alloc: Global, text: &[u8]) -> Result<List<ScriptLine>, ReadError<Fault>>
    ensures { Gives result (scripts.steps_of text.now) }
{
    let sound = sound_len(text);
    if sound < text.len() {
        return Err(fault_at(sound as u64, 1));
    }
    lines_in(alloc, text)
}

/// The refusal of a fault, at its byte.
fn refusal_of(fault: Fault) -> Refusal
    ensures { result ≡ scripts.refusal_of fault }
{
    Refusal::Grammar {
        input: Input::Script,
        offset: fault.at,
        rule: Rule {
            letter: b'l',
            number: fault.rule,
        },
    }
}

/// The lines of a script, each with the byte at which it begins and its step.
///
/// `Grammar` comes off the grammar, with the first fault: l1 at the first byte that is U+0000 or off UTF-8, before all else, l2
/// at a last line without a line end, and l3 at a line of no form. `NoMemory` is out of memory.
pub fn read_script(alloc: Global, text: &[u8]) -> Result<List<ScriptLine>, Refusal>
    ensures { scripts.IsAnswer result (scripts.script_of text.now) }
{
    match steps_of(alloc, text) {
        Ok(lines) => Ok(lines),
        Err(ReadError::Memory) => Err(Refusal::NoMemory),
        Err(ReadError::Fault(fault)) => Err(refusal_of(fault)),
    }
}
