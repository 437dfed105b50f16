//! Reading a text line by line.

ghost use Rattle.std.specs.Prelude.{◌≡◌, ◌+◌, ◌<◌, ◌^◌, List, length, IfOk, IfErr, IsErrOf};
ghost use Rattle.mc_base.specs.declared.read_error.Fault.{Fault};
ghost use Rattle.mc_base.specs.Reading.{Gives};
ghost use Rattle.flow_text.specs.declared.line.Line.{Line};
ghost use Rattle.flow_text.specs.Answer as answers;
ghost use Rattle.flow_text.specs.Answer.{IsAnswer, answer_of, IsRead, IsRefused};
ghost use Rattle.flow_text.specs.Faults.{IsFirstFault};
ghost use Rattle.flow_text.specs.Grammar.{FlowFile, IsFlowFile};
ghost use Rattle.flow_text.specs.Text as texts;
ghost use Rattle.flow_text.specs.Text.{IsText};

use crate::cut::{bad_byte, len_before};
use crate::fault::ReadError;
use crate::form::form_of;
use crate::limit::limit_passed;
use crate::line::{Form, Line};
use crate::structure::{Reading, fault_of_due, fault_of_ending, take, what_is_due};
use mc_base::{Fault, Input, List, Refusal, Rule, fault_at, sound_len};
use std::alloc::Global;

/// What a line breaks that is of no form.
fn fault_of_no_form(reading: &Reading, at: u64, text: &[u8], ended: bool) -> Fault
    requires { at + length text.now < 2 ^ 64 }
    ensures { result ≡ texts.fault_of_no_form reading.now at text.now ended }
{
    if let Some(fault) = fault_of_due(what_is_due(reading), None) {
        return fault;
    }
    if let Some(i) = bad_byte(text) {
        return Fault {
            at: at + i as u64,
            rule: 2,
        };
    }
    if !ended {
        return Fault { at, rule: 2 };
    }
    match reading {
        Reading::Opening => Fault { at, rule: 3 },
        _ => Fault { at, rule: 4 },
    }
}

/// What a line says that stands here, of which only the line feed may be missing.
fn line_at(reading: &Reading, at: u64, text: &[u8], ended: bool) -> Result<Line, ReadError>
    requires { at + length text.now < 2 ^ 64 }
    ensures { Gives result (texts.line_at reading.now at text.now ended) }
{
    let Some(form) = form_of(text) else {
        return Err(ReadError::Fault(fault_of_no_form(reading, at, text, ended)));
    };
    if !ended {
        return match fault_of_due(what_is_due(reading), Some(form)) {
            Some(fault) => Err(ReadError::Fault(fault)),
            None => Err(fault_at(at, 2)),
        };
    }
    Ok(Line { at, form })
}

/// The lines of a text without U+0000 and bad sequences, or its first fault.
fn lines_in(alloc: Global, text: &[u8]) -> Result<List<Line>, ReadError>
    ensures { Gives result (texts.lines_in text.now) }
{
    let mut reading = Reading::Opening;
    let mut lines = List::new(alloc);
    let mut at = 0;
    while at < text.len() {
        let rest = text.split_at(at).1;
        let (front, behind) = rest.split_at(len_before(b'\n', rest));
        let line = line_at(&reading, at as u64, front, !behind.is_empty())?;
        reading = take(alloc, reading, line)?;
        lines.push(line)?;
        at += front.len() + 1;
    }
    if let Some(fault) = fault_of_ending(&reading, text.len() as u64) {
        return Err(ReadError::Fault(fault));
    }
    Ok(lines)
}

/// The lines of a text, or its first fault.
#[tactic(auto, unfolding(crate::specs::Text::lines_of))]
fn lines_of(alloc: Global, text: &[u8]) -> Result<List<Line>, ReadError>
    ensures { Gives result (texts.lines_of text.now) }
{
    let sound = sound_len(text);
    if sound < text.len() {
        return Err(fault_at(sound as u64, 1));
    }
    lines_in(alloc, text)
}

/// The refusal of a fault, at its byte.
fn refusal_of(fault: Fault) -> Refusal
    ensures { result ≡ answers.refusal_of fault }
{
    Refusal::Grammar {
        input: Input::Flow,
        offset: fault.at,
        rule: Rule {
            letter: b'w',
            number: fault.rule,
        },
    }
}

/// The lines within their limits.
fn within_limits(alloc: Global, lines: List<Line>) -> Result<List<Line>, Refusal>
    ensures { IsAnswer result (answers.within_limits lines) }
{
    match limit_passed(alloc, lines.as_slice())? {
        Some(refusal) => Err(refusal),
        None => Ok(lines),
    }
}

/// The lines of a text within their limits, or why it is refused.
fn answer(alloc: Global, text: &[u8]) -> Result<List<Line>, Refusal>
    ensures { IsAnswer result (answer_of text.now) }
{
    match lines_of(alloc, text) {
        Ok(lines) => within_limits(alloc, lines),
        Err(ReadError::Memory) => Err(Refusal::NoMemory),
        Err(ReadError::Fault(fault)) => Err(refusal_of(fault)),
    }
}

/// The lines of a flow file, whatever its size.
///
/// `Grammar` comes off the grammar, with the first fault and its byte, and `Limit` on it where a limit is passed, the first
/// of `length`, `columns`, `nest`, `items` and `inner-items`. `NoMemory` is out of memory.
pub fn read(alloc: Global, text: &[u8]) -> Result<List<Line>, Refusal>
    // What is read is the text's lines, and they are a flow file within its limits.
    ensures found { IfOk result (λ lines. IsRead text.now lines) }
    // A flow file is read, or refused by the first limit that it passes.
    ensures only { (lines : List Line) (file : FlowFile) → IsText 0 lines text.now → IsFlowFile lines file
        → IsAnswer result (answers.within_limits lines) }
    // The fault that is answered is the first, by the grammar.
    ensures first { (fault : Fault) → IsErrOf result (answers.refusal_of fault) → IsFirstFault text.now fault }
    // A text with a first fault, of which there is at most one, is refused by it.
    ensures told { (fault : Fault) → IsFirstFault text.now fault → IsAnswer result (answers.faulty fault) }
    // Each refusal has its cause: the first fault, or the first limit that a flow file passes.
    ensures refused { IfErr result (IsRefused text.now) }
    // Which answer it is, line by line from the front.
    ensures exact { IsAnswer result (answer_of text.now) }
{
    answer(alloc, text)
}
