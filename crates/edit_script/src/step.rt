//! The step of a line.

ghost use Rattle.std.specs.Prelude.{◌≡◌, IfOk};
ghost use Rattle.std.specs.List.{list_all};
ghost use Rattle.std.specs.Option.{option_map};
ghost use Rattle.html_grammar.specs.Names as names;
ghost use Rattle.html_grammar.specs.Tokens.{is_space as is_space_spec};
ghost use Rattle.edit_script.specs.Spelling.{is_id as is_id_spec, is_no_space};
ghost use Rattle.edit_script.specs.Steps as steps;

use crate::script::{Edit, Step};
use mc_base::Text;
use std::alloc::{AllocError, Global};

/// The word in front of the first space, and what follows the space.
fn word(bytes: &[u8]) -> Option<(&[u8], &[u8])>
    ensures { option_map (λ x. (x.0.now, x.1.now)) result ≡ steps.word_at bytes.now }
{
    for (i, byte) in bytes.iter().enumerate() {
        if *byte == b' ' {
            let (front, back) = bytes.split_at(i);
            return Some((front, back.split_at(1).1));
        }
    }
    None
}

fn is_space(byte: u8) -> bool
    ensures { result ≡ is_space_spec byte }
{
    byte == b' ' || byte == b'\n' || byte == b'\t'
}

fn has_no_space(bytes: &[u8]) -> bool
    ensures { result ≡ list_all is_no_space bytes.now }
{
    bytes.iter().all(|byte| !is_space(*byte))
}

fn is_id(bytes: &[u8]) -> bool
    ensures { result ≡ is_id_spec bytes.now }
{
    !bytes.is_empty() && has_no_space(bytes)
}

#[tactic(auto, unfolding(html_grammar::specs::Names::same))]
fn same(a: &[u8], b: &[u8]) -> bool
    ensures { result ≡ names.same a.now b.now }
{
    a == b
}

/// An id, and what follows the space after it.
#[tactic(auto, unfolding(crate::specs::Steps::id_at))]
fn id(bytes: &[u8]) -> Option<(&[u8], &[u8])>
    ensures { option_map (λ x. (x.0.now, x.1.now)) result ≡ steps.id_at bytes.now }
{
    let (id, rest) = word(bytes)?;
    if is_id(id) { Some((id, rest)) } else { None }
}

fn text(alloc: Global, bytes: &[u8]) -> Result<Text, AllocError>
    ensures { IfOk result (λ t. t ≡ bytes.now) }
{
    Ok(Text::of(Vec::from_slice(alloc, bytes)?))
}

#[tactic(auto, unfolding(crate::specs::Steps::words_at))]
fn words(alloc: Global, bytes: &[u8]) -> Result<Option<Step>, AllocError>
    ensures { IfOk result (λ step. step ≡ steps.words_at bytes.now) }
{
    let Some((id, rest)) = id(bytes) else {
        return Ok(None);
    };
    let id = text(alloc, id)?;
    let rest = text(alloc, rest)?;
    let edit = Edit::Words { id, rest };
    Ok(Some(Step::Change { edit }))
}

#[tactic(auto, unfolding(crate::specs::Steps::class_at))]
fn class(alloc: Global, bytes: &[u8]) -> Result<Option<Step>, AllocError>
    ensures { IfOk result (λ step. step ≡ steps.class_at bytes.now) }
{
    let Some((id, rest)) = id(bytes) else {
        return Ok(None);
    };
    let id = text(alloc, id)?;
    let rest = text(alloc, rest)?;
    let edit = Edit::Class { id, rest };
    Ok(Some(Step::Change { edit }))
}

#[tactic(auto, unfolding(crate::specs::Steps::removal_at))]
fn removal(alloc: Global, bytes: &[u8]) -> Result<Option<Step>, AllocError>
    ensures { IfOk result (λ step. step ≡ steps.removal_at bytes.now) }
{
    if !is_id(bytes) {
        return Ok(None);
    }
    let id = text(alloc, bytes)?;
    let edit = Edit::Remove { id };
    Ok(Some(Step::Change { edit }))
}

/// The edit of this word.
#[tactic(auto, unfolding(crate::specs::Steps::edit_at))]
fn edit(alloc: Global, word: &[u8], bytes: &[u8]) -> Result<Option<Step>, AllocError>
    ensures { IfOk result (λ step. step ≡ steps.edit_at word.now bytes.now) }
{
    if same(word, b"text") {
        return words(alloc, bytes);
    }
    if same(word, b"class") {
        return class(alloc, bytes);
    }
    if same(word, b"remove") {
        return removal(alloc, bytes);
    }
    Ok(None)
}

/// The step that a line says, if it is of a form.
#[tactic(auto, unfolding(crate::specs::Steps::step_of))]
pub fn step_of(alloc: Global, line: &[u8]) -> Result<Option<Step>, AllocError>
    ensures { IfOk result (λ step. step ≡ steps.step_of line.now) }
{
    if same(line, b"print") {
        return Ok(Some(Step::Print));
    }
    match word(line) {
        Some((word, rest)) => edit(alloc, word, rest),
        None => Ok(None),
    }
}
