//! Reading a document.

ghost use Rattle.std.specs.Prelude.{◌≡◌, ◌+◌, ◌*◌, ◌<◌, ◌≤◌, ◌^◌, length, chars, take_while, None, Ok, OnOk, IfOk, IfErr, ◌⊎◌};
ghost use Rattle.std.specs.Str.Lossy.{utf8_valid_len};
ghost use Rattle.html_grammar.specs.Machine.{opening_state};
ghost use Rattle.html_grammar.specs.Places.{places_of};
ghost use Rattle.html_grammar.specs.Whole as whole;
ghost use Rattle.html_grammar.specs.Documents.{IsDomOf};
ghost use Rattle.html_grammar.specs.FirstFaults.{IsRefusalOf};
ghost use Rattle.mc_base.specs.declared.refusal.Refusal.TheVariants.{NoMemory};
ghost use Rattle.html_grammar.specs.declared.dom.Dom.{Dom as ADom};
ghost use Rattle.html_subset.specs.Gives.{Gives, IsUnlessMemory};
ghost use Rattle.html_subset.specs.Building.{state_of};
ghost use Rattle.html_subset.specs.Turn.{turn, reading_of};
ghost use Rattle.html_subset.specs.OneTree.{IsTheOneOf};
ghost use Rattle.html_subset.specs.WellFormed.{IsWellFormed};

use crate::building::{Builder, Finished};
use crate::facts::{construct_of, late_of};
use crate::fault::ReadError;
use crate::tokens::token_at;
use html_grammar::{Dom, DomNode, Fault, NodeKind, Place};
use mc_base::{Found, Input, LimitName, List, Refusal, Rule, nonzero_len};
use std::alloc::Global;
use std::str;
use text_cursor::Cursor;

/// What reading comes to: the nodes, and the first construct that isn't laid out.
#[derive(Drop)]
struct Read {
    finished: Finished,
    construct: Option<Found>,
}

/// The first of two constructs.
fn or_found(first: Option<Found>, then: Option<Found>) -> Option<Found>
    ensures { result ≡ whole.or_found first then }
{
    match first {
        Some(found) => Some(found),
        None => then,
    }
}

/// Takes the token that begins here. Gives what it has that isn't laid out, and what stands after it.
#[tactic(auto, unfolding(crate::specs::Turn::turn))]
fn take_turn<'a>(
    alloc: Global,
    size: usize,
    builder: &mut Builder,
    place: Place,
    rest: Cursor<'a>,
) -> Result<(Option<Found>, Cursor<'a>), ReadError>
    requires { length builder.old.nodes.items + 6 < 2 ^ 32 }
    ensures state { Gives (λ x. (state_of builder.new, x.0, x.1)) result (turn size (state_of builder.old) place rest.entry) }
    ensures few { OnOk result (length builder.new.nodes.items ≤ length builder.old.nodes.items + 6) }
{
    let (token, behind) = token_at(alloc, size, place, rest)?;
    let late = late_of(&token);
    let found = construct_of(&token);
    builder.take(alloc, token)?;
    match late {
        Some(fault) => Err(ReadError::Fault(fault)),
        None => Ok((found, behind)),
    }
}

/// Ends a text of so many bytes.
fn conclude(
    alloc: Global,
    size: usize,
    builder: Builder,
    construct: Option<Found>,
) -> Result<Read, ReadError>
    requires { length builder.nodes.items + 3 < 2 ^ 32 }
    ensures { Gives (λ r. reading_of r) result (whole.concluded size construct (state_of builder)) }
{
    let finished = builder.conclude(alloc, size as u64)?;
    Ok(Read {
        finished,
        construct,
    })
}

/// Takes the tokens of a text one after the other.
fn read_tokens(alloc: Global, text: &str) -> Result<Read, ReadError>
    requires { length text.now ≤ 2 ^ 28 }
    ensures { Gives (λ r. reading_of r) result
        (whole.read_from (length text.now) (length text.now) None opening_state (places_of (chars text.now))) }
{
    let size = text.len();
    let mut rest = Cursor::new(text);
    let mut builder = Builder::new(alloc);
    let mut seen = None;
    for _ in 0..size {
        let Some(place) = rest.peek() else {
            return conclude(alloc, size, builder, seen);
        };
        rest.bump();
        let (found, behind) = take_turn(alloc, size, &mut builder, place, rest)?;
        seen = or_found(seen, found);
        rest = behind;
    }
    conclude(alloc, size, builder, seen)
}

/// Reads the characters of a text, in which no byte is zero and each begins a character.
#[tactic(auto, unfolding(html_grammar::specs::Whole::read_text))]
fn read_text(alloc: Global, bytes: &[u8]) -> Result<Read, ReadError>
    requires { length bytes.now ≤ 2 ^ 28 }
    ensures { Gives (λ r. reading_of r) result (whole.read_text bytes.now) }
{
    let zero = nonzero_len(bytes);
    match str::from_utf8(bytes) {
        Err(error) => {
            let at = error.valid_up_to().min(zero) as u64;
            Err(ReadError::Fault(Fault { at, rule: 1 }))
        }
        Ok(text) => {
            if zero < bytes.len() {
                let at = zero as u64;
                return Err(ReadError::Fault(Fault { at, rule: 1 }));
            }
            read_tokens(alloc, text)
        }
    }
}

fn is_element(node: &DomNode) -> bool
    ensures { result ≡ whole.is_element node.now }
{
    match &node.kind {
        NodeKind::Element {
            name: _,
            attributes: _,
        } => true,
        NodeKind::Words { text: _ } => false,
    }
}

fn count_elements(nodes: &[DomNode]) -> usize
    ensures { result ≡ whole.count_elements nodes.now }
{
    nodes.iter().filter(|node| is_element(node)).count()
}

/// A document that has at most 20,000 elements, and at most 64 of them one inside another.
fn within_limits(read: Read) -> Result<Dom, Refusal>
    ensures { result ≡ whole.within_limits (reading_of read) }
{
    let Read {
        finished,
        construct,
    } = read;
    let Finished { nodes, deepest } = finished;
    if 20_000 < count_elements(&nodes) {
        return Err(Refusal::Limit {
            name: LimitName::Elements,
            reached: 20_001,
            limit: 20_000,
        });
    }
    if 64 < deepest {
        return Err(Refusal::Limit {
            name: LimitName::Depth,
            reached: 65,
            limit: 64,
        });
    }
    Ok(Dom {
        nodes: List::of(nodes),
        construct,
    })
}

/// A fault as it is reported.
fn grammar_refusal(fault: Fault) -> Refusal
    ensures { result ≡ whole.grammar_refusal fault }
{
    Refusal::Grammar {
        input: Input::Document,
        offset: fault.at,
        rule: Rule {
            letter: b'h',
            number: fault.rule,
        },
    }
}

/// What the function on lists says of a text.
#[tactic(auto, unfolding(html_grammar::specs::Whole::dom_of))]
fn dom_of(alloc: Global, text: &[u8]) -> Result<Dom, Refusal>
    requires { length text.now ≤ 2 ^ 28 }
    ensures { IsUnlessMemory result (whole.dom_of text.now) }
{
    match read_text(alloc, text) {
        Ok(read) => within_limits(read),
        Err(ReadError::Memory) => Err(Refusal::NoMemory),
        Err(ReadError::Fault(fault)) => Err(grammar_refusal(fault)),
    }
}

/// The document of a text of at most 2^28 bytes: its nodes in preorder, and the first element or reference in it that
/// isn't laid out.
///
/// `Refusal::Grammar` is the first fault, by the byte where it stands and its rule, h1 to h9. `Refusal::Limit` comes
/// where the text is on the grammar and has more than 20,000 elements (`elements`), or else more than 64 elements one
/// inside another (`depth`); what is reached is the limit plus 1. Out of memory may be answered for every text.
pub fn parse(alloc: Global, text: &[u8]) -> Result<Dom, Refusal>
    requires { length text.now ≤ 2 ^ 28 }
    // What is answered is the document that the text spells, within the limits.
    ensures found { IfOk result (λ dom. IsDomOf text.now dom) }
    // What the text spells is answered, and nothing else, unless memory runs out.
    ensures only { (dom : ADom) → IsDomOf text.now dom → IsUnlessMemory result (Ok dom) }
    // The text spells one tree, and what is answered is that.
    ensures one { IfOk result (λ dom. IsTheOneOf text.now dom) }
    // A refusal has its reason: the first fault, or a limit that the document passes; unless memory ran out.
    ensures refused { IfErr result (λ e. (e ≡ NoMemory) ⊎ IsRefusalOf text.now e) }
    // What is answered is well formed.
    ensures formed { IfOk result (λ dom. IsWellFormed dom) }
    // Which answer it is.
    ensures exact { IsUnlessMemory result (whole.dom_of text.now) }
{
    dom_of(alloc, text)
}
