//! Pseudo-classes and pseudo-elements (Selectors 3, sections 6.6 and 7).

ghost use Rattle.std.specs.Prelude.{◌≡◌, IfOk};
ghost use Rattle.std.specs.Option.{option_map};
ghost use Rattle.css_prelude.specs.Pseudos as pseudos;

use crate::nth::nth;
use crate::words::{first_function, first_ident};
use css_data::Test;
use css_tokens::{Lexeme, Rest, Stop, begins, front_len, is_in, is_word};
use mc_base::{ConstructName, Found};
use std::alloc::{AllocError, Global};

/// A test, and what in it isn't laid out.
#[derive(Drop)]
pub struct Tested {
    pub test: Test,
    pub found: Option<Found>,
}

/// A test that has no construct.
pub fn plain(test: Test) -> Tested
    ensures { result ≡ pseudos.plain test }
{
    Tested { test, found: None }
}

/// The pseudo-elements that aren't laid out.
#[tactic(auto, unfolding(crate::specs::Pseudos::is_generated))]
fn is_generated(name: &[u8]) -> bool
    ensures { result ≡ pseudos.is_generated name.now }
{
    is_in(name, &[b"before", b"after", b"first-line", b"first-letter"])
}

/// The pseudo-classes that never match here.
#[tactic(auto, unfolding(crate::specs::Pseudos::is_never))]
fn is_never(name: &[u8]) -> bool
    ensures { result ≡ pseudos.is_never name.now }
{
    is_in(
        name,
        &[
            b"hover",
            b"active",
            b"focus",
            b"focus-visible",
            b"focus-within",
            b"visited",
            b"target",
        ],
    )
}

/// The pseudo-classes that are tested and take no argument.
fn known_test(name: &[u8]) -> Option<Test>
    ensures { result ≡ pseudos.tested name.now }
{
    if is_word(name, b"root") {
        return Some(Test::Root);
    }
    if is_word(name, b"first-child") {
        return Some(Test::FirstChild);
    }
    if is_word(name, b"last-child") {
        return Some(Test::LastChild);
    }
    if is_word(name, b"link") {
        return Some(Test::Link);
    }
    if is_never(name) {
        return Some(Test::Never);
    }
    None
}

/// A pseudo-element of this name, whose first colon stands at a byte.
fn element_named(at: u64, name: &[u8]) -> Tested
    ensures { result ≡ pseudos.element_named at name.now }
{
    if is_generated(name) {
        return Tested {
            test: Test::PseudoElement,
            found: Some(Found {
                offset: at,
                name: ConstructName::PseudoElement,
            }),
        };
    }
    plain(Test::PseudoElement)
}

/// A pseudo-class that isn't known.
fn unknown(at: u64) -> Tested
    ensures { result ≡ pseudos.unknown at }
{
    Tested {
        test: Test::Never,
        found: Some(Found {
            offset: at,
            name: ConstructName::PseudoClass,
        }),
    }
}

/// A pseudo-class of this name without an argument.
fn class_named(at: u64, name: &[u8]) -> Option<Tested>
    ensures { result ≡ pseudos.class_named at name.now }
{
    if is_generated(name) {
        return Some(element_named(at, name));
    }
    if is_word(name, b"nth-child") {
        return None;
    }
    match known_test(name) {
        Some(test) => Some(plain(test)),
        None => Some(unknown(at)),
    }
}

fn by_step(alloc: Global, arguments: &[Lexeme]) -> Result<Option<Tested>, AllocError>
    ensures { IfOk result (λ o. o ≡ pseudos.by_step arguments.now) }
{
    let Some(step) = nth(alloc, arguments)? else {
        return Ok(None);
    };
    Ok(Some(plain(Test::Nth {
        step: step.step,
        offset: step.offset,
    })))
}

/// A pseudo-class of this name with an argument.
fn function_named(
    alloc: Global,
    at: u64,
    name: &[u8],
    arguments: &[Lexeme],
) -> Result<Option<Tested>, AllocError>
    ensures { IfOk result (λ o. o ≡ pseudos.function_named at name.now arguments.now) }
{
    if is_generated(name) {
        return Ok(Some(element_named(at, name)));
    }
    if is_word(name, b"nth-child") {
        return by_step(alloc, arguments);
    }
    match known_test(name) {
        Some(_) => Ok(None),
        None => Ok(Some(unknown(at))),
    }
}

/// Goes past the arguments of a function and its closing sign.
fn arguments<'a>(rest: &mut Rest<'a>) -> Option<&'a [Lexeme]>
    ensures { option_map (λ a. (a.now, rest.new)) result ≡ pseudos.arguments_at rest.old }
{
    let arguments = rest.take(front_len(Stop::At(')'), rest.as_slice()));
    if !begins(rest, ')') {
        return None;
    }
    rest.bump();
    Some(arguments)
}

/// A pseudo-element after its colons, the first of which stands at a byte.
fn pseudo_element(at: u64, rest: &mut Rest) -> Option<Tested>
    ensures { option_map (λ t. (t, rest.new)) result ≡ pseudos.element_at at rest.old }
{
    if let Some(name) = first_ident(rest) {
        rest.bump();
        return Some(element_named(at, name));
    }
    let name = first_function(rest)?;
    rest.bump();
    let _arguments = arguments(rest)?;
    Some(element_named(at, name))
}

/// A pseudo-class with an argument after its colon.
fn pseudo_function(alloc: Global, at: u64, rest: &mut Rest) -> Result<Option<Tested>, AllocError>
    ensures { IfOk result (λ o. option_map (λ t. (t, rest.new)) o ≡ pseudos.function_at at rest.old) }
{
    let Some(name) = first_function(rest) else {
        return Ok(None);
    };
    rest.bump();
    let Some(arguments) = arguments(rest) else {
        return Ok(None);
    };
    function_named(alloc, at, name, arguments)
}

/// What stands after a colon at a byte.
pub fn pseudo(alloc: Global, at: u64, rest: &mut Rest) -> Result<Option<Tested>, AllocError>
    ensures { IfOk result (λ o. option_map (λ t. (t, rest.new)) o ≡ pseudos.pseudo_at at rest.old) }
{
    if begins(rest, ':') {
        rest.bump();
        return Ok(pseudo_element(at, rest));
    }
    if let Some(name) = first_ident(rest) {
        rest.bump();
        return Ok(class_named(at, name));
    }
    pseudo_function(alloc, at, rest)
}
