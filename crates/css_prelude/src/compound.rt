//! Compound selectors (Selectors 3, section 4).

ghost use Rattle.std.specs.Prelude.{◌≡◌, IfOk};
ghost use Rattle.std.specs.Option.{option_map};
ghost use Rattle.css_prelude.specs.Compounds as compounds;

use crate::attribute::attribute;
use crate::pseudo::{Tested, plain, pseudo};
use crate::words::{copy, first_hash, first_ident, ident, or_found};
use css_data::{Compound, Test};
use css_tokens::{Rest, begins};
use mc_base::{Found, List, Text};
use std::alloc::{AllocError, Global};

/// Tests, and the first in them that isn't laid out.
#[derive(Drop)]
pub struct Tests {
    pub tests: List<Test>,
    pub found: Option<Found>,
}

/// Whether a type or `*` is written, and the type.
#[derive(Drop)]
pub struct Element {
    pub written: bool,
    pub name: Option<Text>,
}

/// A compound selector, and the first in it that isn't laid out.
#[derive(Drop)]
pub struct Compounded {
    pub compound: Compound,
    pub found: Option<Found>,
}

/// Whether a test comes next.
fn begins_test(rest: &Rest) -> bool
    ensures { result ≡ compounds.begins_test rest.now }
{
    first_hash(rest).is_some() || (begins(rest, '.') || (begins(rest, '[') || begins(rest, ':')))
}

/// A class after its point.
fn class(alloc: Global, rest: &mut Rest) -> Result<Option<Tested>, AllocError>
    ensures { IfOk result (λ o. option_map (λ t. (t, rest.new)) o ≡ compounds.class_at rest.old) }
{
    let Some(text) = ident(alloc, rest)? else {
        return Ok(None);
    };
    Ok(Some(plain(Test::Class { text })))
}

fn attributed(alloc: Global, rest: &mut Rest) -> Result<Option<Tested>, AllocError>
    ensures { IfOk result (λ o. option_map (λ t. (t, rest.new)) o ≡ compounds.attributed_at rest.old) }
{
    let Some(test) = attribute(alloc, rest)? else {
        return Ok(None);
    };
    Ok(Some(plain(test)))
}

/// The byte of the next lexeme, or 0.
fn offset(rest: &Rest) -> u64
    ensures { result ≡ compounds.offset_of rest.now }
{
    match rest.peek() {
        Some(lexeme) => lexeme.at,
        None => 0,
    }
}

/// The test that comes next.
fn test(alloc: Global, rest: &mut Rest) -> Result<Option<Tested>, AllocError>
    ensures { IfOk result (λ o. option_map (λ t. (t, rest.new)) o ≡ compounds.test_at rest.old) }
{
    if let Some(text) = first_hash(rest) {
        let text = copy(alloc, text)?;
        rest.bump();
        return Ok(Some(plain(Test::Id { text })));
    }
    if begins(rest, '.') {
        rest.bump();
        return class(alloc, rest);
    }
    if begins(rest, '[') {
        rest.bump();
        return attributed(alloc, rest);
    }
    let at = offset(rest);
    rest.bump();
    pseudo(alloc, at, rest)
}

fn no_tests(alloc: Global) -> Tests
    ensures { result ≡ compounds.no_tests }
{
    Tests {
        tests: List::new(alloc),
        found: None,
    }
}

/// With one more test.
fn with_test(all: Tests, one: Tested) -> Result<Tests, AllocError>
    ensures { IfOk result (λ t. t ≡ compounds.with_test all one) }
{
    let Tests { tests, found } = all;
    let Tested { test, found: then } = one;
    let mut tests = tests;
    tests.push(test)?;
    Ok(Tests {
        tests,
        found: or_found(found, then),
    })
}

/// The tests that come next, of which there are at most so many.
fn all_tests(alloc: Global, size: usize, rest: &mut Rest) -> Result<Option<Tests>, AllocError>
    ensures { IfOk result (λ o. option_map (λ t. (t, rest.new)) o ≡ compounds.tests_from size compounds.no_tests rest.old) }
{
    let mut all = no_tests(alloc);
    for _ in 0..size {
        if !begins_test(rest) {
            return Ok(Some(all));
        }
        let next = test(alloc, rest)?;
        let Some(one) = next else {
            return Ok(None);
        };
        all = with_test(all, one)?;
    }
    Ok(Some(all))
}

/// A type or `*`, if one comes next.
fn type_selector(alloc: Global, rest: &mut Rest) -> Result<Element, AllocError>
    ensures { IfOk result (λ e. (e, rest.new) ≡ compounds.element_at rest.old) }
{
    if begins(rest, '*') {
        rest.bump();
        return Ok(Element {
            written: true,
            name: None,
        });
    }
    let Some(name) = first_ident(rest) else {
        return Ok(Element {
            written: false,
            name: None,
        });
    };
    let name = copy(alloc, name)?;
    rest.bump();
    Ok(Element {
        written: true,
        name: Some(name),
    })
}

/// A compound selector of a type and tests.
fn joined(element: Element, tests: Tests) -> Option<Compounded>
    ensures { result ≡ compounds.joined element tests }
{
    let Element { written, name } = element;
    let Tests { tests, found } = tests;
    if !written && tests.is_empty() {
        return None;
    }
    Some(Compounded {
        compound: Compound {
            element: name,
            tests,
        },
        found,
    })
}

/// The compound selector that comes next, with at most so many tests.
#[tactic(auto, unfolding(crate::specs::Compounds::compound_at))]
pub fn compound(
    alloc: Global,
    size: usize,
    rest: &mut Rest,
) -> Result<Option<Compounded>, AllocError>
    ensures { IfOk result (λ o. option_map (λ t. (t, rest.new)) o ≡ compounds.compound_at size rest.old) }
{
    let element = type_selector(alloc, rest)?;
    let Some(tests) = all_tests(alloc, size, rest)? else {
        return Ok(None);
    };
    Ok(joined(element, tests))
}
