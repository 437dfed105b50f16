//! Looking up an element.

ghost use Rattle.std.specs.Prelude.{◌≡◌, ◌↔◌, ◌∷◌, ℕ, List, map, IfOk, OnOk, IsTrue, Contains, codes};
ghost use Rattle.std.specs.List.{slice_split};
ghost use Rattle.html_grammar.specs.Tokens as tokens;
ghost use Rattle.css_select.specs.Attributes.{IsSameName, IsWordOf};
ghost use Rattle.css_winner.specs.Filing.{IsFiled};
ghost use Rattle.css_winner.specs.Keys.{IsAttributeKey, IsKey};
ghost use Rattle.css_winner.specs.declared.filing.Place.{Place as APlace};

use crate::filing::{Filing, Place};
use crate::key::{lower, signed};
use html_grammar::Attribute;
use std::alloc::{AllocError, Global};

fn same_name(a: &[u8], b: &[u8]) -> bool
    ensures { IsTrue result ↔ IsSameName a.now b.now }
{
    a.eq_ignore_ascii_case(b)
}

/// White space: space, tab and line feed.
fn is_space(byte: u8) -> bool
    ensures { result ≡ tokens.is_space byte }
{
    byte == b' ' || (byte == b'\n' || byte == b'\t')
}

/// The parts of a text between white space.
fn parts(alloc: Global, text: &[u8]) -> Result<Vec<&[u8]>, AllocError>
    ensures { IfOk result (λ found. map (λ x. x.now) found.items ≡ slice_split tokens.is_space text.now) }
{
    text.split(|byte| is_space(*byte)).collect(alloc)
}

/// Adds what is filed under a name.
fn add_filed(found: &mut Vec<Place>, filing: &Filing, key: &[u8]) -> Result<(), AllocError>
    ensures kept { OnOk result ((p : APlace) → Contains found.old.items p → Contains found.new.items p) }
    ensures added { OnOk result ((p : APlace) → IsFiled filing.now key.now p → Contains found.new.items p) }
{
    found.extend_from_slice(filing.filed(key))?;
    Ok(())
}

/// Adds what is filed under the classes of a text.
fn add_classes(
    alloc: Global,
    found: &mut Vec<Place>,
    filing: &Filing,
    text: &[u8],
) -> Result<(), AllocError>
    ensures kept { OnOk result ((p : APlace) → Contains found.old.items p → Contains found.new.items p) }
    ensures added { OnOk result ((word : List ℕ) (p : APlace) → IsWordOf word text.now → IsFiled filing.now (46 ∷ word) p
        → Contains found.new.items p) }
{
    let words = parts(alloc, text)?;
    for word in &words {
        let key = signed(alloc, b'.', word)?;
        add_filed(found, filing, key.as_slice())?;
    }
    Ok(())
}

/// Adds what is filed under the id that an attribute gives.
fn add_id(
    alloc: Global,
    found: &mut Vec<Place>,
    filing: &Filing,
    attribute: &Attribute,
) -> Result<(), AllocError>
    ensures kept { OnOk result ((p : APlace) → Contains found.old.items p → Contains found.new.items p) }
    ensures added { OnOk result ((p : APlace) → IsSameName attribute.now.name (codes "id")
        → IsFiled filing.now (35 ∷ attribute.now.value) p → Contains found.new.items p) }
{
    if !same_name(attribute.name.as_slice(), b"id") {
        return Ok(());
    }
    let key = signed(alloc, b'#', attribute.value.as_slice())?;
    add_filed(found, filing, key.as_slice())?;
    Ok(())
}

/// Adds what is filed under the classes that an attribute gives.
fn add_class(
    alloc: Global,
    found: &mut Vec<Place>,
    filing: &Filing,
    attribute: &Attribute,
) -> Result<(), AllocError>
    ensures kept { OnOk result ((p : APlace) → Contains found.old.items p → Contains found.new.items p) }
    ensures added { OnOk result ((word : List ℕ) (p : APlace) → IsSameName attribute.now.name (codes "class")
        → IsWordOf word attribute.now.value → IsFiled filing.now (46 ∷ word) p → Contains found.new.items p) }
{
    if !same_name(attribute.name.as_slice(), b"class") {
        return Ok(());
    }
    let value = attribute.value.as_slice();
    add_classes(alloc, found, filing, value)?;
    Ok(())
}

/// Adds what is filed under the names that an attribute gives.
fn add_attribute(
    alloc: Global,
    found: &mut Vec<Place>,
    filing: &Filing,
    attribute: &Attribute,
) -> Result<(), AllocError>
    ensures kept { OnOk result ((p : APlace) → Contains found.old.items p → Contains found.new.items p) }
    ensures added { OnOk result ((key : List ℕ) (p : APlace) → IsAttributeKey key attribute.now → IsFiled filing.now key p
        → Contains found.new.items p) }
{
    add_id(alloc, found, filing, attribute)?;
    add_class(alloc, found, filing, attribute)?;
    Ok(())
}

/// All that is filed under the names that an element is looked up by.
pub fn filed_for(
    alloc: Global,
    filing: &Filing,
    name: &[u8],
    attributes: &[Attribute],
) -> Result<Vec<Place>, AllocError>
    ensures { IfOk result (λ found. (key : List ℕ) (p : APlace) → IsKey name.now attributes.now key → IsFiled filing.now key p
        → Contains found.items p) }
{
    let mut found = Vec::new(alloc);
    add_filed(&mut found, filing, b"")?;
    let key = lower(alloc, name)?;
    add_filed(&mut found, filing, key.as_slice())?;
    for attribute in attributes {
        add_attribute(alloc, &mut found, filing, attribute)?;
    }
    Ok(found)
}
