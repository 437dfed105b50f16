//! The names that selectors are filed under.

ghost use Rattle.std.specs.Prelude.{◌≡◌, [], ◌∷◌, map, IfOk};
ghost use Rattle.std.specs.Char.{to_ascii_lowercase};
ghost use Rattle.std.specs.Option.{option_copied};
ghost use Rattle.css_winner.specs.Keys as keys;

use css_data::{Compound, Selector, Test};
use std::alloc::{AllocError, Global};

/// A name after a sign.
pub fn signed(alloc: Global, sign: u8, name: &[u8]) -> Result<Vec<u8>, AllocError>
    ensures { IfOk result (λ key. key.items ≡ sign ∷ name.now) }
{
    let mut key = Vec::new(alloc);
    key.push(sign)?;
    key.extend_from_slice(name)?;
    Ok(key)
}

/// A name in lower case.
pub fn lower(alloc: Global, name: &[u8]) -> Result<Vec<u8>, AllocError>
    ensures { IfOk result (λ key. key.items ≡ map to_ascii_lowercase name.now) }
{
    name.iter()
        .map(|byte| byte.to_ascii_lowercase())
        .collect(alloc)
}

/// The first id that is asked for.
fn first_id(tests: &[Test]) -> Option<&[u8]>
    ensures { option_copied result ≡ keys.first_id tests.now }
{
    for test in tests {
        if let Test::Id { text } = test {
            return Some(text.as_slice());
        }
    }
    None
}

/// The first class that is asked for.
fn first_class(tests: &[Test]) -> Option<&[u8]>
    ensures { option_copied result ≡ keys.first_class tests.now }
{
    for test in tests {
        if let Test::Class { text } = test {
            return Some(text.as_slice());
        }
    }
    None
}

fn compound_key(alloc: Global, compound: &Compound) -> Result<Vec<u8>, AllocError>
    ensures { IfOk result (λ key. key.items ≡ keys.compound_key compound.now) }
{
    if let Some(id) = first_id(compound.tests.as_slice()) {
        return signed(alloc, b'#', id);
    }
    if let Some(class) = first_class(compound.tests.as_slice()) {
        return signed(alloc, b'.', class);
    }
    match &compound.element {
        Some(name) => lower(alloc, name.as_slice()),
        None => Ok(Vec::new(alloc)),
    }
}

fn last(compounds: &[Compound]) -> Option<&Compound>
    ensures { option_copied result ≡ keys.last compounds.now }
{
    compounds.last()
}

/// The name that a selector is filed under: an id of its last compound selector, else a class, else its type in lower case,
/// else the empty name.
pub fn key_of(alloc: Global, selector: &Selector) -> Result<Vec<u8>, AllocError>
    ensures { IfOk result (λ key. key.items ≡ keys.key_of selector.now) }
{
    match last(selector.compounds.as_slice()) {
        Some(compound) => compound_key(alloc, compound),
        None => Ok(Vec::new(alloc)),
    }
}
