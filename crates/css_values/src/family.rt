//! Lists of family names.

ghost use Rattle.std.specs.Prelude.{◌≡◌, ◌<◌, [], ◌∷◌, length, None, IfSome, IfOk};
ghost use Rattle.std.specs.Option.{option_copied};
ghost use Rattle.std.specs.List.{slice_split};
ghost use Rattle.css_values.specs.Families as families;
ghost use Rattle.css_values.specs.Families.{is_comma as is_comma_token};
ghost use Rattle.css_values.specs.Values.{significant};

use crate::accept::{copied, is_space, only};
use css_data::CssToken;
use mc_base::{List, Text};
use std::alloc::{AllocError, Global};

fn is_comma(token: &CssToken) -> bool
    ensures { result ≡ families.is_comma token.now }
{
    match token {
        CssToken::Delim { ch } => *ch == ',',
        _ => false,
    }
}

/// What stands before the first comma, and what after it.
fn cut(value: &[CssToken]) -> (&[CssToken], Option<&[CssToken]>)
    ensures pieces { slice_split is_comma_token (significant value.now) ≡
        significant result.0.now ∷ families.pieces (option_copied result.1) }
    ensures shorter { IfSome result.1 (λ rest. length rest.now < length value.now) }
{
    for (i, token) in value.iter().enumerate() {
        if is_comma(token) {
            let (piece, rest) = value.split_at(i);
            return (piece, Some(rest.split_at(1).1));
        }
    }
    (value, None)
}

/// The string that is the only token.
fn string(alloc: Global, piece: &[CssToken]) -> Result<Option<Text>, AllocError>
    ensures { IfOk result (λ name. name ≡ families.string_of (significant piece.now)) }
{
    match only(piece) {
        Some(CssToken::Quoted { text }) => Ok(Some(copied(alloc, text.as_slice())?)),
        _ => Ok(None),
    }
}

/// The name with one identifier more.
fn with_identifier(alloc: Global, name: Option<Text>, text: &[u8]) -> Result<Text, AllocError>
    ensures { IfOk result (λ more. more ≡ families.with_identifier name text.now) }
{
    match name {
        None => copied(alloc, text),
        Some(name) => {
            let mut name = name;
            name.push(b' ')?;
            name.extend(text)?;
            Ok(name)
        }
    }
}

/// The identifiers, with one space between.
fn joined(alloc: Global, piece: &[CssToken]) -> Result<Option<Text>, AllocError>
    ensures { IfOk result (λ name. name ≡ families.joined None (significant piece.now)) }
{
    let mut name = None;
    for token in piece {
        if !is_space(token) {
            let CssToken::Ident { text } = token else {
                return Ok(None);
            };
            name = Some(with_identifier(alloc, name, text.as_slice())?);
        }
    }
    Ok(name)
}

/// The family name that these tokens are.
fn family(alloc: Global, piece: &[CssToken]) -> Result<Option<Text>, AllocError>
    ensures { IfOk result (λ name. name ≡ families.family (significant piece.now)) }
{
    if let Some(name) = string(alloc, piece)? {
        return Ok(Some(name));
    }
    joined(alloc, piece)
}

/// The family names in a list with commas.
#[tactic(auto, unfolding(crate::specs::Families::families))]
pub fn families(alloc: Global, value: &[CssToken]) -> Result<Option<List<Text>>, AllocError>
    ensures { IfOk result (λ names. names ≡ families.families (significant value.now)) }
{
    let mut names = List::new(alloc);
    let mut rest = value;
    'pieces: loop {
        let (piece, after) = cut(rest);
        let Some(name) = family(alloc, piece)? else {
            return Ok(None);
        };
        names.push(name)?;
        let Some(next) = after else {
            return Ok(Some(names));
        };
        rest = next;
    }
}
