//! Blocks of declarations (CSS Syntax 3, section 5.4.4; CSS 2.1, section 4.1.8).

ghost use Rattle.std.specs.Prelude.{◌≡◌, ◌++◌, ◌≤◌, length, option_to_list, IfOk, OnOk};
ghost use Rattle.std.specs.List.{list_any};
ghost use Rattle.std.specs.Option.{option_copied};
ghost use Rattle.css_syntax.specs.Blocks as blocks;

use crate::tokens::{copy, tokens};
use css_data::RawDeclaration;
use css_tokens::{
    Lexeme, Rest, Stop, begins, front_len, ident_of, is_delim, is_space, is_word, skip_spaces,
};
use mc_base::{List, Text};
use std::alloc::{AllocError, Global};

/// How many lexemes stand up to the last that is no white space.
fn trimmed_len(lexemes: &[Lexeme]) -> usize
    ensures count { result ≡ blocks.trimmed_len lexemes.now }
    ensures within { result ≤ length lexemes.now }
{
    let mut len = 0;
    for (i, lexeme) in lexemes.iter().enumerate() {
        if !is_space(lexeme) {
            len = i + 1;
        }
    }
    len
}

/// Without white space at the end.
fn trimmed(lexemes: &[Lexeme]) -> &[Lexeme]
    ensures { result.now ≡ blocks.trimmed lexemes.now }
{
    lexemes.split_at(trimmed_len(lexemes)).0
}

/// The last lexeme.
fn last(lexemes: &[Lexeme]) -> Option<&Lexeme>
    ensures { option_copied result ≡ blocks.last lexemes.now }
{
    lexemes.last()
}

/// All but the last lexeme.
fn before_last(lexemes: &[Lexeme]) -> &[Lexeme]
    ensures { result.now ≡ blocks.before_last lexemes.now }
{
    lexemes.split_at(lexemes.len().saturating_sub(1)).0
}

/// Whether the last lexeme is this character.
fn ends_with(lexemes: &[Lexeme], character: char) -> bool
    ensures { result ≡ blocks.ends_with character lexemes.now }
{
    match last(lexemes) {
        Some(lexeme) => is_delim(lexeme, character),
        None => false,
    }
}

/// Whether the last lexeme is the word `important`.
fn ends_important(lexemes: &[Lexeme]) -> bool
    ensures { result ≡ blocks.ends_important lexemes.now }
{
    let Some(lexeme) = last(lexemes) else {
        return false;
    };
    match ident_of(lexeme) {
        Some(name) => is_word(name, b"important"),
        None => false,
    }
}

/// A value without its final `!important`, and whether it has one.
fn parted(value: &[Lexeme]) -> (&[Lexeme], bool)
    ensures { (result.0.now, result.1) ≡ blocks.parted value.now }
{
    let front = trimmed(before_last(value));
    if ends_important(value) && ends_with(front, '!') {
        return (trimmed(before_last(front)), true);
    }
    (value, false)
}

/// Whether a backslash stands among lexemes.
fn has_escape(lexemes: &[Lexeme]) -> bool
    ensures { result ≡ list_any (blocks.is_escape) lexemes.now }
{
    lexemes.iter().any(|lexeme| is_delim(lexeme, '\\'))
}

/// The byte of the next lexeme, or 0.
fn offset(rest: &Rest) -> u64
    ensures { result ≡ blocks.offset_of rest.now }
{
    match rest.peek() {
        Some(lexeme) => lexeme.at,
        None => 0,
    }
}

/// The name in front.
fn first_name<'a>(rest: &Rest<'a>) -> Option<&'a [u8]>
    ensures { option_copied result ≡ blocks.first_name rest.now }
{
    let lexeme: &'a Lexeme = rest.peek()?;
    ident_of(lexeme)
}

/// What stands after a name: a colon and a value.
fn valued(
    alloc: Global,
    name: Text,
    offset: u64,
    rest: &mut Rest,
) -> Result<Option<RawDeclaration>, AllocError>
    ensures { IfOk result (λ o. o ≡ blocks.valued name offset rest.old) }
{
    if !begins(rest, ':') {
        return Ok(None);
    }
    rest.bump();
    skip_spaces(rest);
    let (value, important) = parted(trimmed(rest.as_slice()));
    if value.is_empty() {
        return Ok(None);
    }
    Ok(Some(RawDeclaration {
        name,
        value: tokens(alloc, value)?,
        important,
        offset,
    }))
}

/// The declaration that a piece spells, if it spells one.
#[tactic(auto, unfolding(crate::specs::Blocks::declaration_of))]
fn declaration(alloc: Global, piece: &[Lexeme]) -> Result<Option<RawDeclaration>, AllocError>
    ensures { IfOk result (λ o. o ≡ blocks.declaration_of piece.now) }
{
    if has_escape(piece) {
        return Ok(None);
    }
    let mut rest = Rest::new(piece);
    skip_spaces(&mut rest);
    let offset = offset(&rest);
    let Some(name) = first_name(&rest) else {
        return Ok(None);
    };
    let name = copy(alloc, name)?;
    rest.bump();
    skip_spaces(&mut rest);
    valued(alloc, name, offset, &mut rest)
}

fn push_declaration(
    all: &mut List<RawDeclaration>,
    declaration: Option<RawDeclaration>,
) -> Result<(), AllocError>
    ensures { OnOk result (all.new ≡ all.old ++ option_to_list declaration) }
{
    if let Some(declaration) = declaration {
        all.push(declaration)?;
    }
    Ok(())
}

/// The declarations of a block.
pub fn declarations(alloc: Global, block: &[Lexeme]) -> Result<List<RawDeclaration>, AllocError>
    ensures { IfOk result (λ all. all ≡ blocks.declarations_of block.now) }
{
    let mut rest = Rest::new(block);
    let mut all = List::new(alloc);
    for _ in 0..block.len() {
        let Some(_lexeme) = rest.peek() else {
            return Ok(all);
        };
        let piece = rest.take(front_len(Stop::At(';'), rest.as_slice()));
        rest.bump();
        let next = declaration(alloc, piece)?;
        push_declaration(&mut all, next)?;
    }
    Ok(all)
}
