//! What a style element says.

ghost use Rattle.std.specs.Prelude.{◌≡◌, ◌≤◌, ◌^◌, length};
ghost use Rattle.std.specs.Option.{option_copied};
ghost use Rattle.std.specs.List.{AllByRecursion};
ghost use Rattle.html_subset.specs.WellFormed.{NodeIsWithin};
ghost use Rattle.css_syntax.specs.Answers.{IsUnlessMemory};
ghost use Rattle.doc_sheets.specs.Parts as parts;

use crate::bytes::byte_of;
use crate::media::Media;
use css_data::Sheet;
use css_syntax::parse_sheet;
use html_grammar::{DomNode, NodeKind};
use mc_base::{Found, Input, Refusal};
use std::alloc::Global;

/// The sheet of a style element, where it applies, and the first construct in the element that isn't laid out.
#[derive(Drop)]
pub struct Part {
    pub sheet: Option<Sheet>,
    pub construct: Option<Found>,
}

/// A refusal of a text that begins at a byte of the document, as one of the document.
fn refusal_at(document: &[u8], begins: u64, refusal: Refusal) -> Refusal
    requires { length document.now ≤ 2 ^ 28 }
    ensures { result ≡ parts.refusal_at document.now begins refusal }
{
    match refusal {
        Refusal::Grammar {
            input: _,
            offset,
            rule,
        } => Refusal::Grammar {
            input: Input::Document,
            offset: byte_of(document, begins, offset),
            rule,
        },
        other => other,
    }
}

/// A construct of a text that begins at a byte of the document, as one of the document.
fn found_at(document: &[u8], begins: u64, found: Option<Found>) -> Option<Found>
    requires { length document.now ≤ 2 ^ 28 }
    ensures { result ≡ parts.found_at document.now begins found }
{
    match found {
        Some(found) => Some(Found {
            offset: byte_of(document, begins, found.offset),
            name: found.name,
        }),
        None => None,
    }
}

/// The first of two constructs in document order.
pub fn first_of(found: Option<Found>, other: Option<Found>) -> Option<Found>
    ensures { result ≡ parts.first_of found other }
{
    match found {
        Some(found) => Some(found),
        None => other,
    }
}

fn kept(applies: bool, sheet: Sheet) -> Option<Sheet>
    ensures { result ≡ parts.kept applies sheet }
{
    if applies { Some(sheet) } else { None }
}

/// What a style element says that has this text, which begins at a byte of the document.
fn text_part(
    alloc: Global,
    document: &[u8],
    begins: u64,
    media: Media,
    text: &[u8],
) -> Result<Part, Refusal>
    requires document { length document.now ≤ 2 ^ 28 }
    requires text { length text.now ≤ 2 ^ 28 }
    ensures { IsUnlessMemory result (parts.text_part document.now begins media text.now) }
{
    match parse_sheet(alloc, text) {
        Ok(sheet) => {
            let found = found_at(document, begins, sheet.construct);
            Ok(Part {
                sheet: kept(media.applies, sheet),
                construct: first_of(media.construct, found),
            })
        }
        Err(refusal) => Err(refusal_at(document, begins, refusal)),
    }
}

fn stands_in(number: usize, parent: Option<u32>) -> bool
    ensures { result ≡ parts.stands_in number parent }
{
    match parent {
        Some(parent) => number == parent as usize,
        None => false,
    }
}

/// The words of a node that stands in the element of this number.
fn words_in(number: usize, node: &DomNode) -> Option<&[u8]>
    ensures { option_copied result ≡ parts.words_in number node.now }
{
    if !stands_in(number, node.parent) {
        return None;
    }
    match &node.kind {
        NodeKind::Words { text } => Some(text.as_slice()),
        NodeKind::Element {
            name: _,
            attributes: _,
        } => None,
    }
}

/// What the style element of this number and offset says, with these nodes after it.
pub fn style_part(
    alloc: Global,
    document: &[u8],
    number: usize,
    at: u64,
    media: Media,
    after: &[DomNode],
) -> Result<Part, Refusal>
    requires document { length document.now ≤ 2 ^ 28 }
    requires texts { AllByRecursion (NodeIsWithin (2 ^ 28)) after.now }
    ensures { IsUnlessMemory result (parts.style_part document.now number at media after.now) }
{
    let Some(node) = after.first() else {
        return text_part(alloc, document, at, media, b"");
    };
    match words_in(number, node) {
        Some(text) => text_part(alloc, document, node.offset, media, text),
        None => text_part(alloc, document, at, media, b""),
    }
}
