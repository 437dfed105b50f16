//! The style sheets of a document.

ghost use Rattle.std.specs.Prelude.{◌≡◌, ◌≤◌, ◌^◌, ◌++◌, length, IfOk};
ghost use Rattle.std.specs.List.{AllByRecursion};
ghost use Rattle.html_subset.specs.WellFormed.{AttributeIsWithin, IsWellFormed, NodeIsWithin};
ghost use Rattle.css_syntax.specs.Answers.{IsUnlessMemory};
ghost use Rattle.doc_sheets.specs.Own as own;
ghost use Rattle.doc_sheets.specs.Parts as parts;

use crate::media::media_of;
use crate::part::{Part, first_of, style_part};
use css_data::Sheet;
use css_winner::own_settings;
use html_grammar::{Attribute, Dom, DomNode, NodeKind};
use mc_base::{Found, List, NoMemory, Refusal};
use std::alloc::Global;

/// The sheets of the style elements of a document that apply, in document order, and the first construct in its style elements
/// that isn't laid out, also in those that don't apply.
///
/// The offsets of the sheets count the bytes of their texts, and that of `construct` those of the document.
#[derive(Drop)]
pub struct OwnSheets {
    pub sheets: List<Sheet>,
    pub construct: Option<Found>,
}

fn no_part() -> Part
    ensures { result ≡ own.no_part }
{
    Part {
        sheet: None,
        construct: None,
    }
}

fn is_style(name: &[u8]) -> bool
    ensures { result ≡ own.is_style name.now }
{
    name == b"style".as_slice()
}

/// What an element says that is named so, where it is a style element.
fn element_part(
    alloc: Global,
    document: &[u8],
    number: usize,
    at: u64,
    name: &[u8],
    attributes: &[Attribute],
    after: &[DomNode],
) -> Result<Part, Refusal>
    requires document { length document.now ≤ 2 ^ 28 }
    requires attributes { AllByRecursion (AttributeIsWithin (2 ^ 28)) attributes.now }
    requires texts { AllByRecursion (NodeIsWithin (2 ^ 28)) after.now }
    ensures { IsUnlessMemory result (own.element_part document.now number at name.now attributes.now after.now) }
{
    if !is_style(name) {
        return Ok(no_part());
    }
    let media = media_of(alloc, attributes)?;
    style_part(alloc, document, number, at, media, after)
}

fn kind_part(
    alloc: Global,
    document: &[u8],
    number: usize,
    node: &DomNode,
    after: &[DomNode],
) -> Result<Part, Refusal>
    requires document { length document.now ≤ 2 ^ 28 }
    requires node { NodeIsWithin (2 ^ 28) node.now }
    requires texts { AllByRecursion (NodeIsWithin (2 ^ 28)) after.now }
    ensures { IsUnlessMemory result (own.kind_part document.now number node.now.offset after.now node.now.kind) }
{
    match &node.kind {
        NodeKind::Element { name, attributes } => {
            let name = name.as_slice();
            let attributes = attributes.as_slice();
            element_part(
                alloc,
                document,
                number,
                node.offset,
                name,
                attributes,
                after,
            )
        }
        NodeKind::Words { text: _ } => Ok(no_part()),
    }
}

/// What a node says, with these nodes after it: first its style attribute, then its sheet.
fn node_part(
    alloc: Global,
    document: &[u8],
    number: usize,
    node: &DomNode,
    after: &[DomNode],
) -> Result<Part, Refusal>
    requires document { length document.now ≤ 2 ^ 28 }
    requires node { NodeIsWithin (2 ^ 28) node.now }
    requires texts { AllByRecursion (NodeIsWithin (2 ^ 28)) after.now }
    ensures { IsUnlessMemory result (own.node_part document.now number node.now after.now) }
{
    match own_settings(alloc, node) {
        Ok(_) => kind_part(alloc, document, number, node, after),
        Err(refusal) => Err(refusal),
    }
}

/// These sheets and another one after them, if there is one.
fn with_sheet(sheets: List<Sheet>, sheet: Option<Sheet>) -> Result<List<Sheet>, NoMemory>
    ensures { IfOk result (λ all. all ≡ sheets ++ own.sheets_of sheet) }
{
    match sheet {
        Some(sheet) => {
            let mut all = sheets;
            all.push(sheet)?;
            Ok(all)
        }
        None => Ok(sheets),
    }
}

/// These sheets, and that of a part after them.
fn with_part(before: OwnSheets, part: Part) -> Result<OwnSheets, NoMemory>
    ensures { IfOk result (λ all. all ≡ own.with_part before part) }
{
    let OwnSheets { sheets, construct } = before;
    let Part {
        sheet,
        construct: found,
    } = part;
    Ok(OwnSheets {
        sheets: with_sheet(sheets, sheet)?,
        construct: first_of(construct, found),
    })
}

/// The style sheets that stand in a document, a text of at most 2^28 bytes with its nodes: those of its `style` elements.
///
/// An element applies by its `media` attribute, and without one. Style attributes and style elements are read in document
/// order, and the first fault is `Refusal::Grammar` of the document: that of a style attribute at its value's first byte, that
/// of a sheet at the byte of the document where it stands. `Refusal::Limit` comes where a sheet has more than 4,000 rules. Out
/// of memory may be answered for every document.
pub fn own_sheets(alloc: Global, text: &[u8], dom: &Dom) -> Result<OwnSheets, Refusal>
    requires formed { IsWellFormed dom.now }
    requires text { length text.now ≤ 2 ^ 28 }
    ensures exact { IsUnlessMemory result (own.own_of text.now dom.now.nodes) }
{
    let mut found = OwnSheets {
        sheets: List::new(alloc),
        construct: None,
    };
    let nodes = dom.nodes.as_slice();
    for (number, node) in nodes.iter().enumerate() {
        match node_part(alloc, text, number, node, &nodes[number + 1..]) {
            Ok(part) => found = with_part(found, part)?,
            Err(refusal) => return Err(refusal),
        }
    }
    Ok(found)
}
