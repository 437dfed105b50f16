//! What the style attribute of an element sets.

ghost use Rattle.std.specs.Prelude.{◌≡◌, ◌≤◌, ◌^◌, find, length, IfSome};
ghost use Rattle.std.specs.Option.{option_copied};
ghost use Rattle.html_subset.specs.WellFormed.{NodeIsWithin, AttributeIsWithin};
ghost use Rattle.css_syntax.specs.Answers.{IsUnlessMemory};
ghost use Rattle.css_winner.specs.Own as own;

use crate::setting::{Setting, settings_of};
use css_syntax::parse_declarations;
use html_grammar::{Attribute, DomNode, NodeKind};
use mc_base::{Input, List, Refusal};
use std::alloc::Global;

fn is_style(attribute: &Attribute) -> bool
    ensures { result ≡ own.is_style attribute.now }
{
    attribute.name.as_slice() == b"style".as_slice()
}

fn style_attribute(attributes: &[Attribute]) -> Option<&Attribute>
    ensures { option_copied result ≡ find own.is_style attributes.now }
{
    attributes.iter().find(|attribute| is_style(attribute))
}

/// A refusal of a style attribute, as one of the document at the byte where the value begins.
fn moved(offset: u64, refusal: Refusal) -> Refusal
    ensures { result ≡ own.moved offset refusal }
{
    match refusal {
        Refusal::Grammar {
            input: _,
            offset: _,
            rule,
        } => Refusal::Grammar {
            input: Input::Document,
            offset,
            rule,
        },
        other => other,
    }
}

fn attribute_settings(alloc: Global, attribute: &Attribute) -> Result<List<Setting>, Refusal>
    requires { length attribute.now.value ≤ 2 ^ 28 }
    ensures { IsUnlessMemory result (own.attribute_settings attribute.now) }
{
    match parse_declarations(alloc, attribute.value.as_slice()) {
        Ok(declarations) => Ok(settings_of(alloc, declarations.as_slice())?),
        Err(refusal) => Err(moved(attribute.offset, refusal)),
    }
}

/// What the style attribute of a node sets: nothing, where it has none.
///
/// An attribute off its grammar is `Refusal::Grammar` of the document, with the rule that it breaks, at the value's first byte.
/// Out of memory may be answered for every node.
pub fn own_settings(alloc: Global, node: &DomNode) -> Result<List<Setting>, Refusal>
    requires { NodeIsWithin (2 ^ 28) node.now }
    ensures { IsUnlessMemory result (own.own_settings node.now) }
{
    let NodeKind::Element {
        name: _,
        attributes,
    } = &node.kind
    else {
        return Ok(List::new(alloc));
    };
    match style_attribute(attributes.as_slice()) {
        Some(attribute) => attribute_settings(alloc, attribute),
        None => Ok(List::new(alloc)),
    }
}
