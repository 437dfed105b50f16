//! The first construct of a document that isn't laid out.

ghost use Rattle.std.specs.Prelude.{◌≡◌, ◌<◌, ◌&&◌, ◌||◌, not, is_none, ℕ, suc, codes, Option, Some, None, true, slice_get};
ghost use Rattle.html_grammar.specs.Tree.{Forest};
ghost use Rattle.box_data.specs.Styles.{is_length, style_of};
ghost use Rattle.box_data.specs.BoxTree as boxes;
ghost use Rattle.box_maker.specs.Standing.{Stands};
ghost use Rattle.box_maker.specs.Parts.{construct_first};

use crate::reading::{
    has_height_at, height_of, is_block_at, is_container_at, is_image, is_shown_at, refused_at,
    width_of,
};
use crate::source::{Source, after, node_at};
use box_data::BoxStyle;
use html_grammar::{Attribute, NodeKind};
use mc_base::{ConstructName, Found};

/// Whether a block-level element has a height that isn't laid out.
fn has_no_height(styles: &[BoxStyle], k: u32, is_block: bool, name: &[u8]) -> bool
    ensures { result ≡ (is_block && is_length (style_of styles.now k).height
        && not (boxes.is_container (style_of styles.now k) name.now) && not (boxes.is_image name.now)) }
{
    is_block && has_height_at(styles, k) && !is_container_at(styles, k, name) && !is_image(name)
}

/// Whether an image lacks a size.
fn lacks_size(name: &[u8], attributes: &[Attribute]) -> bool
    ensures { result ≡ (boxes.is_image name.now
        && (is_none (boxes.size_attribute (codes "width") attributes.now)
        || is_none (boxes.size_attribute (codes "height") attributes.now))) }
{
    is_image(name) && (width_of(attributes).is_none() || height_of(attributes).is_none())
}

/// Why an element isn't laid out; it is block-level or not, and so is the element around it.
fn construct_of(
    styles: &[BoxStyle],
    k: u32,
    is_block: bool,
    around_is_block: bool,
    name: &[u8],
    attributes: &[Attribute],
) -> Option<ConstructName>
    ensures { result ≡ boxes.construct_of (style_of styles.now k) is_block around_is_block name.now attributes.now }
{
    if let Some(name) = refused_at(styles, k) {
        return Some(name);
    }
    if is_block && !around_is_block {
        return Some(ConstructName::BlockInInline);
    }
    if has_no_height(styles, k, is_block, name) {
        return Some(ConstructName::Height);
    }
    if lacks_size(name, attributes) {
        return Some(ConstructName::ImgSize);
    }
    None
}

/// The first construct of shown element k, whose nodes end before `end`, or in it; `offset` is the byte where it begins.
#[cycle(constructs)]
fn construct_of_element(
    source: &Source,
    offset: u64,
    is_block: bool,
    around_is_block: bool,
    k: u32,
    end: u32,
    name: &[u8],
    attributes: &[Attribute],
) -> Option<Found>
    requires { k < end }
    ensures { (kids : Forest) → Stands source.now.nodes.now source.now.ends.now (Some k) (suc k) end kids →
        result ≡ boxes.or_else
        (boxes.found_at offset
        (boxes.construct_of (style_of source.now.styles.now k) is_block around_is_block name.now attributes.now))
        (boxes.construct_from source.now.styles.now is_block (suc k) kids) }
{
    match construct_of(
        source.styles,
        k,
        is_block,
        around_is_block,
        name,
        attributes,
    ) {
        Some(name) => Some(Found { offset, name }),
        None => construct_in(source, is_block, k + 1, end),
    }
}

/// The first construct of node k, whose nodes end before `end`, or in it.
#[cycle(constructs)]
fn construct_at(source: &Source, around_is_block: bool, k: u32, end: u32) -> Option<Found>
    requires { k < end }
    ensures { (parent : Option ℕ) (last : ℕ) (forest : Forest) →
        Stands source.now.nodes.now source.now.ends.now parent k last forest →
        k < last → slice_get source.now.ends.now k ≡ Some end →
        result ≡ construct_first source.now.styles.now around_is_block k forest }
{
    let node = node_at(source, k)?;
    match &node.kind {
        NodeKind::Element { name, attributes } => {
            if !is_shown_at(source.styles, k) {
                return None;
            }
            let is_block = is_block_at(source.styles, k);
            construct_of_element(
                source,
                node.offset,
                is_block,
                around_is_block,
                k,
                end,
                name.as_slice(),
                attributes.as_slice(),
            )
        }
        NodeKind::Words { text: _ } => None,
    }
}

/// The first construct in the nodes from k up to `end`, side by side with those in them.
#[cycle(constructs)]
fn construct_in(source: &Source, around_is_block: bool, k: u32, end: u32) -> Option<Found>
    ensures { (parent : Option ℕ) (forest : Forest) →
        Stands source.now.nodes.now source.now.ends.now parent k end forest →
        result ≡ boxes.construct_from source.now.styles.now around_is_block k forest }
{
    let mut at = k;
    while at < end {
        let next = after(source, at, end);
        match construct_at(source, around_is_block, at, next) {
            Some(found) => return Some(found),
            None => at = next,
        }
    }
    None
}

/// The first construct of a document with this many nodes, html being block-level.
pub fn first_construct(source: &Source, count: u32) -> Option<Found>
    ensures { (forest : Forest) → Stands source.now.nodes.now source.now.ends.now None 0 count forest →
        result ≡ boxes.first_construct source.now.styles.now forest }
{
    let node = node_at(source, 0)?;
    if count == 0 {
        return None;
    }
    match &node.kind {
        NodeKind::Element { name, attributes } => {
            if !is_shown_at(source.styles, 0) {
                return None;
            }
            let end = after(source, 0, count);
            construct_of_element(
                source,
                node.offset,
                true,
                true,
                0,
                end,
                name.as_slice(),
                attributes.as_slice(),
            )
        }
        NodeKind::Words { text: _ } => None,
    }
}
