//! The boxes of a document.

ghost use Rattle.std.specs.Prelude.{◌≡◌, ◌⊎◌, None, Some, IfOk, IfErr, map};
ghost use Rattle.mc_base.specs.declared.refusal.Refusal.TheVariants.{NoMemory as Memory, Construct};
ghost use Rattle.mc_base.specs.declared.refusal.Input.TheVariants.{Document};
ghost use Rattle.mc_base.specs.declared.refusal.Found.{Found as AFound};
ghost use Rattle.html_grammar.specs.Tree.{Forest, nodes_from};
ghost use Rattle.html_subset.specs.WellFormed.{IsWellFormed};
ghost use Rattle.box_data.specs.Styles as styling;
ghost use Rattle.box_data.specs.BoxTree.{first_construct as construct_in, tree_of};

use crate::boxes::push_root;
use crate::constructs::first_construct;
use crate::ends::ends_of;
use crate::shown::push_shown;
use crate::source::Source;
use box_data::{BoxStyle, BoxTree};
use html_grammar::Dom;
use inline_text::RunStyle;
use mc_base::{Input, List, NoMemory, Refusal};
use std::alloc::Global;

/// What the styles say of text whose face doesn't count.
fn texts_of(alloc: Global, styles: &[BoxStyle]) -> Result<Vec<RunStyle>, NoMemory>
    ensures { IfOk result (λ texts. texts.items ≡ styling.texts_of styles.now) }
{
    let mut texts = Vec::new(alloc);
    for style in styles {
        texts.push(RunStyle {
            face: 0,
            size: style.size,
            line: style.line,
            wrap: style.wrap,
            keep: style.keep,
            hyphens: style.hyphens,
        })?;
    }
    Ok(texts)
}

/// The boxes of a document by the styles of its nodes, of which those of texts don't count (CSS 2.1, section 9.2; CSS
/// Multi-column 1, sections 2 and 6), and its elements outside subtrees with `display: none`.
///
/// It is refused for the first construct that isn't laid out, by the byte of the document where the element begins: a
/// winning declaration, a block-level element in an inline one, a height of a block without columns, or an image without
/// both sizes in whole px. Or it is out of memory.
pub fn boxes_of(alloc: Global, dom: &Dom, styles: &[BoxStyle]) -> Result<BoxTree, Refusal>
    requires formed { IsWellFormed dom.now }
    ensures boxes { IfOk result (λ boxes. (tree : Forest) → dom.now.nodes ≡ nodes_from None 0 tree →
        (boxes ≡ tree_of styles.now tree) × (construct_in styles.now tree ≡ None)) }
    ensures refused { IfErr result (λ e. (e ≡ Memory) ⊎ ((tree : Forest) → dom.now.nodes ≡ nodes_from None 0 tree →
        (found : AFound) × (construct_in styles.now tree ≡ Some found) × (e ≡ Construct Document found.offset found.name))) }
{
    let nodes = dom.nodes.as_slice();
    let ends = ends_of(alloc, nodes)?;
    let texts = texts_of(alloc, styles)?;
    let source = Source {
        nodes,
        styles,
        texts: texts.as_slice(),
        ends: ends.as_slice(),
    };
    let count = nodes.len() as u32;
    match first_construct(&source, count) {
        Some(found) => {
            return Err(Refusal::Construct {
                input: Input::Document,
                offset: found.offset,
                name: found.name,
            });
        }
        None => {}
    }
    let mut boxes = List::new(alloc);
    push_root(alloc, &source, &mut boxes, count)?;
    let mut shown = List::new(alloc);
    push_shown(&source, &mut shown, 0, count)?;
    Ok(BoxTree {
        nodes: boxes,
        shown,
    })
}
