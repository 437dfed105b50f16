//! From computed styles to boxes.

ghost use Rattle.std.specs.Prelude.{◌≡◌, ◌⊎◌, None, Some, IfOk, IfErr};
ghost use Rattle.mc_base.specs.declared.refusal.Refusal.TheVariants.{NoMemory as Memory, Construct};
ghost use Rattle.mc_base.specs.declared.refusal.Input.TheVariants.{Document};
ghost use Rattle.mc_base.specs.declared.refusal.Found.{Found as AFound};
ghost use Rattle.html_grammar.specs.Tree.{Forest, nodes_from};
ghost use Rattle.html_subset.specs.WellFormed.{IsWellFormed};
ghost use Rattle.box_data.specs.BoxTree.{first_construct, tree_of};
ghost use Rattle.box_style.specs.Styles.{styles_in};

use box_data::BoxTree;
use box_maker::boxes_of;
use box_style::box_styles;
use css_cascade::Styles;
use html_grammar::Dom;
use mc_base::Refusal;
use std::alloc::Global;

/// The boxes of a document whose nodes have these computed styles, and its elements outside subtrees with `display: none` (CSS
/// 2.1, section 9.2; CSS Multi-column 1, sections 2 and 6).
///
/// The document is well formed, as `html_subset::parse` answers it. `Refusal::Construct` is the first construct at an element that
/// isn't laid out, by the byte of the document where the element begins: a winning declaration, a block-level element in an inline
/// one, a height of a block without columns, or an image without both sizes in whole px. Out of memory may be answered for every
/// document.
pub fn boxes(alloc: Global, dom: &Dom, styles: &Styles) -> Result<BoxTree, Refusal>
    requires formed { IsWellFormed dom.now }
    ensures boxes { IfOk result (λ boxes. (tree : Forest) → dom.now.nodes ≡ nodes_from None 0 tree →
        (boxes ≡ tree_of (styles_in styles.now) tree) × (first_construct (styles_in styles.now) tree ≡ None)) }
    ensures refused { IfErr result (λ e. (e ≡ Memory) ⊎ ((tree : Forest) → dom.now.nodes ≡ nodes_from None 0 tree →
        (found : AFound) × (first_construct (styles_in styles.now) tree ≡ Some found)
        × (e ≡ Construct Document found.offset found.name))) }
{
    let all = box_styles(alloc, styles)?;
    boxes_of(alloc, dom, all.as_slice())
}
