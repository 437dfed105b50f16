//! The flows of a document's tree with its sheets.

ghost use Rattle.std.specs.Prelude.{◌≡◌, ◌⊎◌, ◌<◌, ◌^◌, length, None, IfOk, IfErr};
ghost use Rattle.mc_base.specs.declared.refusal.Refusal.TheVariants as refusals;
ghost use Rattle.html_grammar.specs.Tree.{Forest, nodes_from};
ghost use Rattle.html_subset.specs.WellFormed.{IsWellFormed};
ghost use Rattle.css_cascade.specs.Attributes.{AllAreRead};
ghost use Rattle.css_cascade.specs.Cascaded.{IsCascaded};
ghost use Rattle.flow_build.specs.Build.{AreBoxesOf, HasFlows, PassesLimit};
ghost use Rattle.doc_flows.specs.Trees.{TreeSays, RefusesTree};
ghost use Rattle.doc_flows.specs.Parts.{AreLaid, IsRefused};

use box_data::BoxTree;
use box_tree::boxes;
use css_cascade::{Styles, cascade};
use css_data::Sheet;
use flow_build::{Liner, build_with};
use flow_list::Flows;
use font_table::Fonts;
use html_grammar::Dom;
use mc_base::{Refusal, Units};
use std::alloc::Global;

/// The boxes of a document and its flows.
#[derive(Drop)]
pub struct BoxedFlows {
    pub boxes: BoxTree,
    pub flows: Flows,
}

/// The styles of a document whose style attributes are on their grammar.
pub fn styled(alloc: Global, dom: &Dom, sheets: &[Sheet]) -> Result<Styles, Refusal>
    requires formed { IsWellFormed dom.now }
    requires read { AllAreRead dom.now.nodes }
    ensures styles { IfOk result (λ styles. IsCascaded sheets.now dom.now styles) }
    ensures memory { IfErr result (λ refusal. refusal ≡ refusals.NoMemory) }
{
    cascade(alloc, dom, sheets)
}

/// The flows of a document with its boxes.
fn with_boxes<L: Liner>(
    alloc: Global,
    boxes: BoxTree,
    styles: &Styles,
    fonts: &Fonts,
    width: Units,
    height: Option<Units>,
    liner: &mut L,
) -> Result<BoxedFlows, Refusal>
    requires made { (tree : Forest) × AreBoxesOf styles.now tree boxes }
    requires wide { width < 2 ^ 60 }
    requires kept { L.is_true liner.old fonts.now }
    ensures flows { (tree : Forest) → AreBoxesOf styles.now tree boxes →
        IfOk result (λ all. HasFlows fonts.now styles.now width height tree all.flows) }
    ensures boxes { IfOk result (λ all. all.boxes ≡ boxes) }
    ensures limit { (tree : Forest) → AreBoxesOf styles.now tree boxes →
        IfErr result (λ e. (e ≡ refusals.NoMemory) ⊎ PassesLimit fonts.now styles.now width height tree e) }
    ensures kept { L.is_true liner.new fonts.now }
{
    match build_with(alloc, &boxes, styles, fonts, width, height, liner) {
        Ok(flows) => Ok(BoxedFlows { boxes, flows }),
        Err(refusal) => Err(refusal),
    }
}

/// The boxes and the flows of a document with its styles.
pub fn laid_out<L: Liner>(
    alloc: Global,
    dom: &Dom,
    styles: &Styles,
    fonts: &Fonts,
    width: Units,
    height: Option<Units>,
    liner: &mut L,
) -> Result<BoxedFlows, Refusal>
    requires formed { IsWellFormed dom.now }
    requires size { length styles.now ≡ length dom.now.nodes }
    requires wide { width < 2 ^ 60 }
    requires kept { L.is_true liner.old fonts.now }
    ensures flows { (tree : Forest) → dom.now.nodes ≡ nodes_from None 0 tree →
        IfOk result (λ all. AreLaid fonts.now styles.now width height tree all) }
    ensures refused { (tree : Forest) → dom.now.nodes ≡ nodes_from None 0 tree →
        IfErr result (λ e. IsRefused fonts.now styles.now width height tree e) }
    ensures kept { L.is_true liner.new fonts.now }
{
    match boxes(alloc, dom, styles) {
        Ok(tree) => with_boxes(alloc, tree, styles, fonts, width, height, liner),
        Err(refusal) => Err(refusal),
    }
}

/// The flows of a document's tree with these sheets in the order of the cascade and these fonts, in a block container of this
/// width and with this available height for columns, if there is one, in units of 1/64 px. The lines are those that `liner`
/// breaks.
///
/// The document is well formed, each of its style attributes is on its grammar, the width is below 2^60, and what the liner keeps
/// is right for these fonts; it stays so after every answer. `Refusal::Construct` comes exactly for what isn't laid out at an
/// element that makes a box, the first in the document; then `Refusal::Limit` exactly where the flows pass a limit, as
/// `document_flows` says. `Refusal::Grammar` never comes. Out of memory may be answered for every document.
pub fn tree_flows<L: Liner>(
    alloc: Global,
    dom: &Dom,
    sheets: &[Sheet],
    fonts: &Fonts,
    width: Units,
    height: Option<Units>,
    liner: &mut L,
) -> Result<Flows, Refusal>
    requires formed { IsWellFormed dom.now }
    requires read { AllAreRead dom.now.nodes }
    requires wide { width < 2 ^ 60 }
    requires kept { L.is_true liner.old fonts.now }
    // What is answered are the flows of the tree.
    ensures flows { IfOk result (λ flows. TreeSays dom.now sheets.now fonts.now width height flows) }
    // A refusal has its reason, the first in their order, unless memory ran out.
    ensures refused { IfErr result (λ e. (e ≡ refusals.NoMemory) ⊎ RefusesTree dom.now sheets.now fonts.now width height e) }
    ensures kept { L.is_true liner.new fonts.now }
{
    let styles = styled(alloc, dom, sheets)?;
    match laid_out(alloc, dom, &styles, fonts, width, height, liner) {
        Ok(all) => Ok(all.flows),
        Err(refusal) => Err(refusal),
    }
}
