//! From boxes to sealed flows.

ghost use Rattle.std.specs.Prelude.{◌≡◌, ◌⊎◌, ◌<◌, ◌^◌, IfOk, IfErr};
ghost use Rattle.mc_base.specs.declared.refusal.Refusal.TheVariants.{NoMemory as Memory};
ghost use Rattle.html_grammar.specs.Tree.{Forest};
ghost use Rattle.flow_build.specs.Build.{AreBoxesOf, HasFlows, PassesLimit};

use crate::making::made_flows;
use crate::measuring::{measured, with_lines};
use box_data::BoxTree;
use box_laws::boxes_name_shown_elements;
use box_lines::{Liner, PlainLiner};
use box_places::places_are_parented;
use box_style::{box_styles, styles_are_short};
use css_cascade::Styles;
use doc_laws::{boxes_are_near, contents_are_nested, documents_are_sound};
use flow_list::Flows;
use font_table::Fonts;
use mc_base::{Refusal, Units};
use std::alloc::Global;

/// The flows of a document's boxes with their styles, by the faces of a table of metrics (CSS 2.1, sections 8 to 10; CSS
/// Multi-column 1; CSS Fragmentation 3), in a document `width` units wide, whose rows outside any columns may use `height` units.
/// The lines are those that `liner` breaks.
///
/// The boxes were made with these styles, the width is below 2^60 units, and what the liner keeps is right for these faces.
/// `Refusal::Limit` comes exactly where a limit of flows is passed, the first of them in the order: a computed length, a used one,
/// the height of an item, columns, rows one inside another, items, items of a row inside another. Any call may be out of memory.
pub fn build_with<L: Liner>(
    alloc: Global,
    boxes: &BoxTree,
    styles: &Styles,
    fonts: &Fonts,
    width: Units,
    height: Option<Units>,
    liner: &mut L,
) -> Result<Flows, Refusal>
    requires made { (tree : Forest) × AreBoxesOf styles.now tree boxes.now }
    requires wide { width < 2 ^ 60 }
    requires kept { L.is_true liner.old fonts.now }
    ensures flows { (tree : Forest) → AreBoxesOf styles.now tree boxes.now →
        IfOk result (HasFlows fonts.now styles.now width height tree) }
    ensures limit { (tree : Forest) → AreBoxesOf styles.now tree boxes.now →
        IfErr result (λ e. (e ≡ Memory) ⊎ PassesLimit fonts.now styles.now width height tree e) }
    ensures kept { L.is_true liner.new fonts.now }
{
    // Laws of documents: their boxes have short styles and are near, their content is nested, and their flows are sound.
    styles_are_short();
    boxes_name_shown_elements();
    places_are_parented();
    boxes_are_near();
    contents_are_nested();
    documents_are_sound();
    let kinds = box_styles(alloc, styles)?;
    let places = measured(alloc, boxes, styles, kinds.as_slice(), width)?;
    let placed = with_lines(alloc, boxes, styles, fonts, places, liner)?;
    match made_flows(alloc, placed.as_slice(), width, height) {
        Ok(flows) => Ok(Flows::seal(flows)),
        Err(refusal) => Err(refusal),
    }
}

/// The flows of a document's boxes as `build_with` makes them, with each run broken into lines anew.
pub fn build(
    alloc: Global,
    boxes: &BoxTree,
    styles: &Styles,
    fonts: &Fonts,
    width: Units,
    height: Option<Units>,
) -> Result<Flows, Refusal>
    requires made { (tree : Forest) × AreBoxesOf styles.now tree boxes.now }
    requires wide { width < 2 ^ 60 }
    ensures flows { (tree : Forest) → AreBoxesOf styles.now tree boxes.now →
        IfOk result (HasFlows fonts.now styles.now width height tree) }
    ensures limit { (tree : Forest) → AreBoxesOf styles.now tree boxes.now →
        IfErr result (λ e. (e ≡ Memory) ⊎ PassesLimit fonts.now styles.now width height tree e) }
{
    build_with(alloc, boxes, styles, fonts, width, height, &mut PlainLiner)
}
