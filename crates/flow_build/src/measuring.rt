//! Boxes in their places with their lines.

ghost use Rattle.std.specs.Prelude.{◌≡◌, ◌⊎◌, ◌<◌, ◌^◌, ℕ, [], List as Items, IfOk, IfErr, None, Some};
ghost use Rattle.std.specs.List.{All};
ghost use Rattle.mc_base.specs.declared.refusal.Refusal.TheVariants.{NoMemory as Memory, Limit};
ghost use Rattle.mc_base.specs.declared.refusal.LimitName.TheVariants.{Length};
ghost use Rattle.html_grammar.specs.Tree.{Forest};
ghost use Rattle.line_breaker.specs.declared.line.Line.{Line as OneLine};
ghost use Rattle.box_data.specs.BoxTree.{in_order};
ghost use Rattle.box_data.specs.Limits.{all_used_lengths, greatest_length, long};
ghost use Rattle.box_lines.specs.Made.{AreThin};
ghost use Rattle.box_style.specs.Styles.{styles_in};
ghost use Rattle.flow_build.specs.Build.{AreBoxesOf, AreDocumentLines, document_places, early_limit};

use crate::few::has_long_run;
use box_data::{BoxStyle, BoxTree, Placed};
use box_laws::boxes_name_shown_elements;
use box_lines::{Liner, break_boxes};
use box_places::places;
use box_style::{first_long, run_texts, styles_are_short};
use css_cascade::Styles;
use font_table::Fonts;
use mc_base::{LimitName, List, NoMemory, Refusal, Units};
use std::alloc::Global;

/// Why a length is refused.
fn too_long(length: Units) -> Refusal
    ensures { result ≡ Limit Length length greatest_length }
{
    Refusal::Limit {
        name: LimitName::Length,
        reached: length,
        limit: 16_777_216,
    }
}

/// The boxes in their places without lines, or the first computed or used length above the limit.
pub fn measured(
    alloc: Global,
    boxes: &BoxTree,
    styles: &Styles,
    kinds: &[BoxStyle],
    width: Units,
) -> Result<List<Placed>, Refusal>
    requires made { (tree : Forest) × AreBoxesOf styles.now tree boxes.now }
    requires kinds { kinds.now ≡ styles_in styles.now }
    requires wide { width < 2 ^ 60 }
    ensures places { (tree : Forest) → AreBoxesOf styles.now tree boxes.now → IfOk result (λ places.
        (places ≡ in_order (document_places styles.now [] width tree)) × (early_limit styles.now width tree ≡ None)) }
    ensures refused { (tree : Forest) → AreBoxesOf styles.now tree boxes.now → IfErr result (λ e.
        (e ≡ Memory) ⊎ (early_limit styles.now width tree ≡ Some e)) }
{
    // What no shown element passes, no box does.
    boxes_name_shown_elements();
    styles_are_short();
    match first_long(styles, boxes.shown.as_slice()) {
        Some(length) => Err(too_long(length)),
        None => places(alloc, boxes, kinds, width),
    }
}

/// The boxes in their places with their lines.
pub fn with_lines<L: Liner>(
    alloc: Global,
    boxes: &BoxTree,
    styles: &Styles,
    fonts: &Fonts,
    measured: List<Placed>,
    liner: &mut L,
) -> Result<List<Placed>, NoMemory>
    requires made { (tree : Forest) × AreBoxesOf styles.now tree boxes.now }
    requires lengths { long (all_used_lengths measured) ≡ None }
    requires kept { L.is_true liner.old fonts.now }
    ensures lines { (tree : Forest) (width : ℕ) → AreBoxesOf styles.now tree boxes.now
        → measured ≡ in_order (document_places styles.now [] width tree) → IfOk result (λ placed. (lines : Items (Items OneLine))
        × AreDocumentLines fonts.now styles.now width tree lines
        × (placed ≡ in_order (document_places styles.now lines width tree)) × All AreThin lines) }
    ensures kept { L.is_true liner.new fonts.now }
{
    boxes_name_shown_elements();
    if has_long_run(boxes.nodes.as_slice()) {
        return Err(NoMemory);
    }
    let texts = run_texts(alloc, styles, fonts)?;
    break_boxes(alloc, boxes, texts, fonts, measured, liner)
}
