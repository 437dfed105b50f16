//! The lines of all boxes of a document.

ghost use Rattle.std.specs.Prelude.{◌≡◌, ℕ, ◌<◌, ◌^◌, List as Items, [], None, length, slice_get, slice_index_or, OnOk, IfOk};
ghost use Rattle.std.specs.Prelude.{IfSome};
ghost use Rattle.std.specs.Option.{option_copied};
ghost use Rattle.std.specs.List.{All};
ghost use Rattle.inline_text.specs.declared.content.RunStyle.{RunStyle as OneStyle};
ghost use Rattle.line_breaker.specs.declared.line.Line.{Line as OneLine};
ghost use Rattle.line_breaker.specs.Lines.{IsStyle};
ghost use Rattle.box_data.specs.declared.placed.Placed.{Placed as OnePlaced};
ghost use Rattle.box_data.specs.declared.style.BoxStyle.{BoxStyle as OneBoxStyle};
ghost use Rattle.box_data.specs.BoxTree.{Boxes, Node, in_order, box_nodes};
ghost use Rattle.box_data.specs.Limits.{all_used_lengths, long};
ghost use Rattle.box_data.specs.Lines.{AreLinesOf};
ghost use Rattle.box_data.specs.Widths as widths;
ghost use Rattle.box_lines.specs.Made.{IsNamed, IsSmall, AreLinesIn, AreThin, AreFew, IsMade};

use crate::liner::Liner;
use crate::pieces::{pieces_of, with_sizes};
use box_data::{BoxKind, BoxNode, BoxTree, Placed};
use font_table::Fonts;
use inline_text::{RunStyle, Runs};
use line_breaker::Line;
use mc_base::{List, NoMemory};
use std::alloc::Global;

/// The lines of a box, its pieces named in the styles of `runs`, which takes them.
fn lines_of<L: Liner>(
    alloc: Global,
    node: &BoxNode,
    place: &Placed,
    runs: &mut Runs,
    fonts: &Fonts,
    liner: &mut L,
) -> Result<List<Line>, NoMemory>
    requires styles { All (IsStyle fonts.now) runs.old.styles }
    requires named { IsNamed runs.old.styles node.now }
    requires small { All IsSmall place.now.images }
    requires kept { L.is_true liner.old fonts.now }
    ensures lines { IfOk result (AreLinesIn fonts.now runs.old.styles node.now place.now) }
    ensures widths { IfOk result AreThin }
    ensures few { IfOk result AreFew }
    ensures styles { runs.new.styles ≡ runs.old.styles }
    ensures kept { L.is_true liner.new fonts.now }
{
    match node.kind {
        BoxKind::ImageBlock => Ok(List::new(alloc)),
        BoxKind::Block | BoxKind::Anonymous | BoxKind::Container => {
            let pieces = pieces_of(&node.runs);
            runs.pieces = with_sizes(alloc, pieces, place.images.as_slice())?;
            liner.lines(alloc, runs, fonts, place.columns.w, node.element)
        }
    }
}

/// Gives a box its lines.
fn break_box<L: Liner>(
    alloc: Global,
    node: Option<&BoxNode>,
    place: &mut Placed,
    runs: &mut Runs,
    fonts: &Fonts,
    liner: &mut L,
) -> Result<(), NoMemory>
    requires styles { All (IsStyle fonts.now) runs.old.styles }
    requires named { IfSome (option_copied node) (IsNamed runs.old.styles) }
    requires small { All IsSmall place.old.images }
    requires kept { L.is_true liner.old fonts.now }
    ensures made { OnOk result (IsMade fonts.now runs.old.styles (option_copied node.entry) place.old place.new) }
    ensures styles { runs.new.styles ≡ runs.old.styles }
    ensures kept { L.is_true liner.new fonts.now }
{
    if let Some(node) = node {
        let lines = lines_of(alloc, node, place, runs, fonts, liner)?;
        place.lines = lines;
    }
    Ok(())
}

/// Gives the boxes of a list their lines.
fn break_all<L: Liner>(
    alloc: Global,
    nodes: &[BoxNode],
    places: &mut [Placed],
    runs: &mut Runs,
    fonts: &Fonts,
    liner: &mut L,
) -> Result<(), NoMemory>
    requires styles { All (IsStyle fonts.now) runs.old.styles }
    requires named { All (IsNamed runs.old.styles) nodes.now }
    requires small { All (λ p. All IsSmall p.images) places.old }
    requires kept { L.is_true liner.old fonts.now }
    ensures made { OnOk result ((k : ℕ) (d : OnePlaced) → k < length places.old →
        IsMade fonts.now runs.old.styles (slice_get nodes.now k) (slice_index_or places.old k d)
        (slice_index_or places.new k d)) }
    ensures kept { L.is_true liner.new fonts.now }
{
    for (number, place) in places.iter_mut().enumerate() {
        break_box(alloc, nodes.get(number), place, runs, fonts, liner)?;
    }
    Ok(())
}

/// The boxes of a document with their lines (CSS 2.1, section 9.4.2). A box with inline content has lines as wide as its
/// columns, of its pieces with the used sizes of its images, and a block-level image has none.
///
/// `texts` has a style of the faces of `fonts` for each node number that boxes and pieces name, a box has fewer than 2^32
/// pieces, and no used length is above 2^24 units. Out of memory, what the liner keeps stays right too.
pub fn break_boxes<L: Liner>(
    alloc: Global,
    boxes: &BoxTree,
    texts: List<RunStyle>,
    fonts: &Fonts,
    places: List<Placed>,
    liner: &mut L,
) -> Result<List<Placed>, NoMemory>
    requires styles { All (IsStyle fonts.now) texts }
    requires named { All (IsNamed texts) boxes.now.nodes }
    requires lengths { long (all_used_lengths places) ≡ None }
    requires kept { L.is_true liner.old fonts.now }
    ensures made { (styles : Items OneBoxStyle) (width : ℕ) (tree : Boxes Node) → boxes.now.nodes ≡ box_nodes None 0 tree →
        places ≡ in_order (widths.placed styles [] width tree) → IfOk result (λ made.
        (lines : Items (Items OneLine)) × AreLinesOf fonts.now texts styles width tree lines
        × (made ≡ in_order (widths.placed styles lines width tree)) × All AreThin lines × All AreFew lines) }
    ensures kept { L.is_true liner.new fonts.now }
{
    let mut places = places.into_vec();
    let mut runs = Runs {
        pieces: List::new(alloc),
        styles: texts,
    };
    break_all(
        alloc,
        boxes.nodes.as_slice(),
        &mut places,
        &mut runs,
        fonts,
        liner,
    )?;
    Ok(List::of(places))
}
