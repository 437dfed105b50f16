//! What has more pieces or lines than 31 bits count. Memory runs out before.

ghost use Rattle.std.specs.Prelude.{◌≡◌, length};
ghost use Rattle.std.specs.List.{list_any};
ghost use Rattle.box_lines.specs.Sizes.{pieces_of};
ghost use Rattle.flow_build.specs.Few as few;

use box_data::{BoxNode, Placed};

const MOST: usize = 2_147_483_647;

fn piece_count(node: &BoxNode) -> usize
    ensures { result ≡ length (pieces_of node.now.runs) }
{
    match &node.runs {
        None => 0,
        Some(runs) => runs.pieces.len(),
    }
}

fn is_long(node: &BoxNode) -> bool
    ensures { result ≡ few.has_long_run node.now }
{
    piece_count(node) > MOST
}

/// Whether a box has more pieces.
pub fn has_long_run(nodes: &[BoxNode]) -> bool
    ensures { result ≡ list_any few.has_long_run nodes.now }
{
    nodes.iter().any(|node| is_long(node))
}

fn is_tall(place: &Placed) -> bool
    ensures { result ≡ few.has_many_lines place.now }
{
    place.lines.len() > MOST
}

/// Whether a box has more lines.
pub fn has_many_lines(places: &[Placed]) -> bool
    ensures { result ≡ list_any few.has_many_lines places.now }
{
    places.iter().any(|place| is_tall(place))
}
