//! The whole text.

ghost use Rattle.std.specs.Prelude.{◌≡◌, ◌<◌, ◌≤◌, ◌++◌, None, length, IfOk, IfSome};
ghost use Rattle.piece_data.specs.Lowering.{Flags};
ghost use Rattle.tree_lines.specs.Lines.{lines_of};
ghost use Rattle.all_writer.specs.AllText.{all_text};
ghost use Rattle.row_all.specs.Answered.{IsLowered};
ghost use Rattle.all_writer.specs.PieceText.{answer_text};

use crate::pieces::write_pieces;
use crate::tree::{lines_of_layout, write_lines};
use flow_list::Flows;
use frag_pool::Pool;
use mc_base::{List, NoMemory, Text};
use row_all::{AllOut, PieceLine};
use std::alloc::Global;
use tree_lines::TreeLine;

/// A text, or None where it has more than `most` bytes.
fn within(text: Text, most: u64) -> Option<Text>
    ensures text { IfSome result (λ found. found ≡ text) }
    ensures short { IfSome result (λ found. length found ≤ most) }
    ensures long { result ≡ None → most < length text }
{
    if text.len() as u64 > most {
        return None;
    }
    Some(text)
}

/// The text of these lines and these pieces, or None where it has more than `most` bytes.
fn write_answer(
    alloc: Global,
    lines: &List<TreeLine>,
    pieces: &List<PieceLine>,
    most: u64,
) -> Result<Option<Text>, NoMemory>
    ensures text { IfOk result (λ found. IfSome found (λ text. text ≡ answer_text (lines_of lines.now) pieces.now)) }
    ensures short { IfOk result (λ found. IfSome found (λ text. length text ≤ most)) }
    ensures long { IfOk result (λ found. found ≡ None → most < length (answer_text (lines_of lines.now) pieces.now)) }
{
    let mut first = Text::new(alloc);
    first.extend(b"mcol-all 1\n")?;
    let Some(mut tree) = write_lines(alloc, lines, first, most)? else {
        return Ok(None);
    };
    tree.extend(b"pieces\n")?;
    let Some(mut text) = write_pieces(alloc, pieces, tree, most)? else {
        return Ok(None);
    };
    text.extend(b"end\n")?;
    Ok(within(text, most))
}

/// The text of a layout whose flagged pieces of rows are as low as they can be, or None where it has more than `most` bytes: the
/// lines of its tree, a line for each lowered piece in the tree's order, with the height that it is cut at and its least height,
/// and after it a line for each range of lesser heights that says why none of them will do. Each line ends with a line feed.
/// It puts no line of the tree and no piece after the first that doesn't fit.
///
/// Condition: `all` is what was laid out of the flows for some flags, its ids live in the pool. The error is out of memory.
pub fn write_all(
    alloc: Global,
    flows: &Flows,
    all: &AllOut,
    pool: &Pool,
    most: u64,
) -> Result<Option<Text>, NoMemory>
    requires { (flags : Flags) × IsLowered flows.now flags pool.now all.now }
    ensures text { (flags : Flags) → IsLowered flows.now flags pool.now all.now →
        IfOk result (λ found. IfSome found (λ text. text ≡ all_text flows.now flags)) }
    ensures short { IfOk result (λ found. IfSome found (λ text. length text ≤ most)) }
    ensures long { (flags : Flags) → IsLowered flows.now flags pool.now all.now →
        IfOk result (λ found. found ≡ None → most < length (all_text flows.now flags)) }
{
    let lines = lines_of_layout(alloc, flows, &all.laid, pool)?;
    write_answer(alloc, &lines, &all.pieces, most)
}
