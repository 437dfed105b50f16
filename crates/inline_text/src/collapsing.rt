//! The collapsing of white space.

ghost use Rattle.std.specs.Prelude.{◌≡◌, ◌↔◌, ◌≤◌, ◌*◌, ◌++◌, ◌&&◌, filter, length, IsTrue, OnOk, IfOk};
ghost use Rattle.std.specs.List.{All, list_all};
ghost use Rattle.inline_text.specs.WhiteSpace as white_space;
ghost use Rattle.inline_text.specs.WhiteSpace.{
  HasStyles,
  IsCollapsed,
  SpacesStandBetween,
  collapsed,
  content_or,
  is_blank_piece,
  is_chance,
  is_mark,
  is_no_space,
  is_white,
  kept,
  kind_of,
  marks,
  piece_becomes,
  precedes_content,
};

use crate::content::{Kind, Piece, RunStyle, Runs};
use crate::styles::keeps_white_space;
use mc_base::{List, NoMemory};
use std::alloc::{AllocError, Global};

const TAB_WIDTH: usize = 8;

/// The run after the collapsing of white space (CSS 2.1, section 16.6.1).
///
/// Where a style doesn't keep its white space, spaces, tabs and line feeds become a space. Of such spaces that follow one
/// another, across elements and each `wbr` looked through, the first one stays, with its style, and none at the start,
/// at the end, or beside a forced break. Where a style keeps its white space, a line feed becomes a forced break and a tab
/// eight spaces. Each `style` in the pieces has to be a place of `styles`.
pub fn collapse(alloc: Global, runs: &Runs) -> Result<Runs, NoMemory>
    requires { HasStyles runs.now }
    ensures pieces { IfOk result (λ answer. answer.pieces ≡ collapsed runs.now) }
    ensures styles { IfOk result (λ answer. answer.styles ≡ runs.now.styles) }
    ensures in_range { IfOk result HasStyles }

    // Collapsing once more changes nothing.
    ensures settled { IfOk result IsCollapsed }
    ensures spaces { IfOk result SpacesStandBetween }
    ensures others { IfOk result
        (λ answer. filter is_no_space answer.pieces ≡ filter is_no_space runs.now.pieces) }

    // The images, with their measures, and the forced breaks are those of the run, in order.
    ensures marks { IfOk result (λ answer. filter is_mark answer.pieces ≡ marks runs.now.styles runs.now.pieces) }
    ensures few { IfOk result (λ answer. length answer.pieces ≤ 8 * length runs.now.pieces) }
{
    let pieces = collapsed_pieces(alloc, runs)?;
    let styles = Vec::from_slice(alloc, runs.styles.as_slice())?;
    Ok(Runs {
        pieces: List::of(pieces),
        styles: List::of(styles),
    })
}

/// The pieces after the collapsing of white space by these styles, as `collapse` has them.
///
/// A style that isn't there doesn't keep its white space.
pub fn collapse_pieces(
    alloc: Global,
    styles: &[RunStyle],
    pieces: &[Piece],
) -> Result<Vec<Piece>, AllocError>
    ensures { IfOk result
        (λ answer. answer.items ≡ collapsed (record { pieces = pieces.now; styles = styles.now })) }
{
    let mut found = Vec::new(alloc);
    let mut follows = false;
    let mut rest = pieces;
    while let Some((piece, after)) = rest.split_first() {
        push_piece(&mut found, styles, follows, piece, after)?;
        follows = is_content_or(kind(styles, piece), follows);
        rest = after;
    }
    Ok(found)
}

/// Whether pieces are nothing but white space that collapses and `wbr`. Such a run makes no line, and no anonymous block
/// (CSS 2.1, section 9.2.2.1).
pub fn is_blank(styles: &[RunStyle], pieces: &[Piece]) -> bool
    ensures pieces { IsTrue result ↔ All (λ piece. IsTrue (is_blank_piece styles.now piece)) pieces.now }
    // Nothing but `wbr` is left of it.
    ensures left { IsTrue result ↔ All (λ piece. IsTrue (is_chance piece))
        (collapsed (record { pieces = pieces.now; styles = styles.now })) }
{
    all_blank(styles, pieces)
}

/// Whether each piece is white space that collapses or a `wbr`.
fn all_blank(styles: &[RunStyle], pieces: &[Piece]) -> bool
    ensures { result ≡ list_all (is_blank_piece styles.now) pieces.now }
{
    pieces
        .iter()
        .all(|piece| is_blank_kind(kind(styles, piece)))
}

/// Whether a piece of this kind is white space that collapses or a `wbr`.
fn is_blank_kind(kind: Kind) -> bool
    ensures { result ≡ white_space.is_blank_kind kind }
{
    match kind {
        Kind::Space | Kind::Through => true,
        Kind::Content | Kind::Break => false,
    }
}

/// What the pieces of a run become.
fn collapsed_pieces(alloc: Global, runs: &Runs) -> Result<Vec<Piece>, AllocError>
    ensures { IfOk result (λ pieces. pieces.items ≡ collapsed runs.now) }
{
    collapse_pieces(alloc, runs.styles.as_slice(), runs.pieces.as_slice())
}

/// Adds what a piece becomes before the pieces `after`; `follows` says whether it follows content.
fn push_piece(
    pieces: &mut Vec<Piece>,
    styles: &[RunStyle],
    follows: bool,
    piece: &Piece,
    after: &[Piece],
) -> Result<(), AllocError>
    ensures { OnOk result
        (pieces.new.items ≡ pieces.old.items
        ++ piece_becomes styles.now piece.now (follows && precedes_content styles.now after.now)) }
{
    match *piece {
        Piece::Char { ch, style } => {
            if keeps_white_space(styles, style) {
                push_kept(pieces, ch, style)
            } else if is_white_space(ch) {
                if follows && is_before_content(styles, after) {
                    pieces.push(Piece::Char { ch: ' ', style })?;
                }
                Ok(())
            } else {
                pieces.push(Piece::Char { ch, style })?;
                Ok(())
            }
        }
        other => {
            pieces.push(other)?;
            Ok(())
        }
    }
}

/// Adds what a character becomes where white space is kept.
fn push_kept(pieces: &mut Vec<Piece>, ch: char, style: u32) -> Result<(), AllocError>
    ensures { OnOk result (pieces.new.items ≡ pieces.old.items ++ kept ch style) }
{
    match ch {
        '\n' => pieces.push(Piece::Forced)?,
        '\t' => {
            for _ in 0..TAB_WIDTH {
                pieces.push(Piece::Char { ch: ' ', style })?;
            }
        }
        _ => pieces.push(Piece::Char { ch, style })?,
    }
    Ok(())
}

/// Whether the nearest piece, each `wbr` and white space that collapses looked through, is content.
fn is_before_content(styles: &[RunStyle], after: &[Piece]) -> bool
    ensures { result ≡ precedes_content styles.now after.now }
{
    for piece in after {
        match kind(styles, piece) {
            Kind::Content => return true,
            Kind::Break => return false,
            Kind::Space | Kind::Through => {}
        }
    }
    false
}

/// Whether the nearest piece before is content: one of this kind, or else what stands before it.
fn is_content_or(kind: Kind, beyond: bool) -> bool
    ensures { result ≡ content_or kind beyond }
{
    match kind {
        Kind::Content => true,
        Kind::Space | Kind::Break => false,
        Kind::Through => beyond,
    }
}

/// What a piece is to the collapsing of white space.
fn kind(styles: &[RunStyle], piece: &Piece) -> Kind
    ensures { result ≡ kind_of styles.now piece.now }
{
    match *piece {
        Piece::Char { ch, style } => {
            if keeps_white_space(styles, style) {
                if ch == '\n' {
                    Kind::Break
                } else {
                    Kind::Content
                }
            } else if is_white_space(ch) {
                Kind::Space
            } else {
                Kind::Content
            }
        }
        Piece::Image { .. } => Kind::Content,
        Piece::Forced => Kind::Break,
        Piece::Chance => Kind::Through,
    }
}

fn is_white_space(ch: char) -> bool
    ensures { result ≡ is_white ch }
{
    ch == ' ' || ch == '\t' || ch == '\n'
}
