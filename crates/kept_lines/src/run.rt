//! A run that is kept with its lines.

ghost use Rattle.std.specs.Prelude.{◌≡◌, ◌<◌, ◌++◌, ◌∷◌, [], ◌^◌, List as Items, IfOk, OnOk, length, slice_get};
ghost use Rattle.std.specs.List.{All};
ghost use Rattle.inline_text.specs.WhiteSpace.{HasStyle};
ghost use Rattle.inline_text.specs.declared.content.Piece.{Piece as OnePiece};
ghost use Rattle.kept_lines.specs.Narrowed as narrowed;
ghost use Rattle.kept_lines.specs.Narrowed.{IsNarrowed};
ghost use Rattle.kept_lines.specs.Keeping.{CanNarrow};
ghost use Rattle.kept_lines.specs.Same.{SaySame};

use inline_text::{Piece, RunStyle, Runs};
use line_breaker::Line;
use mc_base::{List, NoMemory, Units};
use std::alloc::Global;

/// A run with just the styles that it names, its lines at a width, and that width. The first style is that of its block
/// container, and the others stand in the order of its pieces.
#[derive(Drop)]
pub struct KeptRun {
    pub runs: Runs,
    pub width: Units,
    pub lines: List<Line>,
}

/// A run so far, with just the styles that it names, and the number that the last of them had.
#[derive(Drop)]
struct Narrow {
    runs: Runs,
    last: u32,
}

/// A style's number where it is named last, or of none.
fn style_number(piece: Piece, last: u32) -> u32
    ensures { result ≡ narrowed.style_number piece last }
{
    match piece {
        Piece::Char { style, .. } | Piece::Image { style, .. } => style,
        Piece::Forced | Piece::Chance => last,
    }
}

/// A piece whose style has this number.
fn with_number(piece: Piece, number: u32) -> Piece
    ensures { result ≡ narrowed.with_number number piece }
{
    match piece {
        Piece::Char { ch, .. } => Piece::Char { ch, style: number },
        Piece::Image { w, h, .. } => Piece::Image {
            w,
            h,
            style: number,
        },
        Piece::Forced | Piece::Chance => piece,
    }
}

/// Adds the style of a piece after the others, unless it was named last.
fn add_style(narrow: &mut Narrow, styles: &[RunStyle], number: u32) -> Result<(), NoMemory>
    requires known { number < length styles.now }
    ensures pieces { narrow.new.runs.pieces ≡ narrow.old.runs.pieces }
    ensures more { OnOk result (narrowed.HasMore narrow.old.runs.styles narrow.new.runs.styles) }
    ensures last { OnOk result (narrowed.EndsWith styles.now narrow.old.runs.styles narrow.old.last →
        narrowed.EndsWith styles.now narrow.new.runs.styles narrow.new.last) }
    ensures number { OnOk result (narrow.new.last ≡ number) }
{
    if number != narrow.last {
        narrow.runs.styles.push(styles[number as usize])?;
        narrow.last = number;
    }
    Ok(())
}

/// Adds a piece.
fn add_piece(narrow: &mut Narrow, styles: &[RunStyle], piece: Piece) -> Result<(), NoMemory>
    requires known { HasStyle styles.now piece }
    requires last { narrow.old.last < length styles.now }
    requires some { 0 < length narrow.old.runs.styles }
    requires few { length narrow.old.runs.styles < 2 ^ 32 }
    ensures made { OnOk result ((pieces : Items OnePiece) → IsNarrowed styles.now narrow.old pieces →
        IsNarrowed styles.now narrow.new (pieces ++ piece ∷ [])) }
    ensures first { OnOk result (slice_get narrow.new.runs.styles 0 ≡ slice_get narrow.old.runs.styles 0) }
{
    add_style(narrow, styles, style_number(piece, narrow.last))?;
    let number = (narrow.runs.styles.len() - 1) as u32;
    narrow.runs.pieces.push(with_number(piece, number))?;
    Ok(())
}

/// Adds pieces.
fn add_pieces(narrow: &mut Narrow, styles: &[RunStyle], pieces: &[Piece]) -> Result<(), NoMemory>
    requires known { All (HasStyle styles.now) pieces.now }
    requires few { length pieces.now < 2 ^ 32 }
    requires begun { IsNarrowed styles.now narrow.old [] }
    ensures made { OnOk result (IsNarrowed styles.now narrow.new pieces.now) }
    ensures first { OnOk result (slice_get narrow.new.runs.styles 0 ≡ slice_get narrow.old.runs.styles 0) }
{
    for piece in pieces {
        add_piece(narrow, styles, *piece)?;
    }
    Ok(())
}

/// A run with just the styles that it names, that of its block container the first.
pub fn narrow_run(alloc: Global, runs: &Runs, strut: u32) -> Result<Runs, NoMemory>
    requires { CanNarrow runs.now strut }
    ensures { IfOk result (λ made. SaySame made 0 runs.now strut) }
{
    let styles = runs.styles.as_slice();
    let mut narrow = Narrow {
        runs: Runs {
            pieces: List::new(alloc),
            styles: List::new(alloc),
        },
        last: strut,
    };
    narrow.runs.styles.push(styles[strut as usize])?;
    add_pieces(&mut narrow, styles, runs.pieces.as_slice())?;
    Ok(narrow.runs)
}
