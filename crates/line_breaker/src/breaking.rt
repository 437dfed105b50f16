//! Where lines end.

ghost use Rattle.std.specs.Prelude.{◌≡◌, ◌≤◌, ◌<◌, ◌^◌, ◌*◌, ◌+◌, ℕ, List as Items, drop, IsTrue, length, IfOk};
ghost use Rattle.std.specs.List.{All};
ghost use Rattle.line_breaker.specs.Lines.{CanBreak, AreLines, IsLine, IsNarrow, HoldsAll, is_chance as is_chance_piece};
ghost use Rattle.line_breaker.specs.Arrays as arrays;
ghost use Rattle.line_breaker.specs.Arrays.{IsBest, IsFirst, IsEnd, IsSmall, IsMeasured};

use crate::ahead::{Ahead, aheads};
use crate::height::{extent_of, line_height};
use crate::line::Line;
use crate::places::{Place, places};
use font_table::Fonts;
use inline_text::{Piece, Runs, opportunities};
use mc_base::{List, NoMemory, Units};
use std::alloc::Global;

/// Whether a line that begins after `base` reaches no further than the width.
fn fits_in(base: Units, width: Units, needed: Option<Units>) -> bool
    ensures { result ≡ arrays.fits_in base width needed }
{
    match needed {
        None => false,
        Some(needed) => needed.saturating_sub(base) <= width,
    }
}

/// The last place before `end` from which on something fits, or `from`.
fn last_fitting(ahead: &[Ahead], from: usize, end: usize, base: Units, width: Units) -> usize
    requires begins { from < end }
    requires ends { end ≤ length ahead.now }
    ensures { IsBest ahead.now from end base width result }
{
    let mut at = from;
    while at + 1 < end && fits_in(base, width, ahead[at + 1].least) {
        at += 1;
    }
    at
}

/// Whether a character or an image stands between two places.
fn follows(places: &[Place], from: usize, at: usize) -> bool
    requires from { from < length places.now }
    requires at { at < length places.now }
    ensures { result ≡ arrays.follows places.now from at }
{
    places[from].contents < places[at].contents
}

/// The first place after `from` that counts, or `end`.
fn first_counting(places: &[Place], ahead: &[Ahead], from: usize, end: usize) -> usize
    requires begins { from < end }
    requires places { end < length places.now }
    requires ahead { end < length ahead.now }
    ensures { IsFirst places.now ahead.now from end result }
{
    for at in from + 1..end {
        if ahead[at].opens && follows(places, from, at) {
            return at;
        }
    }
    end
}

fn edge(place: &Place) -> Units
    ensures { result ≡ arrays.edge place.now }
{
    place.before.saturating_sub(place.space)
}

/// Where a line ends that begins at a place.
fn line_end(places: &[Place], ahead: &[Ahead], from: usize, end: usize, width: Units) -> usize
    requires begins { from < end }
    requires places { end < length places.now }
    requires ahead { end < length ahead.now }
    ensures { IsEnd places.now ahead.now from end width result }
{
    let base = places[from].before;
    if edge(&places[end]).saturating_sub(base) <= width {
        return end;
    }
    let best = last_fitting(ahead, from, end, base, width);
    if best > from && follows(places, from, best) {
        return best;
    }
    first_counting(places, ahead, from, end)
}

/// How wide a line is between two places.
fn line_width(places: &[Place], from: usize, end: usize, to: usize) -> Units
    requires from { from < length places.now }
    requires to { to < length places.now }
    requires small { All IsSmall places.now }
    ensures value { result ≡ arrays.width_between places.now from end to }
    ensures most { result < 2 ^ 60 }
{
    let text = edge(&places[to]).saturating_sub(places[from].before);
    if to == end {
        text
    } else {
        text + places[to].hyphen
    }
}

fn is_chance(piece: &Piece) -> bool
    ensures { result ≡ is_chance_piece piece.now }
{
    matches!(*piece, Piece::Chance)
}

/// The place after the last piece that isn't a `wbr`.
fn lines_end(pieces: &[Piece]) -> usize
    ensures within { result ≤ length pieces.now }
    ensures rest { All (λ piece. IsTrue (is_chance_piece piece)) (drop result pieces.now) }
    ensures last { (from : ℕ) → from < result → All (λ piece. IsTrue (is_chance_piece piece)) (drop from pieces.now) → ⊥ }
{
    let mut at = pieces.len();
    while at > 0 && is_chance(&pieces[at - 1]) {
        at -= 1;
    }
    at
}

/// The line that begins at a place.
fn next_line(
    runs: &Runs,
    fonts: &Fonts,
    places: &[Place],
    ahead: &[Ahead],
    from: usize,
    width: Units,
    strut: u32,
) -> Line
    requires can { CanBreak runs.now fonts.now strut }
    requires measured { IsMeasured runs.now fonts.now places.now ahead.now }
    requires from { from < length runs.now.pieces }
    ensures line { IsLine runs.now fonts.now width strut from result }
    ensures some { from < result.to }
    ensures within { result.to ≤ length runs.now.pieces }
    ensures width { result.w < 2 ^ 60 }
{
    let styles = runs.styles.as_slice();
    let pieces = runs.pieces.as_slice();
    let end = ahead[from].end;
    let to = line_end(places, ahead, from, end, width);
    let (own, _) = pieces.split_at(from).1.split_at(to - from);
    let strut = extent_of(fonts, &styles[strut as usize]);
    Line {
        from: from as u32,
        to: to as u32,
        w: line_width(places, from, end, to),
        h: line_height(strut, styles, fonts, own),
    }
}

/// The lines of a run that is measured.
fn cut(
    alloc: Global,
    runs: &Runs,
    fonts: &Fonts,
    places: &[Place],
    ahead: &[Ahead],
    width: Units,
    strut: u32,
) -> Result<List<Line>, NoMemory>
    requires can { CanBreak runs.now fonts.now strut }
    requires measured { IsMeasured runs.now fonts.now places.now ahead.now }
    ensures lines { IfOk result (AreLines runs.now fonts.now width strut 0) }
    ensures widths { IfOk result (All (λ line. line.w < 2 ^ 60)) }
{
    let last = lines_end(runs.pieces.as_slice());
    let mut lines = List::new(alloc);
    let mut from = 0;
    while from < last {
        let line = next_line(runs, fonts, places, ahead, from, width, strut);
        lines.push(line)?;
        from = line.to as usize;
    }
    Ok(lines)
}

/// Cuts a collapsed run into lines of at most `width` units (CSS 2.1, sections 9.4.2, 10.8 and 16.6.1; CSS Text 3,
/// section 5.1); `strut` is the number of the block container's own style.
///
/// A line's stretch runs from its first piece through the next forced break, or to the end of the run. The line is its
/// whole stretch if that fits. Else it ends at the last opportunity at which it fits and which has a character or an image
/// before it in the line and after it in the stretch; else at the first such opportunity, and else it is its whole
/// stretch. A run of `wbr` alone makes no line, and neither does what follows the last line.
///
/// The run has fewer than 2^32 pieces, its styles and `strut` are numbers of `styles`, the faces are of `fonts`, sizes and
/// the measures of images are at most 2^24 units, and line heights at most 2^62.
pub fn break_lines(
    alloc: Global,
    runs: &Runs,
    fonts: &Fonts,
    width: Units,
    strut: u32,
) -> Result<List<Line>, NoMemory>
    requires { CanBreak runs.now fonts.now strut }
    ensures lines { IfOk result (AreLines runs.now fonts.now width strut 0) }
    // No other lines are those of the run.
    ensures only { (lines : Items Line) → AreLines runs.now fonts.now width strut 0 lines → IfOk result (λ found. found ≡ lines) }

    // The lines hold the pieces in order, each once.
    ensures pieces { IfOk result (HoldsAll runs.now.pieces) }
    ensures filled { IfOk result (All (λ line. line.from < line.to)) }
    ensures narrow { IfOk result (All (IsNarrow runs.now fonts.now width)) }

    ensures within { IfOk result (All (λ line. line.to ≤ length runs.now.pieces)) }
    ensures few { IfOk result (λ lines. length lines ≤ length runs.now.pieces) }
    ensures widths { IfOk result (All (λ line. line.w < 2 ^ 60)) }
{
    let styles = runs.styles.as_slice();
    let pieces = runs.pieces.as_slice();
    let seams = opportunities(alloc, runs)?;
    let places = places(alloc, styles, fonts, pieces)?;
    let ahead = aheads(alloc, pieces, &places, &seams)?;
    cut(alloc, runs, fonts, &places, &ahead, width, strut)
}
