//! What a line after `cert` says.

ghost use Rattle.std.specs.Prelude.{◌≡◌, [], ◌∷◌, option_map, Bool, IfOk, IfSome};
ghost use Rattle.flow_list.specs.Reasons.{told_reason};
ghost use Rattle.result_laws.specs.Reading as reading;
ghost use Rattle.result_laws.specs.Words.{dash_or, end_of_word, number_of, numbers_of, small_of, yes_or_no};
ghost use Rattle.result_reader.specs.Lines.{auto_line, column_front, other_of_words, row_line, said, size_line, NoSizes};
ghost use Rattle.result_reader.specs.Words.{behind};

use crate::number::{number, small, token};
use crate::words::{four, part, three, two, word};
use flow_list::{ColLine, Range, Reason, SizeEntry};
use height_cert::{CertEntry, Cites};
use mc_base::{List, NoMemory, Token, Units};
use std::alloc::Global;

/// A line after `cert`: an entry without its ranges, a range without its column lines, a column line with the sizes that it
/// cites, or `end`.
#[derive(Drop)]
pub enum CertLine {
    Entry(CertEntry),
    Rejected(Range),
    Column { line: ColLine, cites: Cites },
    Close,
}

/// A number, or none for a dash.
fn number_or_dash(word: &[u8]) -> Option<Option<Units>>
    ensures { result ≡ dash_or number_of word.now }
{
    if word == b"-".as_slice() {
        return Some(None);
    }
    Some(Some(number(word)?))
}

/// The number of an item, or none for a dash.
fn small_or_dash(word: &[u8]) -> Option<Option<u32>>
    ensures { result ≡ dash_or small_of word.now }
{
    if word == b"-".as_slice() {
        return Some(None);
    }
    Some(Some(small(word)?))
}

/// A place, or none for `!`.
fn end(alloc: Global, word: &[u8]) -> Option<Option<Token>>
    ensures { result ≡ end_of_word word.now }
{
    if word == b"!".as_slice() {
        return Some(None);
    }
    Some(Some(token(alloc, word)?))
}

fn fits(word: &[u8]) -> Option<bool>
    ensures { result ≡ yes_or_no word.now }
{
    if word == b"yes".as_slice() {
        return Some(true);
    }
    if word == b"no".as_slice() {
        return Some(false);
    }
    None
}

/// The entry of a size, after its first word.
fn size_entry(alloc: Global, rest: &[u8]) -> Option<CertLine>
    ensures { option_map said result ≡ size_line (behind 32 rest.now) }
{
    let (row, from, height) = three(rest)?;
    let row = small(row)?;
    let from = token(alloc, from)?;
    let height = number(height)?;
    Some(CertLine::Entry(CertEntry::Size(SizeEntry {
        row,
        from,
        height,
        ranges: List::new(alloc),
    })))
}

/// The entry of a balanced row, after its first word.
fn row_entry(alloc: Global, rest: &[u8]) -> Option<CertLine>
    ensures { option_map said result ≡ row_line (behind 32 rest.now) }
{
    let (row, available, height, word) = four(rest)?;
    let row = small(row)?;
    let available = number_or_dash(available)?;
    let height = number(height)?;
    let fits = fits(word)?;
    Some(CertLine::Entry(CertEntry::Row {
        row,
        available,
        height,
        fits,
        ranges: List::new(alloc),
    }))
}

/// The entry of a row with `column-fill: auto` in effect, after its first word.
fn auto_entry(rest: &[u8]) -> Option<CertLine>
    ensures { option_map said result ≡ auto_line (behind 32 rest.now) }
{
    let (row, available, height) = three(rest)?;
    let row = small(row)?;
    let available = number_or_dash(available)?;
    let height = number(height)?;
    Some(CertLine::Entry(CertEntry::Auto {
        row,
        available,
        height,
    }))
}

/// A reason that has a number or a place.
fn reason_with(alloc: Global, name: &[u8], word: &[u8]) -> Option<Reason>
    ensures { option_map told_reason result ≡ reading.reason_of_words (name.now ∷ word.now ∷ []) }
{
    if name == b"tall".as_slice() {
        return Some(Reason::Tall { item: small(word)? });
    }
    if name == b"left".as_slice() {
        return Some(Reason::Left {
            at: token(alloc, word)?,
        });
    }
    if name == b"bad".as_slice() {
        return Some(Reason::Bad {
            column: small(word)?,
        });
    }
    if name == b"over".as_slice() {
        return Some(Reason::Over {
            column: small(word)?,
        });
    }
    None
}

/// The reason of a range, after its heights.
#[tactic(auto, using(crate::proofs::Shapes::line_rules))]
fn reason(alloc: Global, rest: &[u8]) -> Option<Reason>
    ensures { option_map told_reason result ≡ reading.reason_of_words (behind 32 rest.now) }
{
    let (name, more) = word(rest)?;
    if more.is_empty() {
        if name == b"area".as_slice() {
            return Some(Reason::Area);
        }
        return None;
    }
    let (name, word) = two(rest)?;
    reason_with(alloc, name, word)
}

/// A range, after its first word.
fn range(alloc: Global, rest: &[u8]) -> Option<CertLine>
    ensures { option_map said result ≡ reading.range_of_words (behind 32 rest.now) }
{
    let (low, rest) = word(rest)?;
    let (high, rest) = word(rest)?;
    let lo = number(low)?;
    let hi = number(high)?;
    let reason = reason(alloc, rest)?;
    Some(CertLine::Rejected(Range {
        lo,
        hi,
        reason,
        cols: List::new(alloc),
    }))
}

/// The numbers of the words, each after a space; none where one is no number.
#[tactic(auto, using(crate::proofs::Shapes::line_rules))]
fn numbers(alloc: Global, rest: &[u8]) -> Result<Option<List<u64>>, NoMemory>
    ensures { IfOk result (λ sizes. sizes ≡ numbers_of (behind 32 rest.now)) }
{
    let mut sizes = List::new(alloc);
    let mut rest = rest;
    while let Some((front, behind)) = word(rest) {
        let Some(size) = number(front) else {
            return Ok(None);
        };
        sizes.push(size)?;
        rest = behind;
    }
    Ok(Some(sizes))
}

/// A column line before the sizes that it cites, and what follows it.
fn column_line(alloc: Global, rest: &[u8]) -> Option<(ColLine, &[u8])>
    ensures { option_map (λ x. (x.0, behind 32 x.1.now)) result ≡ column_front (behind 32 rest.now) }
{
    let (depth, rest) = word(rest)?;
    let (place, rest) = word(rest)?;
    let (stop, rest) = word(rest)?;
    let depth = small(depth)?;
    let end = end(alloc, place)?;
    let stop = small_or_dash(stop)?;
    Some((ColLine { depth, end, stop }, rest))
}

/// A column line, after its first word. Only those of the second format cite sizes.
#[tactic(auto, using(crate::proofs::Shapes::line_rules))]
fn column(alloc: Global, cites: bool, rest: &[u8]) -> Result<Option<CertLine>, NoMemory>
    ensures line { IfOk result (λ line. option_map said line ≡ reading.column_of_words cites (behind 32 rest.now)) }
    ensures sizes { IfOk result (λ line. IfSome line (NoSizes cites)) }
{
    let Some((line, rest)) = column_line(alloc, rest) else {
        return Ok(None);
    };
    if !cites && !rest.is_empty() {
        return Ok(None);
    }
    let Some(sizes) = numbers(alloc, rest)? else {
        return Ok(None);
    };
    Ok(Some(CertLine::Column {
        line,
        cites: Cites { sizes },
    }))
}

/// What a line without a column says, by its first word.
fn other_line(alloc: Global, name: &[u8], rest: &[u8]) -> Option<CertLine>
    ensures line { option_map said result ≡ other_of_words name.now (behind 32 rest.now) }
    ensures sizes { (second : Bool) → IfSome result (NoSizes second) }
{
    if name == b"range".as_slice() {
        return range(alloc, rest);
    }
    if name == b"size".as_slice() {
        return size_entry(alloc, rest);
    }
    if name == b"row".as_slice() {
        return row_entry(alloc, rest);
    }
    if name == b"auto".as_slice() {
        return auto_entry(rest);
    }
    None
}

/// What a line after `cert` says, in the second format or in the first; none where it is of no form.
#[tactic(auto, using(crate::proofs::Shapes::line_rules))]
pub fn line(alloc: Global, cites: bool, text: &[u8]) -> Result<Option<CertLine>, NoMemory>
    ensures line { IfOk result (λ line. option_map said line ≡ reading.line_of cites text.now) }
    ensures sizes { IfOk result (λ line. IfSome line (NoSizes cites)) }
{
    if text == b"end".as_slice() {
        return Ok(Some(CertLine::Close));
    }
    let (name, rest) = part(b' ', text);
    if name == b"col".as_slice() {
        return column(alloc, cites, rest);
    }
    Ok(other_line(alloc, name, rest))
}
