//! Reading a result line by line.

ghost use Rattle.std.specs.Prelude.{◌≡◌, ◌+◌, ◌<◌, ◌≤◌, ℕ, ◌∷◌, All, List, length, option_map, if◌then◌else◌, IfOk};
ghost use Rattle.std.specs.Prelude.{IfErr, IfSome, Ok};
ghost use Rattle.std.specs.Prelude.{◌⊎◌};
ghost use Rattle.height_cert.specs.Certs.{result_text};
ghost use Rattle.height_cert.specs.Laws.{CanBeRead};
ghost use Rattle.height_cert.specs.declared.cert.Cert.{Cert as Certificate};
ghost use Rattle.result_laws.specs.Given.{IsTreeText};
ghost use Rattle.result_laws.specs.Reading as reading;
ghost use Rattle.result_reader.specs.Built.{IsBuilt};
ghost use Rattle.result_reader.specs.Lines.{NoSizes, said};
ghost use Rattle.result_reader.specs.Read.{AreEntries, CitesFit, IsAgain, IsBad, IsFirstLine, IsLast, IsRead, IsTree, cut_of};
ghost use Rattle.result_reader.specs.Read.{cuts_from, given, line_at, numbers_in};

use crate::build::Building;
use crate::line::{CertLine, line};
use crate::words::before;
use height_cert::Cert;
use mc_base::{Fault, List, NoMemory, ReadError, Rule, Text, fault_at};
use std::alloc::Global;

/// A result: its format, the lines of its tree without their line feeds, its certificate, and the numbers of the lines of its
/// entries and ranges, in order. Lines are counted from 1.
#[derive(Drop)]
pub struct ReadResult {
    pub version: u32,
    pub tree: List<Text>,
    pub cert: Cert,
    pub lines: List<u64>,
}

/// Why a text is read as no result: its first fault, with the number of its line, its byte and the rule, or out of memory. Where
/// the byte is the text's length, the line is the one after all line feeds.
#[derive(Clone, Copy)]
pub enum BadResult {
    BadLine { line: u64, offset: u64, rule: Rule },
    NoMemory,
}

/// A line: its bytes, whether a line feed ends it, and where the next line begins.
#[derive(Clone, Copy)]
struct Cut<'a> {
    text: &'a [u8],
    ended: bool,
    next: usize,
}

/// The line that begins at this offset.
fn cut_at(text: &[u8], at: usize) -> Cut<'_>
    requires { at < length text.now }
    ensures here { cuts_from text.now at ≡ cut_of at result.text.now result.ended ∷ cuts_from text.now result.next }
    ensures after { at < result.next }
    ensures bound { result.next ≤ length text.now + 1 }
{
    let rest = text.split_at(at).1;
    let (front, behind) = rest.split_at(before(b'\n', rest));
    Cut {
        text: front,
        ended: !behind.is_empty(),
        next: at + front.len() + 1,
    }
}

/// Whether this is a whole line of these bytes.
fn is_line(here: Cut, text: &[u8]) -> bool
    ensures { result ≡ reading.is_cut (cut_of 0 here.entry.text.now here.entry.ended) text.now }
{
    here.ended && here.text == text
}

/// The first byte that is neither from space to `~` nor a line feed.
fn wrong_byte(text: &[u8]) -> Option<u64>
    ensures { result ≡ reading.wrong_byte 0 text.now }
{
    for (i, byte) in text.iter().enumerate() {
        if (*byte < b' ' || b'~' < *byte) && *byte != b'\n' {
            return Some(i as u64);
        }
    }
    None
}

/// Whether the first line is that of the second format, and where the next line begins.
fn first(text: &[u8]) -> Result<(bool, usize), Fault>
    ensures { IsFirstLine text.now result }
{
    if text.is_empty() {
        return Err(Fault { at: 0, rule: 2 });
    }
    let line = cut_at(text, 0);
    if is_line(line, b"mcol 1") {
        return Ok((false, line.next));
    }
    if is_line(line, b"mcol 2") {
        return Ok((true, line.next));
    }
    Err(Fault { at: 0, rule: 2 })
}

/// The lines of the tree from this offset on, and where the line after `cert` begins.
fn tree(alloc: Global, text: &[u8], at: usize) -> Result<(List<Text>, usize), ReadError<Fault>>
    requires { at ≤ length text.now + 1 }
    ensures tree { IsTree text.now at result }
    ensures bound { IfOk result (λ r. (r.1 ≤ length text.now + 1) × (length r.0 + at ≤ r.1)) }
{
    let mut lines = List::new(alloc);
    let mut at = at;
    while at < text.len() {
        let line = cut_at(text, at);
        at = line.next;
        if is_line(line, b"cert") {
            return Ok((lines, at));
        }
        let mut copy = Text::new(alloc);
        copy.extend(line.text)?;
        lines.push(copy)?;
    }
    Err(fault_at(text.len() as u64, 3))
}

/// What a whole line says; none where it is of no form, or has no line feed.
fn line_in(alloc: Global, cites: bool, here: Cut) -> Result<Option<CertLine>, NoMemory>
    ensures line { IfOk result (λ line. option_map said line
        ≡ reading.line_in cites (cut_of 0 here.entry.text.now here.entry.ended)) }
    ensures sizes { IfOk result (λ line. IfSome line (NoSizes cites)) }
{
    if !here.ended {
        return Ok(None);
    }
    line(alloc, cites, here.text)
}

/// What is built of the lines after `cert`, which begin at this offset, after a tree of this many lines.
fn entries(
    alloc: Global,
    text: &[u8],
    cites: bool,
    at: usize,
    tree: &List<Text>,
) -> Result<Building, ReadError<Fault>>
    requires bound { at ≤ length text.now + 1 }
    requires few { length tree.now ≤ at }
    ensures entries { AreEntries text.now cites at tree.now result }
    ensures built { IfOk result (IsBuilt cites (3 + length tree.now)) }
{
    let mut building = Building::new(alloc);
    let mut at = at;
    let mut number = tree.len() as u64 + 3;
    while at < text.len() {
        let here = cut_at(text, at);
        let line = match line_in(alloc, cites, here) {
            Ok(Some(line)) => line,
            Ok(None) => return Err(fault_at(at as u64, 4)),
            Err(_) => return Err(ReadError::Memory),
        };
        if let CertLine::Close = line {
            return last(text, here.next, building);
        }
        building = match building.with_line(alloc, cites, line, number) {
            Ok(Some(next)) => next,
            Ok(None) => return Err(fault_at(at as u64, 4)),
            Err(_) => return Err(ReadError::Memory),
        };
        at = here.next;
        number += 1;
    }
    Err(fault_at(text.len() as u64, 5))
}

/// What was built, where nothing follows the line `end`; else the fault at what follows.
fn last(text: &[u8], next: usize, building: Building) -> Result<Building, ReadError<Fault>>
    requires { next ≤ length text.now + 1 }
    ensures { IsLast text.now next building result }
{
    if next < text.len() {
        return Err(fault_at(next as u64, 5));
    }
    Ok(building)
}

/// The number of the second format, or of the first.
fn version(second: bool) -> u32
    ensures { result ≡ (if second then 2 else 1) }
{
    if second {
        return 2;
    }
    1
}

/// The result that a text is, or its first fault.
fn read(alloc: Global, text: &[u8]) -> Result<ReadResult, ReadError<Fault>>
    ensures read { IsRead text.now result }
    ensures version { IfOk result (λ r. (r.version ≡ 1) ⊎ (r.version ≡ 2)) }
    ensures cites { IfOk result (λ r. CitesFit r.version r.cert) }
    ensures numbers { IfOk result (λ r. r.lines ≡ numbers_in (given r).entries) }
{
    if let Some(at) = wrong_byte(text) {
        return Err(fault_at(at, 1));
    }
    let (second, at) = match first(text) {
        Ok(found) => found,
        Err(fault) => return Err(ReadError::Fault(fault)),
    };
    let (tree, at) = tree(alloc, text, at)?;
    let building = entries(alloc, text, second, at, &tree)?;
    let (cert, lines) = match building.finish() {
        Ok(found) => found,
        Err(_) => return Err(ReadError::Memory),
    };
    Ok(ReadResult {
        version: version(second),
        tree,
        cert,
        lines,
    })
}

/// The number of the line at this offset, from 1.
fn number_at(text: &[u8], at: u64) -> u64
    requires { at ≤ length text.now }
    ensures { result ≡ line_at text.now at }
{
    1 + text[..at as usize].iter().filter(|b| **b == b'\n').count() as u64
}

/// The result that a text says, in either format.
///
/// `BadLine` comes exactly where the text is no result, with its first fault. `NoMemory` is out of memory.
pub fn read_result(alloc: Global, text: &[u8]) -> Result<ReadResult, BadResult>
    // What is read is what the text says.
    ensures read { IfOk result (λ r. reading.result_of text.now ≡ Ok (given r)) }
    ensures version { IfOk result (λ r. (r.version ≡ 1) ⊎ (r.version ≡ 2)) }
    ensures cites { IfOk result (λ r. CitesFit r.version r.cert) }
    ensures numbers { IfOk result (λ r. r.lines ≡ numbers_in (given r).entries) }
    // The fault is the one that is told of the text, with its line.
    ensures bad { IfErr result (IsBad text.now) }
    // A certificate that was written is read again as itself.
    ensures again { (tree : List (List ℕ)) (cert : Certificate) → CanBeRead cert → All IsTreeText tree
        → text.now ≡ result_text tree cert → IfOk result (IsAgain tree cert) }
{
    match read(alloc, text) {
        Ok(found) => Ok(found),
        Err(ReadError::Memory) => Err(BadResult::NoMemory),
        Err(ReadError::Fault(fault)) => Err(BadResult::BadLine {
            line: number_at(text, fault.at),
            offset: fault.at,
            rule: Rule {
                letter: b'r',
                number: fault.rule,
            },
        }),
    }
}
