//! Metrics tables from a text.

ghost use Rattle.std.specs.Prelude.{◌≡◌, ◌≤◌, ◌<◌, ◌^◌, List as Items, [], length, Ok, IfOk, IfErr};
ghost use Rattle.font_table.specs.Table.{is_plain as is_plain_byte, IsMetrics};
ghost use Rattle.font_table.specs.declared.fonts.Face.{Face as OneFace};
ghost use Rattle.font_table.specs.Views.{face_of};
ghost use Rattle.font_table.specs.Reading as reading;
ghost use Rattle.font_table.specs.Reading.{Gives, IsRefusalOf};

use crate::fonts::{Advance, Face, Fonts};
use crate::line::{FaceLine, character_line, face_line};
use mc_base::{Input, List, Refusal, Rule, Text, sound_len};
use std::alloc::Global;

/// A table that is being read: the faces before the last one, the last one, and the least code that its next character
/// may have.
#[derive(Drop)]
pub struct Building {
    pub done: List<Face>,
    pub last: Option<Face>,
    pub least: u32,
}

fn fault(offset: usize, number: u8) -> Refusal
    ensures { result ≡ reading.refusal offset number }
{
    Refusal::Grammar {
        input: Input::Metrics,
        offset: offset as u64,
        rule: Rule {
            letter: b'f',
            number,
        },
    }
}

/// The faces so far.
fn faces_of(building: Building) -> Result<List<Face>, Refusal>
    ensures { Gives (λ faces. faces) result (Ok (reading.faces_of building)) }
{
    let Building {
        done,
        last,
        least: _,
    } = building;
    let mut faces = done;
    if let Some(face) = last {
        faces.push(face)?;
    }
    Ok(faces)
}

/// The table with a face begun.
fn face_begun(alloc: Global, building: Building, head: &FaceLine) -> Result<Building, Refusal>
    ensures { Gives (λ b. b) result (Ok (reading.face_begun building (face_of head.now))) }
{
    let face = Face {
        name: Text::of(Vec::from_slice(alloc, head.name)?),
        weight: head.weight,
        italic: head.italic,
        ascent: head.ascent,
        descent: head.descent,
        default_advance: head.default_advance,
        advances: List::new(alloc),
    };
    Ok(Building {
        done: faces_of(building)?,
        last: Some(face),
        least: 0,
    })
}

/// The table with a character's advance, in a line that begins at `at`.
fn character_taken(at: usize, building: Building, advance: Advance) -> Result<Building, Refusal>
    ensures { Gives (λ b. b) result (reading.character_taken at building building.last advance) }
{
    let Building { done, last, least } = building;
    let Some(mut face) = last else {
        return Err(fault(at, 5));
    };
    let code = u32::from(advance.ch);
    if code < least {
        return Err(fault(at, 5));
    }
    face.advances.push(advance)?;
    Ok(Building {
        done,
        last: Some(face),
        least: code + 1,
    })
}

/// The table with a line that begins at `at`.
#[tactic(auto, unfolding(crate::specs::Reading::line_taken))]
fn line_taken(
    alloc: Global,
    at: usize,
    building: Building,
    line: &[u8],
) -> Result<Building, Refusal>
    ensures { Gives (λ b. b) result (reading.line_taken at building line.now) }
{
    if at == 0 {
        return if line == b"metrics 1".as_slice() {
            Ok(building)
        } else {
            Err(fault(0, 3))
        };
    }
    if let Some(head) = face_line(line) {
        return face_begun(alloc, building, &head);
    }
    match character_line(line) {
        Some(advance) => character_taken(at, building, advance),
        None => Err(fault(at, 4)),
    }
}

fn is_plain(byte: u8) -> bool
    ensures { result ≡ is_plain_byte byte }
{
    b' ' <= byte && byte <= b'~'
}

/// The table that the lines of a text make.
fn lines(alloc: Global, text: &[u8]) -> Result<Building, Refusal>
    ensures { Gives (λ b. b) result (reading.read_from 0 [] reading.nothing_yet text.now) }
{
    let mut building = Building {
        done: List::new(alloc),
        last: None,
        least: 0,
    };
    let mut start = 0;
    for (i, byte) in text.iter().enumerate() {
        if *byte == b'\n' {
            building = line_taken(alloc, start, building, &text[start..i])?;
            start = i + 1;
        } else if !is_plain(*byte) {
            return Err(fault(i, 2));
        }
    }
    if start < text.len() {
        return Err(fault(start, 2));
    }
    Ok(building)
}

#[tactic(auto, unfolding(crate::specs::Reading::all_of))]
fn faces(alloc: Global, text: &[u8]) -> Result<List<Face>, Refusal>
    ensures { Gives (λ faces. faces) result (reading.all_of text.now) }
{
    let sound = sound_len(text);
    if sound < text.len() {
        return Err(fault(sound, 1));
    }
    let faces = faces_of(lines(alloc, text)?)?;
    if faces.is_empty() {
        return Err(if text.is_empty() {
            fault(0, 3)
        } else {
            fault(text.len(), 6)
        });
    }
    Ok(faces)
}

/// The faces of a metrics table.
///
/// The text has at most 2^28 bytes. It is a table of this project's own format: lines of printable ASCII, each with a line
/// feed at its end, the first `metrics 1`, and then for each face `face NAME WEIGHT STYLE ASCENT DESCENT DEFAULT` and its
/// lines `ch HEX ADVANCE`. A text off this grammar is refused with its first fault: `f1` at a U+0000 or a sequence that is
/// no UTF-8, `f2` at a byte that no line has or at a last line without its line feed, `f3` at another first line, `f4` at a
/// line of neither form, `f5` at a `ch` line before a face or out of order, and `f6` at the end where there is no face.
pub fn read_fonts(alloc: Global, text: &[u8]) -> Result<Fonts, Refusal>
    requires { length text.now ≤ 2 ^ 28 }
    // What is read is spelled so.
    ensures found { IfOk result (IsMetrics text.now) }
    // What is so spelled is read, unless memory runs out.
    ensures only { (faces : Items OneFace) → IsMetrics text.now faces → Gives (λ fonts. fonts) result (Ok faces) }
    // A refusal is out of memory or the first fault.
    ensures first { IfErr result (IsRefusalOf text.now) }
    ensures exact { Gives (λ fonts. fonts) result (reading.all_of text.now) }
{
    let faces = faces(alloc, text)?;
    Ok(Fonts::of(faces))
}
