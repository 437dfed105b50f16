//! Choosing faces and finding advances, over slices.

ghost use Rattle.std.specs.Prelude.{◌≡◌, ◌&&◌, ◌≤◌, ◌<◌, ◌*◌, ◌^◌, IfSome, length};
ghost use Rattle.std.specs.List.{position};
ghost use Rattle.font_table.specs.Sound.{AreSound, IsSoundFace};
ghost use Rattle.font_table.specs.Choice as choice;
ghost use Rattle.font_table.specs.Choice.{is_of, is_like, own_advance, advance_of, chosen};

use crate::fonts::{Advance, Face};
use mc_base::Text;

/// A byte of a family's name, as a table spells it.
fn family_byte(byte: u8) -> u8
    ensures { result ≡ choice.family_byte byte }
{
    let spelled = if byte == b' ' { b'-' } else { byte };
    spelled.to_ascii_lowercase()
}

fn is_named(family: &[u8], name: &[u8]) -> bool
    ensures { result ≡ choice.is_named family.now name.now }
{
    let mut rest = name;
    for byte in family {
        match rest.split_first() {
            None => return false,
            Some((first, others)) => {
                if family_byte(*byte) != first.to_ascii_lowercase() {
                    return false;
                }
                rest = others;
            }
        }
    }
    rest.is_empty()
}

fn is_of_family(family: &[u8], face: &Face) -> bool
    ensures { result ≡ is_of family.now face.now }
{
    is_named(family, face.name.as_slice())
}

fn is_like_asked(weight: u32, italic: bool, face: &Face) -> bool
    ensures { result ≡ is_like weight italic face.now }
{
    face.italic == italic && (face.weight >= 600) == (weight >= 600)
}

/// The first face of a family.
fn first_of(faces: &[Face], family: &[u8]) -> Option<usize>
    ensures first { result ≡ position (is_of family.now) faces.now }
    ensures known { IfSome result (λ i. i < length faces.now) }
{
    faces.iter().position(|face| is_of_family(family, face))
}

/// The first face of a family that has this style, and a weight on this side of 600.
fn best_of(faces: &[Face], family: &[u8], weight: u32, italic: bool) -> Option<usize>
    ensures first { result ≡ position (λ face. is_of family.now face && is_like weight italic face) faces.now }
    ensures known { IfSome result (λ i. i < length faces.now) }
{
    faces.iter().position(|face| is_of_family(family, face) && is_like_asked(weight, italic, face))
}

/// The face that this weight and style choose in a family.
fn in_family(faces: &[Face], family: &[u8], weight: u32, italic: bool) -> Option<usize>
    ensures choice { result ≡ choice.in_family faces.now family.now weight italic }
    ensures known { IfSome result (λ i. i < length faces.now) }
{
    let first = first_of(faces, family)?;
    Some(best_of(faces, family, weight, italic).unwrap_or(first))
}

/// The advance that is the character's own.
pub fn find(advances: &[Advance], ch: char) -> Option<u32>
    requires { AreSound 0 advances.now }
    ensures value { result ≡ own_advance advances.now ch }
    ensures most { IfSome result (λ amount. amount ≤ 10000) }
{
    match advances.binary_search_by_key(&ch, |advance| advance.ch) {
        Ok(i) => Some(advances[i].amount),
        Err(_) => None,
    }
}

/// So many thousandths of a size, rounded down.
fn scaled(thousandths: u32, size: u64) -> u64
    requires amount { thousandths ≤ 10000 }
    requires size { size ≤ 2 ^ 32 }
    ensures value { result ≡ choice.scaled thousandths size }
    ensures most { result ≤ 10 * size }
{
    u64::from(thousandths) * size / 1000
}

pub fn advance(face: &Face, ch: char, size: u64) -> u64
    requires sound { IsSoundFace face.now }
    requires size { size ≤ 2 ^ 32 }
    ensures value { result ≡ choice.scaled (advance_of face.now ch) size }
    ensures most { result ≤ 10 * size }
{
    match find(face.advances.as_slice(), ch) {
        Some(amount) => scaled(amount, size),
        None => scaled(face.default_advance, size),
    }
}

pub fn ascent(face: &Face, size: u64) -> u64
    requires sound { IsSoundFace face.now }
    requires size { size ≤ 2 ^ 32 }
    ensures value { result ≡ choice.scaled face.now.ascent size }
    ensures most { result ≤ 10 * size }
{
    scaled(face.ascent, size)
}

pub fn descent(face: &Face, size: u64) -> u64
    requires sound { IsSoundFace face.now }
    requires size { size ≤ 2 ^ 32 }
    ensures value { result ≡ choice.scaled face.now.descent size }
    ensures most { result ≤ 10 * size }
{
    scaled(face.descent, size)
}

/// The number of the face that these families, this weight and style choose.
pub fn face(faces: &[Face], families: &[Text], weight: u32, italic: bool) -> u32
    requires some { 0 < length faces.now }
    requires few { length faces.now < 2 ^ 32 }
    ensures choice { result ≡ chosen faces.now families.now weight italic }
    ensures known { result < length faces.now }
{
    for family in families {
        if let Some(i) = in_family(faces, family.as_slice(), weight, italic) {
            return i as u32;
        }
    }
    0
}
