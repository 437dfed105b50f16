//! The forms of a line.

ghost use Rattle.std.specs.Prelude.{◌≡◌, ◌≤◌, ◌<◌, ◌^◌, length, IsTrue};
ghost use Rattle.std.specs.List.{list_all};
ghost use Rattle.std.specs.Option.{option_map, option_copied};
ghost use Rattle.std.specs.Char.{digit_value as char_digit_value};
ghost use Rattle.font_table.specs.Table.{is_hex_digit};
ghost use Rattle.font_table.specs.Views.{face_of};
ghost use Rattle.font_table.specs.Table as table;
ghost use Rattle.font_table.specs.Forms as forms;

use crate::fonts::Advance;

/// A face's line: the face without its characters.
#[derive(Clone, Copy)]
pub struct FaceLine<'a> {
    pub name: &'a [u8],
    pub weight: u32,
    pub italic: bool,
    pub ascent: u32,
    pub descent: u32,
    pub default_advance: u32,
}

/// The word in front of the first space, and what follows the space.
fn word(bytes: &[u8]) -> Option<(&[u8], &[u8])>
    ensures { option_map (λ x. (x.0.now, x.1.now)) result ≡ forms.word_at bytes.now }
{
    for (i, byte) in bytes.iter().enumerate() {
        if *byte == b' ' {
            let (front, back) = bytes.split_at(i);
            return Some((front, back.split_at(1).1));
        }
    }
    None
}

fn is_digit(hex: bool, byte: u8) -> bool
    ensures { result ≡ forms.is_digit_of hex byte }
{
    byte.is_ascii_digit() || (hex && b'A' <= byte && byte <= b'F')
}

/// The number that these digits write, where it is at most `most`.
#[tactic(auto, unfolding(crate::specs::Forms::number_at))]
fn number(hex: bool, most: u32, digits: &[u8]) -> Option<u32>
    requires { most < 2 ^ 24 }
    ensures { result ≡ forms.number_at hex most digits.now }
{
    if digits.is_empty() {
        return None;
    }
    let base = if hex { 16 } else { 10 };
    let mut value = 0;
    for byte in digits {
        if !is_digit(hex, *byte) {
            return None;
        }
        value = value * base + digit_value(*byte);
        if value > most {
            return None;
        }
    }
    Some(value)
}

fn digit_value(byte: u8) -> u32
    requires { IsTrue (is_hex_digit byte) }
    ensures same { result ≡ char_digit_value byte }
    ensures small { result < 16 }
{
    if byte <= b'9' {
        u32::from(byte - b'0')
    } else {
        u32::from(byte - b'A') + 10
    }
}

/// A character's code.
#[tactic(auto, unfolding(crate::specs::Forms::code_at))]
fn code(hex: &[u8]) -> Option<char>
    ensures { result ≡ forms.code_at hex.now }
{
    if hex.len() > 1 && hex[0] == b'0' {
        return None;
    }
    char::from_u32(number(true, 0x10FFFF, hex)?)
}

/// What follows a first word that is this one.
#[tactic(auto, unfolding(crate::specs::Forms::behind_keyword))]
fn behind_keyword<'a>(keyword: &[u8], line: &'a [u8]) -> Option<&'a [u8]>
    ensures { option_copied result ≡ forms.behind_keyword keyword.now line.now }
{
    let (first, rest) = word(line)?;
    if first == keyword { Some(rest) } else { None }
}

fn is_name_byte(byte: u8) -> bool
    ensures { result ≡ table.is_name_byte byte }
{
    byte.is_ascii_digit() || byte == b'-' || byte.is_ascii_uppercase() || byte.is_ascii_lowercase()
}

fn is_name(bytes: &[u8]) -> bool
    ensures { result ≡ list_all table.is_name_byte bytes.now }
{
    bytes.iter().all(|byte| is_name_byte(*byte))
}

#[tactic(auto, unfolding(crate::specs::Forms::name_at))]
fn name(bytes: &[u8]) -> Option<(&[u8], &[u8])>
    ensures { option_map (λ x. (x.0.now, x.1.now)) result ≡ forms.name_at bytes.now }
{
    let (name, rest) = word(bytes)?;
    if !name.is_empty() && is_name(name) {
        Some((name, rest))
    } else {
        None
    }
}

/// A number of at most `most`, and what follows its space.
#[tactic(auto, unfolding(crate::specs::Forms::field_at))]
fn field(most: u32, bytes: &[u8]) -> Option<(u32, &[u8])>
    requires { most < 2 ^ 24 }
    ensures { option_map (λ x. (x.0, x.1.now)) result ≡ forms.field_at most bytes.now }
{
    let (digits, rest) = word(bytes)?;
    Some((number(false, most, digits)?, rest))
}

#[tactic(auto, unfolding(crate::specs::Forms::weight_at))]
fn weight(bytes: &[u8]) -> Option<(u32, &[u8])>
    ensures { option_map (λ x. (x.0, x.1.now)) result ≡ forms.weight_at bytes.now }
{
    let (weight, rest) = field(1000, bytes)?;
    if weight > 0 {
        Some((weight, rest))
    } else {
        None
    }
}

#[tactic(auto, unfolding(crate::specs::Forms::style_of))]
fn style_of(word: &[u8]) -> Option<bool>
    ensures { result ≡ forms.style_of word.now }
{
    if word == b"normal".as_slice() {
        Some(false)
    } else if word == b"italic".as_slice() {
        Some(true)
    } else {
        None
    }
}

/// Whether a style's word says italic, and what follows its space.
#[tactic(auto, unfolding(crate::specs::Forms::style_at))]
fn style(bytes: &[u8]) -> Option<(bool, &[u8])>
    ensures { option_map (λ x. (x.0, x.1.now)) result ≡ forms.style_at bytes.now }
{
    let (word, rest) = word(bytes)?;
    Some((style_of(word)?, rest))
}

/// The face of a face's line.
#[tactic(auto, unfolding(crate::specs::Forms::face_at))]
pub fn face_line(line: &[u8]) -> Option<FaceLine<'_>>
    ensures { option_map face_of result ≡ forms.face_at line.now }
{
    let behind = behind_keyword(b"face", line)?;
    let (name, rest) = name(behind)?;
    let (weight, rest) = weight(rest)?;
    let (italic, rest) = style(rest)?;
    let (ascent, rest) = field(10_000, rest)?;
    let (descent, rest) = field(10_000, rest)?;
    let default_advance = number(false, 10_000, rest)?;
    Some(FaceLine {
        name,
        weight,
        italic,
        ascent,
        descent,
        default_advance,
    })
}

/// The advance of a character's line.
#[tactic(auto, unfolding(crate::specs::Forms::character_at))]
pub fn character_line(line: &[u8]) -> Option<Advance>
    ensures { result ≡ forms.character_at line.now }
{
    let behind = behind_keyword(b"ch", line)?;
    let (hex, rest) = word(behind)?;
    let ch = code(hex)?;
    let amount = number(false, 10_000, rest)?;
    Some(Advance { ch, amount })
}
