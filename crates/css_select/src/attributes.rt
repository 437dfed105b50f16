//! What a selector asks of an element's attributes.

ghost use Rattle.std.specs.Prelude.{◌≡◌, ◌≤◌, ◌↔◌, [], ◌∷◌, ◌++◌, drop, length, IsTrue};
ghost use Rattle.std.specs.List.{list_any, slice_split};
ghost use Rattle.std.specs.Str.{bytes_eq};
ghost use Rattle.html_grammar.specs.Tokens as tokens;
ghost use Rattle.css_select.specs.Attributes.{
  BeginsWith,
  Compares,
  EndsWith,
  HasAttribute,
  HasPart,
  IsSameName,
  IsWordOf,
};

use css_data::AttrOp;
use html_grammar::Attribute;

/// Whether two names are one without ASCII case.
pub fn same_name(a: &[u8], b: &[u8]) -> bool
    ensures { IsTrue result ↔ IsSameName a.now b.now }
{
    a.eq_ignore_ascii_case(b)
}

/// White space: space, tab and line feed.
fn is_space(byte: u8) -> bool
    ensures { result ≡ tokens.is_space byte }
{
    byte == b' ' || (byte == b'\n' || byte == b'\t')
}

/// Whether a part of the text between white space is this one.
fn stands_between_spaces(text: &[u8], part: &[u8]) -> bool
    ensures { result ≡ list_any (λ other. bytes_eq other part.now) (slice_split tokens.is_space text.now) }
{
    text.split(|byte| is_space(*byte))
        .any(|other| other == part)
}

fn has_word(text: &[u8], word: &[u8]) -> bool
    ensures { IsTrue result ↔ IsWordOf word.now text.now }
{
    !word.is_empty() && stands_between_spaces(text, word)
}

fn begins_with(text: &[u8], front: &[u8]) -> bool
    ensures { IsTrue result ↔ BeginsWith text.now front.now }
{
    text.starts_with(front)
}

fn ends_with(text: &[u8], end: &[u8]) -> bool
    ensures { IsTrue result ↔ EndsWith text.now end.now }
{
    text.ends_with(end)
}

fn begins_at(text: &[u8], at: usize, front: &[u8]) -> bool
    requires { at ≤ length text.now }
    ensures { IsTrue result ↔ BeginsWith (drop at text.now) front.now }
{
    begins_with(&text[at..], front)
}

fn has_part(text: &[u8], part: &[u8]) -> bool
    ensures { IsTrue result ↔ HasPart text.now part.now }
{
    for at in 0..text.len() {
        if begins_at(text, at, part) {
            return true;
        }
    }
    part.is_empty()
}

/// Whether a text begins with this one and a `-`.
fn begins_dashed(text: &[u8], front: &[u8]) -> bool
    ensures { IsTrue result ↔ BeginsWith text.now (front.now ++ 45 ∷ []) }
{
    front.len() < text.len() && text[front.len()] == b'-' && begins_with(text, front)
}

/// Whether an attribute's value compares so with the one that is asked for.
fn compares(op: AttrOp, own: &[u8], value: &[u8]) -> bool
    ensures { IsTrue result ↔ Compares op own.now value.now }
{
    match op {
        AttrOp::Has => true,
        AttrOp::Equal => own == value,
        AttrOp::Word => has_word(own, value),
        AttrOp::Dash => own == value || begins_dashed(own, value),
        AttrOp::Prefix => !value.is_empty() && begins_with(own, value),
        AttrOp::Suffix => !value.is_empty() && ends_with(own, value),
        AttrOp::Part => !value.is_empty() && has_part(own, value),
    }
}

/// Whether an attribute of this name compares so.
pub fn has_attribute(attributes: &[Attribute], name: &[u8], op: AttrOp, value: &[u8]) -> bool
    ensures { IsTrue result ↔ HasAttribute name.now op value.now attributes.now }
{
    for attribute in attributes {
        if same_name(attribute.name.as_slice(), name)
            && compares(op, attribute.value.as_slice(), value)
        {
            return true;
        }
    }
    false
}
