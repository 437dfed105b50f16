//! What each line says.

ghost use Rattle.std.specs.Prelude.{◌≡◌, option_map};
ghost use Rattle.flow_text.specs.Forms as forms;

use crate::line::Form;
use crate::number::field;
use mc_base::Level;

/// What follows these bytes at the front.
fn behind<'a>(front: &[u8], bytes: &'a [u8]) -> Option<&'a [u8]>
    ensures { option_map (λ x. x.now) result ≡ forms.behind front.now bytes.now }
{
    if !bytes.starts_with(front) {
        return None;
    }
    Some(bytes.split_at(front.len()).1)
}

/// The number after a space, where nothing follows it.
#[tactic(auto, unfolding(crate::specs::Forms::last_field))]
fn last_field(bytes: &[u8]) -> Option<u64>
    ensures { result ≡ forms.last_field bytes.now }
{
    let (value, rest) = field(bytes)?;
    if !rest.is_empty() {
        return None;
    }
    Some(value)
}

/// The one byte after a space, where nothing follows it.
fn last_byte(bytes: &[u8]) -> Option<u8>
    ensures { result ≡ forms.last_byte bytes.now }
{
    match bytes {
        [b' ', byte] => Some(*byte),
        _ => None,
    }
}

/// How good a break is.
#[tactic(auto, unfolding(crate::specs::Forms::level_at))]
fn level(bytes: &[u8]) -> Option<Level>
    ensures { result ≡ forms.level_at bytes.now }
{
    match last_byte(bytes)? {
        b'F' => Some(Level::Forced),
        b'0' => Some(Level::L0),
        b'1' => Some(Level::L1),
        b'2' => Some(Level::L2),
        _ => None,
    }
}

/// How a row's columns are filled: whether one after the other.
#[tactic(auto, unfolding(crate::specs::Forms::fill_at))]
fn fill(bytes: &[u8]) -> Option<bool>
    ensures { result ≡ forms.fill_at bytes.now }
{
    if bytes == b" balance".as_slice() {
        return Some(false);
    }
    if bytes == b" auto".as_slice() {
        return Some(true);
    }
    None
}

/// Whether a box avoids a break inside, and what follows that word.
#[tactic(auto, unfolding(crate::specs::Forms::inside_at))]
fn inside(bytes: &[u8]) -> Option<(bool, &[u8])>
    ensures { option_map (λ x. (x.0, x.1.now)) result ≡ forms.inside_at bytes.now }
{
    if let Some(rest) = behind(b" auto", bytes) {
        return Some((false, rest));
    }
    let rest = behind(b" avoid", bytes)?;
    Some((true, rest))
}

/// The two amounts that a box has again at each break: none are 0 and 0.
#[tactic(auto, unfolding(crate::specs::Forms::amounts_at))]
fn amounts(bytes: &[u8]) -> Option<(u64, u64)>
    ensures { result ≡ forms.amounts_at bytes.now }
{
    if bytes.is_empty() {
        return Some((0, 0));
    }
    let (top, rest) = field(bytes)?;
    let bottom = last_field(rest)?;
    Some((top, bottom))
}

/// The start of a box, after `(`.
#[tactic(auto, unfolding(crate::specs::Forms::start_at))]
fn start(bytes: &[u8]) -> Option<Form>
    ensures { result ≡ forms.start_at bytes.now }
{
    let (number, rest) = field(bytes)?;
    let (x, rest) = field(rest)?;
    let (w, rest) = field(rest)?;
    let (avoid, rest) = inside(rest)?;
    let (top, bottom) = amounts(rest)?;
    Some(Form::Start {
        number,
        x,
        w,
        avoid,
        top,
        bottom,
    })
}

/// A row, after its first three numbers.
#[tactic(auto, unfolding(crate::specs::Forms::row_behind))]
fn row_behind(n: u64, w: u64, step: u64, bytes: &[u8]) -> Option<Form>
    ensures { result ≡ forms.row_behind n w step bytes.now }
{
    if let Some(rest) = behind(b" -", bytes) {
        let auto = fill(rest)?;
        return Some(Form::First {
            n,
            w,
            step,
            available: None,
            auto,
        });
    }
    let (x, rest) = field(bytes)?;
    if rest.is_empty() {
        return Some(Form::Row { n, w, step, x });
    }
    if x < 64 {
        return None;
    }
    let auto = fill(rest)?;
    Some(Form::First {
        n,
        w,
        step,
        available: Some(x),
        auto,
    })
}

/// A row, after `row`.
#[tactic(auto, unfolding(crate::specs::Forms::row_at))]
fn row(bytes: &[u8]) -> Option<Form>
    ensures { result ≡ forms.row_at bytes.now }
{
    let (n, rest) = field(bytes)?;
    if n == 0 {
        return None;
    }
    let (w, rest) = field(rest)?;
    let (step, rest) = field(rest)?;
    row_behind(n, w, step, rest)
}

/// A line that is one word.
#[tactic(auto, unfolding(crate::specs::Forms::word_of))]
fn word(text: &[u8]) -> Option<Form>
    ensures { result ≡ forms.word_of text.now }
{
    if text == b"w".as_slice() {
        return Some(Form::Wall);
    }
    if text == b"end".as_slice() {
        return Some(Form::Close);
    }
    if text == b"flow 1".as_slice() {
        return Some(Form::Flow);
    }
    let rest = behind(b"row", text)?;
    row(rest)
}

/// What a line says, or None where it is of no form.
#[tactic(auto, unfolding(crate::specs::Forms::form_of))]
pub fn form_of(text: &[u8]) -> Option<Form>
    ensures { result ≡ forms.form_of text.now }
{
    let (first, rest) = text.split_first()?;
    match *first {
        b'a' => Some(Form::Atom(last_field(rest)?)),
        b'm' => Some(Form::Margin(last_field(rest)?)),
        b's' => Some(Form::Solid(last_field(rest)?)),
        b'|' => Some(Form::Break(level(rest)?)),
        b'(' => start(rest),
        b')' => Some(Form::End(last_field(rest)?)),
        _ => word(text),
    }
}
