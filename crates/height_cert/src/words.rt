//! The words of a line.

ghost use Rattle.std.specs.Prelude.{◌≡◌, ◌∷◌, ◌++◌, map, OnOk};
ghost use Rattle.std.specs.Fmt.{decimal};
ghost use Rattle.flow_list.specs.Reasons.{told_reason};
ghost use Rattle.flow_list.specs.ResultText.{number_or_dash, end_text, reason_words};
ghost use Rattle.flow_list.specs.TreeText.{spaced, token_text};
ghost use Rattle.height_cert.specs.Words.{dotted, numbers_of};

use flow_list::Reason;
use itoa::Buffer;
use mc_base::{NoMemory, Text, Token};
use std::alloc::Global;
use std::cmp::Ordering;

/// Adds a word after a space.
pub fn put_word(out: &mut Text, word: &[u8]) -> Result<(), NoMemory>
    ensures { OnOk result (out.new ≡ out.old ++ 32 ∷ word.now) }
{
    out.push(b' ')?;
    out.extend(word)?;
    Ok(())
}

/// Adds a number after a space.
pub fn put_number(out: &mut Text, number: u64) -> Result<(), NoMemory>
    ensures { OnOk result (out.new ≡ out.old ++ 32 ∷ decimal number) }
{
    let mut buffer = Buffer::new();
    put_word(out, buffer.format(number).as_bytes())
}

/// Adds numbers, each after a space.
pub fn put_numbers(out: &mut Text, numbers: &[u64]) -> Result<(), NoMemory>
    ensures { OnOk result (out.new ≡ out.old ++ spaced (map decimal numbers.now)) }
{
    for number in numbers {
        put_number(out, *number)?;
    }
    Ok(())
}

/// Adds a number after a space, or a dash where there is none.
pub fn put_number_or_dash(out: &mut Text, number: Option<u64>) -> Result<(), NoMemory>
    ensures { OnOk result (out.new ≡ out.old ++ 32 ∷ number_or_dash number) }
{
    match number {
        Some(number) => put_number(out, number),
        None => put_word(out, b"-"),
    }
}

/// Adds the number of an item after a space, or a dash where there is none.
pub fn put_stop(out: &mut Text, stop: Option<u32>) -> Result<(), NoMemory>
    ensures { OnOk result (out.new ≡ out.old ++ 32 ∷ number_or_dash stop) }
{
    match stop {
        Some(item) => put_number(out, item as u64),
        None => put_word(out, b"-"),
    }
}

/// Adds the numbers of a place within an item, each after a dot.
fn put_within(out: &mut Text, rest: Option<Token>) -> Result<(), NoMemory>
    ensures { OnOk result (out.new ≡ out.old ++ dotted (numbers_of rest)) }
{
    let Some(token) = rest else {
        return Ok(());
    };
    let mut buffer = Buffer::new();
    out.push(b'.')?;
    out.extend(buffer.format(token.item()).as_bytes())?;
    put_within(out, token.rest())
}

/// Adds a place: its numbers joined by dots.
fn put_token(alloc: Global, out: &mut Text, token: &Token) -> Result<(), NoMemory>
    ensures { OnOk result (out.new ≡ out.old ++ token_text token.now) }
{
    // Each place has a number, and none comes before that of item 0.
    if let Ordering::Less = token.cmp(&Token::start(alloc, 0)) {
        return Ok(());
    }
    let mut buffer = Buffer::new();
    out.extend(buffer.format(token.item()).as_bytes())?;
    put_within(out, token.rest())
}

/// Adds a place after a space.
pub fn put_place(alloc: Global, out: &mut Text, token: &Token) -> Result<(), NoMemory>
    ensures { OnOk result (out.new ≡ out.old ++ 32 ∷ token_text token.now) }
{
    out.push(b' ')?;
    put_token(alloc, out, token)
}

/// Adds the end of a column after a space: a place, or `!` where the column overflows.
pub fn put_end(alloc: Global, out: &mut Text, end: &Option<Token>) -> Result<(), NoMemory>
    ensures { OnOk result (out.new ≡ out.old ++ 32 ∷ end_text end.now) }
{
    match end {
        Some(token) => put_place(alloc, out, token),
        None => put_word(out, b"!"),
    }
}

/// Adds a word and a number, each after a space.
fn put_named(out: &mut Text, word: &[u8], number: u32) -> Result<(), NoMemory>
    ensures { OnOk result (out.new ≡ (out.old ++ 32 ∷ word.now) ++ 32 ∷ decimal number) }
{
    put_word(out, word)?;
    put_number(out, number as u64)
}

/// Adds the words of a reason.
pub fn put_reason(alloc: Global, out: &mut Text, reason: &Reason) -> Result<(), NoMemory>
    ensures { OnOk result (out.new ≡ out.old ++ spaced (reason_words (told_reason reason.now))) }
{
    match reason {
        Reason::Tall { item } => put_named(out, b"tall", *item),
        Reason::Area => put_word(out, b"area"),
        Reason::Left { at } => {
            put_word(out, b"left")?;
            put_place(alloc, out, at)
        }
        Reason::Bad { column } => put_named(out, b"bad", *column),
        Reason::Over { column } => put_named(out, b"over", *column),
    }
}
