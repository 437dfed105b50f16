//! The words of a line.

ghost use Rattle.std.specs.Prelude.{◌≡◌, ◌∷◌, ◌++◌, OnOk};
ghost use Rattle.std.specs.Fmt.{decimal};
ghost use Rattle.flow_list.specs.TreeText.{token_text};
ghost use Rattle.all_writer.specs.Words.{dotted, numbers_of};

use itoa::Buffer;
use mc_base::{NoMemory, Text, Token};
use std::alloc::Global;
use std::cmp::Ordering;

/// Adds a word after a space.
pub fn put_word(out: &mut Text, word: &[u8]) -> Result<(), NoMemory>
    ensures { OnOk result (out.new ≡ out.old ++ 32 ∷ word.now) }
{
    out.push(b' ')?;
    out.extend(word)?;
    Ok(())
}

/// Adds a number after a space.
pub fn put_number(out: &mut Text, number: u64) -> Result<(), NoMemory>
    ensures { OnOk result (out.new ≡ out.old ++ 32 ∷ decimal number) }
{
    let mut buffer = Buffer::new();
    put_word(out, buffer.format(number).as_bytes())
}

/// Adds the numbers of a place within an item, each after a dot.
fn put_within(out: &mut Text, rest: Option<Token>) -> Result<(), NoMemory>
    ensures { OnOk result (out.new ≡ out.old ++ dotted (numbers_of rest)) }
{
    let Some(token) = rest else {
        return Ok(());
    };
    let mut buffer = Buffer::new();
    out.push(b'.')?;
    out.extend(buffer.format(token.item()).as_bytes())?;
    put_within(out, token.rest())
}

/// Adds a place: its numbers joined by dots.
fn put_token(alloc: Global, out: &mut Text, token: &Token) -> Result<(), NoMemory>
    ensures { OnOk result (out.new ≡ out.old ++ token_text token.now) }
{
    // Each place has a number, and none comes before that of item 0.
    if let Ordering::Less = token.cmp(&Token::start(alloc, 0)) {
        return Ok(());
    }
    let mut buffer = Buffer::new();
    out.extend(buffer.format(token.item()).as_bytes())?;
    put_within(out, token.rest())
}

/// Adds a place after a space.
pub fn put_place(alloc: Global, out: &mut Text, token: &Token) -> Result<(), NoMemory>
    ensures { OnOk result (out.new ≡ out.old ++ 32 ∷ token_text token.now) }
{
    out.push(b' ')?;
    put_token(alloc, out, token)
}
