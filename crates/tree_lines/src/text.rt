//! The text of lines.

ghost use Rattle.std.specs.Prelude.{◌≡◌, [], ◌∷◌, ◌++◌, IfOk, OnOk};
ghost use Rattle.flow_list.specs.TreeText as definition;
ghost use Rattle.flow_list.specs.TreeText.{ends_text, kind_words, spaced, token_text, tree_line_text};
ghost use Rattle.tree_lines.specs.Lines.{kind_of, line_of, lines_of};
ghost use Rattle.tree_lines.specs.Words.{dotted, numbers_of, spaced_numbers};

use crate::line::{TreeKind, TreeLine};
use itoa::Buffer;
use mc_base::{List, NoMemory, Rect, Text, Token};
use std::alloc::Global;
use std::cmp::Ordering;

/// Adds a word after a space.
fn put_word(out: &mut Text, word: &[u8]) -> Result<(), NoMemory>
    ensures { OnOk result (out.new ≡ out.old ++ 32 ∷ word.now) }
{
    out.push(b' ')?;
    out.extend(word)?;
    Ok(())
}

/// Adds numbers, each after a space.
fn put_numbers(out: &mut Text, numbers: &[u64]) -> Result<(), NoMemory>
    ensures { OnOk result (out.new ≡ out.old ++ spaced_numbers numbers.now) }
{
    let mut buffer = Buffer::new();
    for number in numbers {
        put_word(out, buffer.format(*number).as_bytes())?;
    }
    Ok(())
}

/// Adds a word and numbers, each after a space.
fn put_named(out: &mut Text, word: &[u8], numbers: &[u64]) -> Result<(), NoMemory>
    ensures { OnOk result (out.new ≡ (out.old ++ 32 ∷ word.now) ++ spaced_numbers numbers.now) }
{
    put_word(out, word)?;
    put_numbers(out, numbers)
}

/// Adds the numbers of a place within an item, each after a dot.
fn put_within(out: &mut Text, rest: Option<Token>) -> Result<(), NoMemory>
    ensures { OnOk result (out.new ≡ out.old ++ dotted (numbers_of rest)) }
{
    let Some(token) = rest else {
        return Ok(());
    };
    let mut buffer = Buffer::new();
    out.push(b'.')?;
    out.extend(buffer.format(token.item()).as_bytes())?;
    put_within(out, token.rest())
}

/// Adds a place: its numbers joined by dots.
fn put_token(alloc: Global, out: &mut Text, token: &Token) -> Result<(), NoMemory>
    ensures { OnOk result (out.new ≡ out.old ++ token_text token.now) }
{
    // Each place has a number, and none comes before that of item 0.
    if let Ordering::Less = token.cmp(&Token::start(alloc, 0)) {
        return Ok(());
    }
    let mut buffer = Buffer::new();
    out.extend(buffer.format(token.item()).as_bytes())?;
    put_within(out, token.rest())
}

fn letters_of(starts: bool, ends: bool) -> &'static [u8]
    ensures { result.now ≡ ends_text starts ends }
{
    match (starts, ends) {
        (true, true) => b"se",
        (true, false) => b"s-",
        (false, true) => b"-e",
        (false, false) => b"--",
    }
}

/// Adds what a line is of.
fn put_kind(alloc: Global, out: &mut Text, kind: &TreeKind) -> Result<(), NoMemory>
    ensures { OnOk result (out.new ≡ out.old ++ spaced (kind_words (kind_of kind.now))) }
{
    match kind {
        TreeKind::Stack { stack } => put_named(out, b"stack", &[*stack as u64]),
        TreeKind::Row { row, from } => {
            put_named(out, b"row", &[*row as u64])?;
            out.push(b' ')?;
            put_token(alloc, out, from)
        }
        TreeKind::Col { index } => put_named(out, b"col", &[*index as u64]),
        TreeKind::Piece {
            owner,
            starts,
            ends,
        } => {
            put_named(out, b"box", &[*owner as u64])?;
            put_word(out, letters_of(*starts, *ends))
        }
        TreeKind::Line { owner, index } => {
            put_named(out, b"line", &[*owner as u64, *index as u64])
        }
        TreeKind::Void { owner } => put_named(out, b"void", &[*owner as u64]),
        TreeKind::Image { owner } => put_named(out, b"image", &[*owner as u64]),
        TreeKind::Atom { item } => put_named(out, b"atom", &[*item as u64]),
    }
}

fn put_rect(out: &mut Text, rect: Rect) -> Result<(), NoMemory>
    ensures { OnOk result (out.new ≡ out.old ++ spaced_numbers (rect.x ∷ rect.y ∷ rect.w ∷ rect.h ∷ [])) }
{
    put_numbers(out, &[rect.x, rect.y, rect.w, rect.h])
}

/// Adds a line: its depth, what it is of, and its rectangle, in decimal, with a space between words, and a line feed.
pub fn put_line(alloc: Global, out: &mut Text, line: &TreeLine) -> Result<(), NoMemory>
    ensures { OnOk result (out.new ≡ out.old ++ tree_line_text (line_of line.now)) }
{
    let mut buffer = Buffer::new();
    out.extend(buffer.format(line.depth).as_bytes())?;
    put_kind(alloc, out, &line.kind)?;
    put_rect(out, line.rect)?;
    out.push(b'\n')?;
    Ok(())
}

/// The text of these lines: of each its depth, what it is of, and its rectangle, in decimal, with a space between words and a
/// line feed at the end. The error is out of memory.
pub fn tree_text(alloc: Global, lines: &List<TreeLine>) -> Result<Text, NoMemory>
    ensures { IfOk result (λ text. text ≡ definition.tree_text (lines_of lines.now)) }
{
    let mut out = Text::new(alloc);
    for line in lines.as_slice() {
        put_line(alloc, &mut out, line)?;
    }
    Ok(out)
}
