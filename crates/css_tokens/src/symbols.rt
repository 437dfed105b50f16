//! The lexeme in front.

ghost use Rattle.std.specs.Prelude.{◌≡◌, ◌++◌, OnOk, IfOk, false};
ghost use Rattle.html_grammar.specs.Places as places;
ghost use Rattle.css_tokens.specs.Lexing as lex;

use crate::characters::{
    Class, after_first, begins, begins_with, character, find_end, offset, push, skip, take,
};
use crate::lexeme::{Lexeme, Symbol};
use mc_base::Text;
use std::alloc::{AllocError, Global};
use text_cursor::Cursor;

/// Whether an identifier comes next.
fn begins_ident(cursor: &Cursor) -> bool
    ensures { result ≡ lex.begins_ident cursor.now }
{
    begins_with(cursor, Class::Start)
        && (!begins(cursor, '-') || begins_with(&after_first(cursor), Class::Start))
}

/// Whether a point and a digit come next.
fn begins_point(cursor: &Cursor) -> bool
    ensures { result ≡ lex.begins_point cursor.now }
{
    begins(cursor, '.') && begins_with(&after_first(cursor), Class::Digit)
}

/// Whether a number without a sign comes next.
fn begins_digits(cursor: &Cursor) -> bool
    ensures { result ≡ lex.begins_digits cursor.now }
{
    begins_with(cursor, Class::Digit) || begins_point(cursor)
}

/// Whether a number comes next.
fn begins_number(cursor: &Cursor) -> bool
    ensures { result ≡ lex.begins_number cursor.now }
{
    if begins_with(cursor, Class::Sign) {
        return begins_digits(&after_first(cursor));
    }
    begins_digits(cursor)
}

/// Goes past a sign, if one comes next, and adds it to a text.
fn sign(text: &mut Text, cursor: &mut Cursor) -> Result<(), AllocError>
    ensures text { OnOk result (text.new ≡ text.old ++ lex.sign_text cursor.old) }
    ensures rest { OnOk result (cursor.new ≡ lex.behind_sign cursor.old) }
{
    if begins_with(cursor, Class::Sign) {
        push(text, character(cursor))?;
        cursor.bump();
    }
    Ok(())
}

/// Goes past a point with digits, if they come next, and adds them to a text.
fn fraction(text: &mut Text, cursor: &mut Cursor) -> Result<(), AllocError>
    ensures text { OnOk result (text.new ≡ text.old ++ lex.fraction_text cursor.old) }
    ensures rest { OnOk result (cursor.new ≡ lex.behind_fraction cursor.old) }
{
    if begins_point(cursor) {
        push(text, '.')?;
        cursor.bump();
        take(text, cursor, Class::Digit)?;
    }
    Ok(())
}

/// Goes past a number, and gives it as written.
fn number(alloc: Global, cursor: &mut Cursor) -> Result<Text, AllocError>
    ensures text { IfOk result (λ t. t ≡ lex.number_text cursor.old) }
    ensures rest { OnOk result (cursor.new ≡ lex.behind_number cursor.old) }
{
    let mut text = Text::new(alloc);
    sign(&mut text, cursor)?;
    take(&mut text, cursor, Class::Digit)?;
    fraction(&mut text, cursor)?;
    Ok(text)
}

/// Goes past a name, and gives it.
fn name(alloc: Global, cursor: &mut Cursor) -> Result<Text, AllocError>
    ensures text { IfOk result (λ t. t ≡ lex.name_text cursor.old) }
    ensures rest { OnOk result (cursor.new ≡ lex.behind_name cursor.old) }
{
    let mut text = Text::new(alloc);
    take(&mut text, cursor, Class::Name)?;
    Ok(text)
}

/// An identifier, or a function.
#[tactic(auto, unfolding(crate::specs::Lexing::ident_at))]
fn ident(alloc: Global, cursor: &mut Cursor) -> Result<Symbol, AllocError>
    ensures { IfOk result (λ s. (s, cursor.new) ≡ lex.ident_at cursor.old) }
{
    let text = name(alloc, cursor)?;
    if begins(cursor, '(') {
        let paren = offset(cursor);
        cursor.bump();
        return Ok(Symbol::Function { name: text, paren });
    }
    Ok(Symbol::Ident { text })
}

/// A number with what belongs to it.
#[tactic(auto, unfolding(crate::specs::Lexing::numeric_at))]
fn numeric(alloc: Global, cursor: &mut Cursor) -> Result<Symbol, AllocError>
    ensures { IfOk result (λ s. (s, cursor.new) ≡ lex.numeric_at cursor.old) }
{
    let digits = number(alloc, cursor)?;
    if begins(cursor, '%') {
        cursor.bump();
        return Ok(Symbol::Percent { digits });
    }
    if begins_ident(cursor) {
        let unit = name(alloc, cursor)?;
        return Ok(Symbol::Dimension { digits, unit });
    }
    Ok(Symbol::Number { digits })
}

/// What a `#` begins, after it.
#[tactic(auto, unfolding(crate::specs::Lexing::hash_at))]
fn hash(alloc: Global, cursor: &mut Cursor) -> Result<Symbol, AllocError>
    ensures { IfOk result (λ s. (s, cursor.new) ≡ lex.hash_at cursor.old) }
{
    if begins_with(cursor, Class::Name) {
        let text = name(alloc, cursor)?;
        return Ok(Symbol::Hash { text });
    }
    Ok(Symbol::Delim { ch: '#' })
}

/// Goes on to the closing quote, to a line feed or to the end, and gives what stands before it.
fn quoted_text(alloc: Global, quote: char, cursor: &mut Cursor) -> Result<Text, AllocError>
    ensures text { IfOk result (λ t. t ≡ lex.quoted_text quote false cursor.old) }
    ensures rest { OnOk result (cursor.new ≡ lex.behind_quoted quote false cursor.old) }
{
    let mut text = Text::new(alloc);
    let mut escaped = false;
    while let Some(place) = cursor.peek() {
        let character = place.character;
        if !escaped && (character == quote || character == '\n') {
            return Ok(text);
        }
        push(&mut text, character)?;
        cursor.bump();
        escaped = !escaped && character == '\\';
    }
    Ok(text)
}

/// A string, after its opening quote.
#[tactic(auto, unfolding(crate::specs::Lexing::string_at))]
fn string(alloc: Global, quote: char, cursor: &mut Cursor) -> Result<Symbol, AllocError>
    ensures { IfOk result (λ s. (s, cursor.new) ≡ lex.string_at quote cursor.old) }
{
    let text = quoted_text(alloc, quote, cursor)?;
    let closed = begins(cursor, quote);
    cursor.bump();
    if closed {
        return Ok(Symbol::Quoted { text });
    }
    Ok(Symbol::Broken { rule: 3 })
}

/// What isn't a name or a number.
#[tactic(auto, unfolding(crate::specs::Lexing::other_at))]
fn other(alloc: Global, cursor: &mut Cursor) -> Result<Symbol, AllocError>
    ensures { IfOk result (λ s. (s, cursor.new) ≡ lex.other_at cursor.old) }
{
    let ch = character(cursor);
    cursor.bump();
    if ch == '#' {
        return hash(alloc, cursor);
    }
    if ch == '"' || ch == '\'' {
        return string(alloc, ch, cursor);
    }
    Ok(Symbol::Delim { ch })
}

/// What comes next, where it is no comment.
#[tactic(auto, unfolding(crate::specs::Lexing::symbol_at))]
fn symbol(alloc: Global, cursor: &mut Cursor) -> Result<Symbol, AllocError>
    ensures { IfOk result (λ s. (s, cursor.new) ≡ lex.symbol_at cursor.old) }
{
    if begins_with(cursor, Class::Space) {
        skip(cursor, Class::Space);
        return Ok(Symbol::Space);
    }
    if begins_ident(cursor) {
        return ident(alloc, cursor);
    }
    if begins_number(cursor) {
        return numeric(alloc, cursor);
    }
    other(alloc, cursor)
}

/// A comment after its `/*`, which begins at a byte.
#[tactic(auto, unfolding(crate::specs::Lexing::comment_at))]
fn comment(at: u64, cursor: &mut Cursor) -> Option<Lexeme>
    ensures { (result, cursor.new) ≡ lex.comment_at at cursor.old }
{
    find_end(cursor);
    if begins(cursor, '*') {
        cursor.bump();
        cursor.bump();
        return None;
    }
    Some(Lexeme {
        at,
        symbol: Symbol::Broken { rule: 2 },
    })
}

/// The lexeme in front, or none for a comment.
#[tactic(auto, unfolding(crate::specs::Lexing::piece_at))]
pub fn piece(alloc: Global, cursor: &mut Cursor) -> Result<Option<Lexeme>, AllocError>
    ensures { IfOk result (λ x. (x, cursor.new) ≡ lex.piece_at cursor.old) }
{
    let at = offset(cursor);
    if begins(cursor, '/') && begins(&after_first(cursor), '*') {
        cursor.bump();
        cursor.bump();
        return Ok(comment(at, cursor));
    }
    let symbol = symbol(alloc, cursor)?;
    Ok(Some(Lexeme { at, symbol }))
}
