//! Tokens of a document.

ghost use Rattle.std.specs.Prelude.{◌≡◌, ℕ, List, [], Result, IfOk, OnOk, encode_utf8_all, option_map};
ghost use Rattle.html_grammar.specs.declared.token.Token.{Token as AToken};
ghost use Rattle.mc_base.specs.declared.read_error.Fault.{Fault as AFault};
ghost use Rattle.html_grammar.specs.declared.place.Place.{Place as APlace};
ghost use Rattle.html_grammar.specs.Lexing as lex;
ghost use Rattle.html_subset.specs.Gives.{Gives, Fails};

use crate::characters::{
    Class, begins, begins_folded, begins_text, begins_with, offset, past, push, skip, tag_name,
};
use crate::fault::ReadError;
use crate::names::{is_raw, same};
use crate::references::meaning;
use crate::tags::{attributes, end_tag, is_doubled};
use html_grammar::{Fault, Meaning, Piece, Place, ReadAttributes, Spelled, Tag, Token};
use mc_base::Text;
use std::alloc::{AllocError, Global};
use text_cursor::Cursor;

/// Goes on to where these characters come, or to the end.
fn find_text(cursor: &mut Cursor, wanted: &[u8])
    ensures { cursor.new ≡ lex.from_text wanted.now cursor.old }
{
    while let Some(_place) = cursor.peek() {
        if begins_text(cursor, wanted) {
            return;
        }
        cursor.bump();
    }
}

/// A comment after its `<!--`.
#[tactic(auto, unfolding(html_grammar::specs::Lexing::comment_at))]
fn comment_at<'a>(at: u64, rest: Cursor<'a>) -> Result<(Token, Cursor<'a>), ReadError>
    ensures { Gives (λ x. (x.0, x.1)) result (lex.comment_at at rest.entry) }
{
    let mut rest = rest;
    find_text(&mut rest, b"-->");
    if !begins(&rest, '-') {
        return Err(ReadError::Fault(Fault { at, rule: 2 }));
    }
    Ok((Token::Comment { at }, past(&rest, 3)))
}

/// A doctype after its `<!doctype`.
#[tactic(auto, unfolding(html_grammar::specs::Lexing::doctype_at))]
fn doctype_at<'a>(at: u64, rest: Cursor<'a>) -> Result<(Token, Cursor<'a>), ReadError>
    ensures { Gives (λ x. (x.0, x.1)) result (lex.doctype_at at rest.entry) }
{
    let mut rest = rest;
    skip(&mut rest, Class::Other('>'));
    if !begins(&rest, '>') {
        return Err(ReadError::Fault(Fault { at, rule: 3 }));
    }
    rest.bump();
    Ok((Token::Doctype { at }, rest))
}

/// A comment or a doctype after its `<`.
#[tactic(auto, unfolding(html_grammar::specs::Lexing::mark_at))]
fn mark_at<'a>(at: u64, rest: Cursor<'a>) -> Result<(Token, Cursor<'a>), ReadError>
    ensures { Gives (λ x. (x.0, x.1)) result (lex.mark_at at rest.entry) }
{
    if begins_text(&rest, b"!--") {
        return comment_at(at, past(&rest, 3));
    }
    if begins_folded(&rest, b"!doctype") {
        return doctype_at(at, past(&rest, 8));
    }
    Err(ReadError::Fault(Fault { at, rule: 3 }))
}

/// Whether the end tag of a raw text of this name comes next.
fn ends_raw(rest: &Cursor, name: &[u8]) -> bool
    ensures { result ≡ lex.ends_raw name.now rest.now }
{
    if !begins(rest, '<') {
        return false;
    }
    let mut ahead = rest.fork();
    ahead.bump();
    if !begins(&ahead, '/') {
        return false;
    }
    let ahead = past(rest, 2);
    begins_folded(&ahead, name) && begins_with(&past(&ahead, name.len()), Class::PastName)
}

/// Goes on to the end tag of a raw text of this name, or to the end, and gives the text.
fn raw_text(alloc: Global, cursor: &mut Cursor, name: &[u8]) -> Result<Text, AllocError>
    ensures text { IfOk result (λ t. t ≡ encode_utf8_all (lex.raw_codes name.now cursor.old)) }
    ensures rest { OnOk result (cursor.new ≡ lex.behind_raw name.now cursor.old) }
{
    let mut text = Text::new(alloc);
    while let Some(place) = cursor.peek() {
        if ends_raw(cursor, name) {
            return Ok(text);
        }
        push(&mut text, place.character)?;
        cursor.bump();
    }
    Ok(text)
}

/// A text at a byte, if there is any.
fn raw_piece(at: u64, text: Text) -> Option<Piece>
    ensures { (cs : List ℕ) → text ≡ encode_utf8_all cs → result ≡ lex.raw_piece at cs }
{
    if text.is_empty() {
        return None;
    }
    Some(Piece { at, text })
}

fn with_late(tag: Tag, fault: Fault) -> Tag
    ensures { result ≡ lex.with_late tag fault }
{
    let mut tag = tag;
    tag.late = Some(fault);
    tag
}

/// A tag with a fault that comes after the one that it has.
fn or_late(tag: Tag, fault: Fault) -> Tag
    ensures { result ≡ lex.or_late tag fault }
{
    let late = tag.late.unwrap_or(fault);
    with_late(tag, late)
}

/// A raw element whose end tag is off its form.
fn raw_off(tag: Tag, text: Option<Piece>, error: ReadError) -> Result<Token, ReadError>
    ensures { (end : Result (AToken × List APlace) AFault) → Fails error end
        → Gives (λ t. (t, [])) result (lex.raw_ended tag text end) }
{
    match error {
        ReadError::Memory => Err(ReadError::Memory),
        ReadError::Fault(fault) => Ok(Token::Raw {
            tag: or_late(tag, fault),
            text,
        }),
    }
}

/// A raw element with its end tag, which begins at a byte, after its `</`.
fn raw_ended<'a>(
    alloc: Global,
    tag: Tag,
    text: Option<Piece>,
    at: u64,
    rest: Cursor<'a>,
) -> Result<(Token, Cursor<'a>), ReadError>
    ensures { Gives (λ x. (x.0, x.1)) result (lex.raw_ended tag text (lex.end_at at rest.entry)) }
{
    match end_tag(alloc, at, rest) {
        Ok((_end, behind)) => Ok((Token::Raw { tag, text }, behind)),
        Err(error) => {
            let token = raw_off(tag, text, error)?;
            Ok((token, Cursor::nothing()))
        }
    }
}

/// The content and the end tag of a raw element after its start tag.
#[tactic(auto, unfolding(html_grammar::specs::Lexing::raw_at))]
fn raw_at<'a>(alloc: Global, tag: Tag, rest: Cursor<'a>) -> Result<(Token, Cursor<'a>), ReadError>
    ensures { Gives (λ x. (x.0, x.1)) result (lex.raw_at tag rest.entry) }
{
    let mut rest = rest;
    let at = offset(&rest);
    let text = raw_text(alloc, &mut rest, tag.name.as_slice())?;
    if !begins(&rest, '<') {
        let late = Fault {
            at: tag.at,
            rule: 9,
        };
        let tag = with_late(tag, late);
        return Ok((Token::Raw { tag, text: None }, Cursor::nothing()));
    }
    let text = raw_piece(at, text);
    let at = offset(&rest);
    raw_ended(alloc, tag, text, at, past(&rest, 2))
}

/// An element of raw text, or a start tag with the line feed after `<pre>`.
#[tactic(auto, unfolding(html_grammar::specs::Lexing::behind_tag))]
fn behind_tag<'a>(
    alloc: Global,
    tag: Tag,
    rest: Cursor<'a>,
) -> Result<(Token, Cursor<'a>), ReadError>
    ensures { Gives (λ x. (x.0, x.1)) result (lex.behind_tag tag rest.entry) }
{
    if is_raw(tag.name.as_slice()) {
        return raw_at(alloc, tag, rest);
    }
    if same(tag.name.as_slice(), b"pre") && begins(&rest, '\n') {
        let mut rest = rest;
        rest.bump();
        return Ok((Token::Start { tag }, rest));
    }
    Ok((Token::Start { tag }, rest))
}

/// The fault of a reference in a value.
fn bad_reference(bad: Option<u64>) -> Option<Fault>
    ensures { result ≡ option_map lex.bad_reference bad }
{
    match bad {
        Some(at) => Some(Fault { at, rule: 5 }),
        None => None,
    }
}

/// A start tag after its `<`.
#[tactic(auto, unfolding(html_grammar::specs::Lexing::start_at))]
fn start_at<'a>(
    alloc: Global,
    size: usize,
    at: u64,
    rest: Cursor<'a>,
) -> Result<(Token, Cursor<'a>), ReadError>
    ensures { Gives (λ x. (x.0, x.1)) result (lex.start_at size at rest.entry) }
{
    let mut rest = rest;
    let name = tag_name(alloc, &mut rest)?;
    let (read, behind) = attributes(alloc, size, at, rest)?;
    if is_doubled(alloc, read.all.as_slice())? {
        return Err(ReadError::Fault(Fault { at, rule: 4 }));
    }
    let ReadAttributes { all, unknown, bad } = read;
    let tag = Tag {
        at,
        name,
        attributes: all,
        unknown,
        late: bad_reference(bad),
    };
    behind_tag(alloc, tag, behind)
}

/// A character of text that an `&` begins.
fn char_by_meaning(at: u64, meaning: Meaning) -> Result<Token, ReadError>
    ensures { (rest : List APlace) → Gives (λ t. (t, rest)) result (lex.char_by_meaning at (meaning, rest)) }
{
    match meaning {
        Meaning::Plain => Ok(Token::Char {
            at,
            character: '&',
            spelled: Spelled::Plain,
        }),
        Meaning::Unknown => Ok(Token::Char {
            at,
            character: '&',
            spelled: Spelled::Unknown,
        }),
        Meaning::Bad => Err(ReadError::Fault(Fault { at, rule: 5 })),
        Meaning::Character { character } => Ok(Token::Char {
            at,
            character,
            spelled: Spelled::Reference,
        }),
    }
}

/// What a `<` begins.
#[tactic(auto, unfolding(html_grammar::specs::Lexing::token_at))]
fn markup<'a>(
    alloc: Global,
    size: usize,
    place: Place,
    rest: Cursor<'a>,
) -> Result<(Token, Cursor<'a>), ReadError>
    requires { place.character ≡ 60 }
    ensures { Gives (λ x. (x.0, x.1)) result (lex.token_at size place rest.entry) }
{
    let at = place.at;
    if begins_with(&rest, Class::Letter) {
        return start_at(alloc, size, at, rest);
    }
    if begins(&rest, '/') {
        let mut rest = rest;
        rest.bump();
        return end_tag(alloc, at, rest);
    }
    if begins(&rest, '!') {
        return mark_at(at, rest);
    }
    if begins(&rest, '?') {
        return Err(ReadError::Fault(Fault { at, rule: 3 }));
    }
    Ok((plain(place), rest))
}

/// A character that stands for itself.
fn plain(place: Place) -> Token
    ensures { result ≡ Token.Char place.at place.character Spelled.Plain }
{
    let at = place.at;
    let character = place.character;
    Token::Char {
        at,
        character,
        spelled: Spelled::Plain,
    }
}

/// The token that begins with this character, and what stands after it.
#[tactic(auto, unfolding(html_grammar::specs::Lexing::token_at))]
pub fn token_at<'a>(
    alloc: Global,
    size: usize,
    place: Place,
    rest: Cursor<'a>,
) -> Result<(Token, Cursor<'a>), ReadError>
    ensures { Gives (λ x. (x.0, x.1)) result (lex.token_at size place rest.entry) }
{
    if place.character == '<' {
        return markup(alloc, size, place, rest);
    }
    if place.character == '&' {
        let (meaning, behind) = meaning(alloc, rest)?;
        let token = char_by_meaning(place.at, meaning)?;
        return Ok((token, behind));
    }
    Ok((plain(place), rest))
}
