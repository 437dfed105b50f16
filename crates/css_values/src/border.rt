//! Borders: a width, a style and a colour in any order.

ghost use Rattle.std.specs.Prelude.{◌≡◌, ◌<◌, IfOk};
ghost use Rattle.std.specs.Option.{option_map};
ghost use Rattle.css_values.specs.Shorthands as shorthands;
ghost use Rattle.css_values.specs.Values.{significant};

use crate::accept::{is_space, one_of, wide};
use crate::form::Simple;
use crate::table::{border_style, border_width};
use crate::text::is_same;
use css_data::CssToken;
use std::alloc::{AllocError, Global};

/// The parts of a border that are given.
#[derive(Clone, Copy)]
pub struct Line {
    pub width: Option<Simple>,
    pub style: Option<Simple>,
    pub colour: bool,
}

#[tactic(auto, unfolding(crate::specs::Shorthands::is_colour_function))]
pub fn is_colour_function(name: &[u8]) -> bool
    ensures { result ≡ shorthands.is_colour_function name.now }
{
    is_same(name, b"rgb")
        || is_same(name, b"rgba")
        || is_same(name, b"hsl")
        || is_same(name, b"hsla")
}

fn is_colour(token: &CssToken) -> bool
    ensures { result ≡ shorthands.is_colour token.now }
{
    match token {
        CssToken::Ident { .. } => wide(token).is_none(),
        CssToken::Hash { .. } => true,
        CssToken::Function { name } => is_colour_function(name.as_slice()),
        _ => false,
    }
}

/// A border with one part more, unless it is of no kind or one of its kind is there.
#[tactic(auto, unfolding(crate::specs::Shorthands::with_part))]
fn with_part(line: Line, token: &CssToken) -> Option<Line>
    ensures { result ≡ shorthands.with_part line token.now }
{
    if let Some(width) = one_of(border_width(), token) {
        if line.width.is_some() {
            return None;
        }
        return Some(Line {
            width: Some(width),
            ..line
        });
    }
    if let Some(style) = one_of(border_style(), token) {
        if line.style.is_some() {
            return None;
        }
        return Some(Line {
            style: Some(style),
            ..line
        });
    }
    if line.colour || !is_colour(token) {
        return None;
    }
    Some(Line {
        colour: true,
        ..line
    })
}

/// How many brackets are open after a token.
fn open_after(depth: usize, token: &CssToken) -> usize
    requires { depth < usize.MAX }
    ensures { result ≡ shorthands.open_after depth token.now }
{
    match token {
        CssToken::Function { .. } => depth + 1,
        CssToken::Delim { ch } if *ch == '(' => depth + 1,
        CssToken::Delim { ch } if *ch == ')' => depth.saturating_sub(1),
        _ => depth,
    }
}

fn given_line(value: &[CssToken]) -> Option<Line>
    ensures { result ≡ shorthands.line_from shorthands.no_line 0 (significant value.now) }
{
    let mut line = Line {
        width: None,
        style: None,
        colour: false,
    };
    let mut depth = 0;
    for token in value {
        if !is_space(token) {
            if depth == 0 {
                line = with_part(line, token)?;
            }
            depth = open_after(depth, token);
        }
    }
    if depth == 0 { Some(line) } else { None }
}

/// The widths and then the styles of all four sides, or of one.
fn spread(alloc: Global, all: bool, width: Simple, style: Simple) -> Result<Vec<Simple>, AllocError>
    ensures { IfOk result (λ v. v.items ≡ shorthands.spread all width style) }
{
    if all {
        let eight = [width, width, width, width, style, style, style, style];
        Ok(Vec::from_array(alloc, eight)?)
    } else {
        Ok(Vec::from_array(alloc, [width, style])?)
    }
}

/// The widths and then the styles that a border gives to all four sides, or to one.
#[tactic(auto, unfolding(crate::specs::Shorthands::border))]
pub fn border(
    alloc: Global,
    all: bool,
    value: &[CssToken],
) -> Result<Option<Vec<Simple>>, AllocError>
    ensures { IfOk result (λ found. option_map (λ v. v.items) found ≡ shorthands.border all (significant value.now)) }
{
    let Some(line) = given_line(value) else {
        return Ok(None);
    };
    if line.width.is_none() && line.style.is_none() && !line.colour {
        return Ok(None);
    }
    let width = line.width.unwrap_or(Simple::Initial);
    let style = line.style.unwrap_or(Simple::Initial);
    Ok(Some(spread(alloc, all, width, style)?))
}
