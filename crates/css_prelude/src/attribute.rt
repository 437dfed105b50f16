//! Tests of attributes.

ghost use Rattle.std.specs.Prelude.{◌≡◌, IfOk};
ghost use Rattle.std.specs.Option.{option_map};
ghost use Rattle.css_prelude.specs.Attributes as attributes;

use crate::words::{ident, word};
use css_data::{AttrOp, Test};
use css_tokens::{Rest, begins, delim_of, skip_spaces};
use mc_base::Text;
use std::alloc::{AllocError, Global};

/// What this character before a `=` asks.
fn op_char(ch: char) -> Option<AttrOp>
    ensures { result ≡ attributes.op_char ch }
{
    if ch == '~' {
        return Some(AttrOp::Word);
    }
    if ch == '|' {
        return Some(AttrOp::Dash);
    }
    if ch == '^' {
        return Some(AttrOp::Prefix);
    }
    if ch == '$' {
        return Some(AttrOp::Suffix);
    }
    if ch == '*' {
        return Some(AttrOp::Part);
    }
    None
}

fn first_op(rest: &Rest) -> Option<AttrOp>
    ensures { result ≡ attributes.first_op rest.now }
{
    let ch = delim_of(rest.peek()?)?;
    op_char(ch)
}

/// Goes past the sign between a name and a value.
fn op(rest: &mut Rest) -> Option<AttrOp>
    ensures { option_map (λ o. (o, rest.new)) result ≡ attributes.op_at rest.old }
{
    if begins(rest, '=') {
        rest.bump();
        return Some(AttrOp::Equal);
    }
    let op = first_op(rest)?;
    rest.bump();
    if !begins(rest, '=') {
        return None;
    }
    rest.bump();
    Some(op)
}

/// The value and the closing sign.
fn valued(
    alloc: Global,
    name: Text,
    op: AttrOp,
    rest: &mut Rest,
) -> Result<Option<Test>, AllocError>
    ensures { IfOk result (λ o. option_map (λ t. (t, rest.new)) o ≡ attributes.valued_at name op rest.old) }
{
    skip_spaces(rest);
    let Some(value) = word(alloc, rest)? else {
        return Ok(None);
    };
    skip_spaces(rest);
    if !begins(rest, ']') {
        return Ok(None);
    }
    rest.bump();
    Ok(Some(Test::Attr { name, op, value }))
}

/// What follows the name and white space.
fn named(alloc: Global, name: Text, rest: &mut Rest) -> Result<Option<Test>, AllocError>
    ensures { IfOk result (λ o. option_map (λ t. (t, rest.new)) o ≡ attributes.named_at name rest.old) }
{
    if begins(rest, ']') {
        rest.bump();
        return Ok(Some(Test::Attr {
            name,
            op: AttrOp::Has,
            value: Text::new(alloc),
        }));
    }
    let Some(op) = op(rest) else {
        return Ok(None);
    };
    valued(alloc, name, op, rest)
}

/// A test of an attribute after its `[` (Selectors 3, section 6.3).
pub fn attribute(alloc: Global, rest: &mut Rest) -> Result<Option<Test>, AllocError>
    ensures { IfOk result (λ o. option_map (λ t. (t, rest.new)) o ≡ attributes.attribute_at rest.old) }
{
    skip_spaces(rest);
    let Some(name) = ident(alloc, rest)? else {
        return Ok(None);
    };
    skip_spaces(rest);
    named(alloc, name, rest)
}
