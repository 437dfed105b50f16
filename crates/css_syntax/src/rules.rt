//! The rules of a sheet whose brackets are closed (CSS Syntax 3, section 5.4).

ghost use Rattle.std.specs.Prelude.{◌≡◌, ◌+◌, ◌^◌, ◌<◌, ◌≤◌, length, IfOk};
ghost use Rattle.css_syntax.specs.Rules as sheets;

use crate::at_rules::{AtRule, at_rule_of};
use crate::blocks::declarations;
use css_data::StyleRule;
use css_prelude::{Selectors, media_list, or_found, selector_list};
use css_tokens::{
    Lexeme, Rest, Stop, after_first, begins, front_len, ident_of, is_delim, is_space,
};
use mc_base::{ConstructName, Found, List};
use std::alloc::{AllocError, Global};

/// The rules so far, how many there were with those that were dropped, how many blocks of `@media` are open from the
/// outermost on that doesn't apply, and the first construct that isn't laid out.
#[derive(Drop)]
pub struct Rules {
    pub rules: List<StyleRule>,
    pub count: usize,
    pub off: usize,
    pub found: Option<Found>,
}

fn no_rules(alloc: Global) -> Rules
    ensures { result ≡ sheets.no_rules }
{
    Rules {
        rules: List::new(alloc),
        count: 0,
        off: 0,
        found: None,
    }
}

/// With a construct that isn't laid out.
fn with_found(state: Rules, at: u64, name: ConstructName) -> Rules
    ensures told { result ≡ sheets.with_found state at name }
    ensures few { (result.count ≤ state.count + 1) × (result.off ≤ state.off + 1) }
{
    let Rules {
        rules,
        count,
        off,
        found,
    } = state;
    Rules {
        rules,
        count,
        off,
        found: or_found(found, Some(Found { offset: at, name })),
    }
}

/// In a block of `@media`, which applies or not.
fn block_begun(state: Rules, applies: bool) -> Rules
    requires { state.off < 2 ^ 63 }
    ensures told { result ≡ sheets.block_begun state applies }
    ensures few { (result.count ≤ state.count + 1) × (result.off ≤ state.off + 1) }
{
    let Rules {
        rules,
        count,
        off,
        found,
    } = state;
    if off == 0 && applies {
        return Rules {
            rules,
            count,
            off,
            found,
        };
    }
    Rules {
        rules,
        count,
        off: off + 1,
        found,
    }
}

/// After a block of `@media`.
fn block_ended(state: Rules) -> Rules
    ensures told { result ≡ sheets.block_ended state }
    ensures few { (result.count ≤ state.count + 1) × (result.off ≤ state.off + 1) }
{
    let Rules {
        rules,
        count,
        off,
        found,
    } = state;
    Rules {
        rules,
        count,
        off: off.saturating_sub(1),
        found,
    }
}

/// Goes past a block and its closing sign.
fn skip_block(rest: &mut Rest)
    ensures { rest.new ≡ sheets.behind_block rest.old }
{
    let _block = rest.take(front_len(Stop::At('}'), rest.as_slice()));
    rest.bump();
}

/// Goes past the block or the semicolon of an at-rule.
fn skip_at_rule(rest: &mut Rest)
    ensures { rest.new ≡ sheets.behind_at_rule rest.old }
{
    let block = begins(rest, '{');
    rest.bump();
    if block {
        skip_block(rest);
    }
}

/// Whether the media of a prelude apply, after `@`.
fn media_in(prelude: &[Lexeme]) -> Option<bool>
    ensures { result ≡ sheets.media_in prelude.now }
{
    let (name, list) = prelude.split_first()?;
    let _name = ident_of(name)?;
    media_list(list)
}

/// An `@media` with what its prelude says, at its block or its semicolon.
fn with_media(state: Rules, at: u64, applies: Option<bool>, block: bool) -> Rules
    requires { state.off < 2 ^ 63 }
    ensures told { result ≡ sheets.with_media state at applies block }
    ensures few { (result.count ≤ state.count + 1) × (result.off ≤ state.off + 1) }
{
    match applies {
        Some(applies) => {
            if block {
                return block_begun(state, applies);
            }
            state
        }
        None => {
            let state = with_found(state, at, ConstructName::Media);
            if block {
                return block_begun(state, false);
            }
            state
        }
    }
}

/// An at-rule after its `@`, which stands at a byte.
#[tactic(auto, unfolding(crate::specs::Rules::at_rule_at))]
fn at_rule(state: Rules, at: u64, kind: AtRule, rest: &mut Rest) -> Rules
    requires { state.off < 2 ^ 63 }
    ensures told { (result, rest.new) ≡ sheets.at_rule_at state at kind rest.old }
    ensures few { (result.count ≤ state.count + 1) × (result.off ≤ state.off + 1) }
{
    let prelude = rest.take(front_len(Stop::Prelude, rest.as_slice()));
    match kind {
        AtRule::Media => {
            let block = begins(rest, '{');
            rest.bump();
            with_media(state, at, media_in(prelude), block)
        }
        AtRule::Skipped => {
            skip_at_rule(rest);
            state
        }
        AtRule::Other => {
            skip_at_rule(rest);
            with_found(state, at, ConstructName::AtRule)
        }
    }
}

/// With a rule of these selectors, or with a dropped one, and its block.
fn with_rule(
    alloc: Global,
    state: Rules,
    read: Option<Selectors>,
    block: &[Lexeme],
) -> Result<Rules, AllocError>
    requires { state.count < 2 ^ 63 }
    ensures told { IfOk result (λ r. r ≡ sheets.with_rule state read block.now) }
    ensures few { IfOk result (λ r. (r.count ≤ state.count + 1) × (r.off ≤ state.off + 1)) }
{
    let Rules {
        rules,
        count,
        off,
        found,
    } = state;
    let count = count + 1;
    let Some(read) = read else {
        return Ok(Rules {
            rules,
            count,
            off,
            found,
        });
    };
    let Selectors {
        selectors,
        found: then,
    } = read;
    let found = or_found(found, then);
    if off != 0 {
        return Ok(Rules {
            rules,
            count,
            off,
            found,
        });
    }
    let declarations = declarations(alloc, block)?;
    let mut rules = rules;
    rules.push(StyleRule {
        selectors,
        declarations,
    })?;
    Ok(Rules {
        rules,
        count,
        off,
        found,
    })
}

/// A style rule.
#[tactic(auto, unfolding(crate::specs::Rules::style_at))]
fn style_rule(alloc: Global, state: Rules, rest: &mut Rest) -> Result<Rules, AllocError>
    requires { state.count < 2 ^ 63 }
    ensures told { IfOk result (λ r. (r, rest.new) ≡ sheets.style_at state rest.old) }
    ensures few { IfOk result (λ r. (r.count ≤ state.count + 1) × (r.off ≤ state.off + 1)) }
{
    let prelude = rest.take(front_len(Stop::At('{'), rest.as_slice()));
    rest.bump();
    let block = rest.take(front_len(Stop::At('}'), rest.as_slice()));
    rest.bump();
    let read = selector_list(alloc, prelude)?;
    with_rule(alloc, state, read, block)
}

/// White space, the end of a block of `@media`, or a rule.
#[tactic(auto, unfolding(crate::specs::Rules::turn))]
fn turn(alloc: Global, state: Rules, rest: &mut Rest) -> Result<Rules, AllocError>
    requires off { state.off < 2 ^ 63 }
    requires count { state.count < 2 ^ 63 }
    ensures told { IfOk result (λ r. (r, rest.new) ≡ sheets.turn state rest.old) }
    ensures few { IfOk result (λ r. (r.count ≤ state.count + 1) × (r.off ≤ state.off + 1)) }
{
    let Some(lexeme) = rest.peek() else {
        return Ok(state);
    };
    if is_space(lexeme) {
        rest.bump();
        return Ok(state);
    }
    if is_delim(lexeme, '}') {
        rest.bump();
        return Ok(block_ended(state));
    }
    let behind = after_first(rest);
    match at_rule_of(lexeme, behind.as_slice()) {
        Some(kind) => {
            rest.bump();
            Ok(at_rule(state, lexeme.at, kind, rest))
        }
        None => style_rule(alloc, state, rest),
    }
}

/// The rules of a sheet.
pub fn sheet_rules(alloc: Global, lexemes: &[Lexeme]) -> Result<Rules, AllocError>
    requires { length lexemes.now < 2 ^ 60 }
    ensures { IfOk result (λ r. r ≡ sheets.rules_of lexemes.now) }
{
    let mut rest = Rest::new(lexemes);
    let mut state = no_rules(alloc);
    for _ in 0..lexemes.len() {
        state = turn(alloc, state, &mut rest)?;
    }
    Ok(state)
}

/// The first backslash.
pub fn first_escape(lexemes: &[Lexeme]) -> Option<Found>
    ensures { result ≡ sheets.first_escape lexemes.now }
{
    for lexeme in lexemes {
        if is_delim(lexeme, '\\') {
            return Some(Found {
                offset: lexeme.at,
                name: ConstructName::Escape,
            });
        }
    }
    None
}
