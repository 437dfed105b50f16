use crate::selector::Selector;
use crate::token::CssToken;
use mc_base::{Found, List, Text};

/// A style sheet: its rules in order, those of at-rules that don't apply left out, and the first construct in it that
/// isn't laid out.
#[derive(Drop)]
pub struct Sheet {
    pub rules: List<StyleRule>,
    pub construct: Option<Found>,
}

/// A rule: the selectors of its prelude, and the declarations of its block.
#[derive(Drop)]
pub struct StyleRule {
    pub selectors: List<Selector>,
    pub declarations: List<RawDeclaration>,
}

/// A declaration as it is written: the property's name, the tokens of its value, whether it ends with `!important`, and
/// the byte at which its name begins.
///
/// A value has no `Space` at its front or end.
#[derive(Drop)]
pub struct RawDeclaration {
    pub name: Text,
    pub value: List<CssToken>,
    pub important: bool,
    pub offset: u64,
}
