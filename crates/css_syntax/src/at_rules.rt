//! At-rules (CSS Syntax 3, section 5.4.2).

ghost use Rattle.std.specs.Prelude.{◌≡◌};
ghost use Rattle.std.specs.Option.{option_copied};
ghost use Rattle.css_syntax.specs.AtRules as rules;

use css_tokens::{Lexeme, ident_of, is_delim, is_in, is_word};

/// What is done with an at-rule: it is skipped, it is `@media`, or it isn't laid out.
#[derive(Clone, Copy)]
pub enum AtRule {
    Skipped,
    Media,
    Other,
}

/// What stands after the first `-`.
fn after_dash(name: &[u8]) -> Option<&[u8]>
    ensures { option_copied result ≡ rules.after_dash name.now }
{
    for (i, byte) in name.iter().enumerate() {
        if *byte == b'-' {
            return Some(name.split_at(i).1.split_at(1).1);
        }
    }
    None
}

/// What stands after a prefix, of which this is what stands after its first `-`.
fn after_prefix(name: &[u8]) -> Option<&[u8]>
    ensures { option_copied result ≡ rules.after_prefix name.now }
{
    let (first, rest) = name.split_first()?;
    if *first == b'-' {
        return None;
    }
    after_dash(rest)
}

/// A name without a prefix as `-webkit-`.
fn unprefixed(name: &[u8]) -> &[u8]
    ensures { result.now ≡ rules.unprefixed name.now }
{
    let Some((first, rest)) = name.split_first() else {
        return name;
    };
    if *first != b'-' {
        return name;
    }
    match after_prefix(rest) {
        Some(behind) => behind,
        None => name,
    }
}

#[tactic(auto, unfolding(crate::specs::AtRules::is_skipped))]
fn is_skipped(name: &[u8]) -> bool
    ensures { result ≡ rules.is_skipped name.now }
{
    is_in(
        unprefixed(name),
        &[b"charset", b"font-face", b"page", b"keyframes"],
    )
}

/// What is done with an at-rule of this name.
fn kind_of(name: &[u8]) -> AtRule
    ensures { result ≡ rules.kind_of name.now }
{
    if is_word(name, b"media") {
        return AtRule::Media;
    }
    if is_skipped(name) {
        return AtRule::Skipped;
    }
    AtRule::Other
}

/// The identifier in front. A name directly before `(` is a function, and no identifier.
fn first_name(lexemes: &[Lexeme]) -> Option<&[u8]>
    ensures { option_copied result ≡ rules.first_name lexemes.now }
{
    let (first, _) = lexemes.split_first()?;
    ident_of(first)
}

/// The at-rule that a lexeme begins, by what stands after it.
pub fn at_rule_of(lexeme: &Lexeme, behind: &[Lexeme]) -> Option<AtRule>
    ensures { result ≡ rules.at_rule_of lexeme.now behind.now }
{
    if !is_delim(lexeme, '@') {
        return None;
    }
    let name = first_name(behind)?;
    Some(kind_of(name))
}
