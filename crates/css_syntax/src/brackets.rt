//! Brackets and preludes that are open, and the first fault.

ghost use Rattle.std.specs.Prelude.{◌≡◌, IfOk};
ghost use Rattle.css_syntax.specs.Brackets as brackets;

use crate::at_rules::{AtRule, at_rule_of};
use css_tokens::{Fault, Lexeme, broken_of, closer_of, is_closer, is_delim, is_space, sign_of};
use std::alloc::{AllocError, Global};
use std::marker::Model;

/// What is open: the prelude of a style rule; that of an at-rule, which of `@media`; a bracket, with the sign that closes
/// it; or the block of `@media`.
#[derive(Clone, Copy)]
pub enum Frame {
    Style,
    AtRule { media: bool },
    Bracket { closer: char },
    Media,
}

/// Something that is open, and the byte at which it begins.
#[derive(Clone, Copy)]
pub struct Open {
    pub at: u64,
    pub frame: Frame,
}

/// What is open, which contracts see as a list, the innermost last.
#[derive(Drop)]
pub struct Opens {
    items: Vec<Open>,
}

impl Model for Opens {
    ghost use Rattle.std.specs.Prelude.{List};
    ghost use Rattle.css_syntax.specs.declared.brackets.Open.{Open};

    ghost Value = { List Open };

    ghost view = { λ o. o.items.items };
}

impl Opens {
    ghost use Rattle.std.specs.Prelude.{◌≡◌, [], ◌∷◌, ◌++◌, OnOk};
    ghost use Rattle.css_syntax.specs.Opens as opens;

    fn new(alloc: Global) -> Self
        ensures { result ≡ [] }
    {
        Opens {
            items: Vec::new(alloc),
        }
    }

    fn push(&mut self, next: Open) -> Result<(), AllocError>
        ensures { OnOk result (self.new ≡ self.old ++ next ∷ []) }
    {
        self.items.push(next)?;
        Ok(())
    }

    /// The innermost.
    fn innermost(&self) -> Option<Open>
        ensures { result ≡ opens.innermost self.now }
    {
        self.items.as_slice().last().copied()
    }

    /// The one around the innermost.
    fn outer(&self) -> Option<Open>
        ensures { result ≡ opens.innermost (opens.popped self.now) }
    {
        let items = self.items.as_slice();
        let outer = items.split_at(items.len().saturating_sub(1)).0;
        outer.last().copied()
    }

    /// Closes the innermost.
    fn pop(&mut self)
        ensures { self.new ≡ opens.popped self.old }
    {
        let len = self.items.len().saturating_sub(1);
        self.items.truncate(len);
    }

    fn as_slice(&self) -> &[Open]
        ensures { result.now ≡ self.now }
    {
        self.items.as_slice()
    }
}

/// What is open, and the first fault so far.
#[derive(Drop)]
pub struct Brackets {
    pub opens: Opens,
    pub fault: Option<Fault>,
}

/// The first of two faults: by byte, then by rule.
fn first_fault(first: Option<Fault>, then: Fault) -> Option<Fault>
    ensures { result ≡ brackets.first_fault first then }
{
    let Some(fault) = first else {
        return Some(then);
    };
    if fault.at < then.at || (fault.at == then.at && fault.rule < then.rule) {
        return Some(fault);
    }
    Some(then)
}

fn with_fault(state: Brackets, at: u64, rule: u8) -> Brackets
    ensures { result ≡ brackets.with_fault state at rule }
{
    let Brackets { opens, fault } = state;
    Brackets {
        opens,
        fault: first_fault(fault, Fault { at, rule }),
    }
}

fn opened(state: Brackets, at: u64, frame: Frame) -> Result<Brackets, AllocError>
    ensures { IfOk result (λ s. s ≡ brackets.opened state at frame) }
{
    let Brackets { opens, fault } = state;
    let mut opens = opens;
    opens.push(Open { at, frame })?;
    Ok(Brackets { opens, fault })
}

fn closed(state: Brackets) -> Brackets
    ensures { result ≡ brackets.closed state }
{
    let Brackets { opens, fault } = state;
    let mut opens = opens;
    opens.pop();
    Brackets { opens, fault }
}

/// Whether this character closes what is open.
fn closes(inner: Option<Open>, lexeme: &Lexeme) -> bool
    ensures { result ≡ brackets.closes inner lexeme.now }
{
    let Some(open) = inner else {
        return false;
    };
    match open.frame {
        Frame::Style => false,
        Frame::AtRule { media: _ } => false,
        Frame::Bracket { closer } => is_delim(lexeme, closer),
        Frame::Media => false,
    }
}

/// A lexeme inside brackets.
#[tactic(auto, unfolding(crate::specs::Brackets::bracket_step))]
fn bracket_step(state: Brackets, lexeme: &Lexeme) -> Result<Brackets, AllocError>
    ensures { IfOk result (λ s. s ≡ brackets.bracket_step state lexeme.now) }
{
    if let Some(rule) = broken_of(lexeme) {
        return Ok(with_fault(state, lexeme.at, rule));
    }
    if let Some(closer) = closer_of(lexeme) {
        return opened(state, sign_of(lexeme), Frame::Bracket { closer });
    }
    if is_closer(lexeme) {
        if closes(state.opens.innermost(), lexeme) {
            return Ok(closed(state));
        }
        return Ok(with_fault(state, lexeme.at, 4));
    }
    Ok(state)
}

fn is_media(inner: Option<Open>) -> bool
    ensures { result ≡ brackets.is_media inner }
{
    let Some(open) = inner else {
        return false;
    };
    match open.frame {
        Frame::Style => false,
        Frame::AtRule { media: _ } => false,
        Frame::Bracket { closer: _ } => false,
        Frame::Media => true,
    }
}

/// The block that a prelude has.
fn block_of(frame: Frame) -> Frame
    ensures { result ≡ brackets.block_of frame }
{
    match frame {
        Frame::Style => Frame::Bracket { closer: '}' },
        Frame::AtRule { media } => {
            if media {
                Frame::Media
            } else {
                Frame::Bracket { closer: '}' }
            }
        }
        Frame::Bracket { closer: _ } => Frame::Bracket { closer: '}' },
        Frame::Media => Frame::Bracket { closer: '}' },
    }
}

fn is_at_rule(frame: Frame) -> bool
    ensures { result ≡ brackets.is_at_rule frame }
{
    match frame {
        Frame::Style => false,
        Frame::AtRule { media: _ } => true,
        Frame::Bracket { closer: _ } => false,
        Frame::Media => false,
    }
}

/// A lexeme of a prelude.
#[tactic(auto, unfolding(crate::specs::Brackets::prelude_step))]
fn prelude_step(state: Brackets, prelude: Open, lexeme: &Lexeme) -> Result<Brackets, AllocError>
    ensures { IfOk result (λ s. s ≡ brackets.prelude_step state prelude lexeme.now) }
{
    if is_delim(lexeme, '{') {
        return opened(closed(state), lexeme.at, block_of(prelude.frame));
    }
    if is_delim(lexeme, ';') && is_at_rule(prelude.frame) {
        return Ok(closed(state));
    }
    if is_delim(lexeme, '}') && is_media(state.opens.outer()) {
        return Ok(closed(closed(with_fault(state, prelude.at, 5))));
    }
    bracket_step(state, lexeme)
}

/// The prelude of which a lexeme is the first.
fn prelude_frame(kind: Option<AtRule>) -> Frame
    ensures { result ≡ brackets.prelude_frame kind }
{
    match kind {
        None => Frame::Style,
        Some(AtRule::Skipped) => Frame::AtRule { media: false },
        Some(AtRule::Media) => Frame::AtRule { media: true },
        Some(AtRule::Other) => Frame::AtRule { media: false },
    }
}

/// Whether a lexeme is a comment that isn't closed.
fn is_open_comment(lexeme: &Lexeme) -> bool
    ensures { result ≡ brackets.is_open_comment lexeme.now }
{
    match broken_of(lexeme) {
        Some(rule) => rule == 2,
        None => false,
    }
}

/// A lexeme between rules, and what stands after it.
#[tactic(auto, unfolding(crate::specs::Brackets::sheet_step))]
fn sheet_step(state: Brackets, lexeme: &Lexeme, behind: &[Lexeme]) -> Result<Brackets, AllocError>
    ensures { IfOk result (λ s. s ≡ brackets.sheet_step state lexeme.now behind.now) }
{
    if is_space(lexeme) {
        return Ok(state);
    }
    if is_open_comment(lexeme) {
        return Ok(with_fault(state, lexeme.at, 2));
    }
    if is_delim(lexeme, '}') && is_media(state.opens.innermost()) {
        return Ok(closed(state));
    }
    let frame = prelude_frame(at_rule_of(lexeme, behind));
    let at = lexeme.at;
    let state = opened(state, at, frame)?;
    prelude_step(state, Open { at, frame }, lexeme)
}

/// A lexeme of a sheet, and what stands after it.
#[tactic(auto, unfolding(crate::specs::Brackets::step))]
fn step(state: Brackets, lexeme: &Lexeme, behind: &[Lexeme]) -> Result<Brackets, AllocError>
    ensures { IfOk result (λ s. s ≡ brackets.step state lexeme.now behind.now) }
{
    let Some(open) = state.opens.innermost() else {
        return sheet_step(state, lexeme, behind);
    };
    match open.frame {
        Frame::Style => prelude_step(state, open, lexeme),
        Frame::AtRule { media: _ } => prelude_step(state, open, lexeme),
        Frame::Bracket { closer: _ } => bracket_step(state, lexeme),
        Frame::Media => sheet_step(state, lexeme, behind),
    }
}

fn rule_of(frame: Frame) -> u8
    ensures { result ≡ brackets.rule_of frame }
{
    match frame {
        Frame::Style => 5,
        Frame::AtRule { media: _ } => 5,
        Frame::Bracket { closer: _ } => 4,
        Frame::Media => 4,
    }
}

/// The first of a fault and of those of what isn't closed.
fn left_open(fault: Option<Fault>, opens: &[Open]) -> Option<Fault>
    ensures { result ≡ brackets.left_open fault opens.now }
{
    let mut first = fault;
    for open in opens {
        first = first_fault(
            first,
            Fault {
                at: open.at,
                rule: rule_of(open.frame),
            },
        );
    }
    first
}

/// The first fault at the end, where what is open isn't closed.
fn at_end(state: Brackets) -> Option<Fault>
    ensures { result ≡ brackets.at_end state }
{
    left_open(state.fault, state.opens.as_slice())
}

fn nothing_open(alloc: Global) -> Brackets
    ensures { result ≡ brackets.nothing_open }
{
    Brackets {
        opens: Opens::new(alloc),
        fault: None,
    }
}

/// The first fault of a sheet.
pub fn sheet_fault(alloc: Global, lexemes: &[Lexeme]) -> Result<Option<Fault>, AllocError>
    ensures { IfOk result (λ f. f ≡ brackets.sheet_fault lexemes.now) }
{
    let mut state = nothing_open(alloc);
    for (i, lexeme) in lexemes.iter().enumerate() {
        state = step(state, lexeme, &lexemes[i + 1..])?;
    }
    Ok(at_end(state))
}

/// The first fault of a style attribute.
pub fn block_fault(alloc: Global, lexemes: &[Lexeme]) -> Result<Option<Fault>, AllocError>
    ensures { IfOk result (λ f. f ≡ brackets.block_fault lexemes.now) }
{
    let mut state = nothing_open(alloc);
    for lexeme in lexemes {
        state = bracket_step(state, lexeme)?;
    }
    Ok(at_end(state))
}
