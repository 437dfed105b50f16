//! Why a command stops, and the line that tells it.

ghost use Rattle.std.specs.Prelude.{◌≡◌, map};
ghost use Rattle.std.specs.List.{concat};
ghost use Rattle.mc_run.specs.Stops as stops;
ghost use Rattle.mc_run.specs.Stops.{line_of, refusal_line};
ghost use Rattle.mc_run.specs.Told.{Tells};

use itoa::Buffer;
use mc_base::{ConstructName, Input, LimitName, Refusal, Rule, Sink};

/// Why a command stops.
#[derive(Clone, Copy)]
pub enum Stop {
    /// The words aren't taken.
    Usage,
    /// An input wasn't read.
    Read { input: Input },
    /// The result wasn't written.
    Write,
    /// An input was refused, or there was no memory.
    Refused { refusal: Refusal },
}

/// The exit status of a command that stopped: 1 where the words aren't taken, 2 after a read fault, 3 after a write fault, 4
/// where an input is off its grammar, 5 where it has a construct that isn't laid out, 6 where a limit is passed, 7 when out of
/// memory.
pub fn status(stop: Stop) -> u8
    ensures { result ≡ stops.status_of stop }
{
    match stop {
        Stop::Usage => 1,
        Stop::Read { .. } => 2,
        Stop::Write => 3,
        Stop::Refused { refusal } => match refusal {
            Refusal::Grammar { .. } => 4,
            Refusal::Construct { .. } => 5,
            Refusal::Limit { .. } => 6,
            Refusal::NoMemory => 7,
        },
    }
}

#[tactic(auto, unfolding(crate::specs::Stops::input_text))]
fn input_text(input: Input) -> &'static [u8]
    ensures { result.now ≡ stops.input_text input }
{
    match input {
        Input::Document => b"document",
        Input::Sheet => b"sheet",
        Input::Metrics => b"metrics",
        Input::Flow => b"flow",
        Input::Result => b"result",
        Input::Script => b"script",
    }
}

#[tactic(auto, unfolding(crate::specs::Stops::construct_text))]
fn construct_text(name: ConstructName) -> &'static [u8]
    ensures { result.now ≡ stops.construct_text name }
{
    match name {
        ConstructName::Reference => b"reference",
        ConstructName::Element => b"element",
        ConstructName::Escape => b"escape",
        ConstructName::Media => b"media",
        ConstructName::AtRule => b"at-rule",
        ConstructName::PseudoClass => b"pseudo-class",
        ConstructName::PseudoElement => b"pseudo-element",
        ConstructName::Display => b"display",
        ConstructName::WhiteSpace => b"white-space",
        ConstructName::Function => b"function",
        ConstructName::Unit => b"unit",
        ConstructName::Revert => b"revert",
        ConstructName::NegativeMargin => b"negative-margin",
        ConstructName::BlockInInline => b"block-in-inline",
        ConstructName::Height => b"height",
        ConstructName::ImgSize => b"img-size",
        ConstructName::Float => b"float",
        ConstructName::Position => b"position",
        ConstructName::Top => b"top",
        ConstructName::Right => b"right",
        ConstructName::Bottom => b"bottom",
        ConstructName::Left => b"left",
        ConstructName::Overflow => b"overflow",
        ConstructName::OverflowX => b"overflow-x",
        ConstructName::OverflowY => b"overflow-y",
        ConstructName::WritingMode => b"writing-mode",
        ConstructName::Direction => b"direction",
        ConstructName::VerticalAlign => b"vertical-align",
        ConstructName::TextIndent => b"text-indent",
        ConstructName::TextTransform => b"text-transform",
        ConstructName::LetterSpacing => b"letter-spacing",
        ConstructName::WordSpacing => b"word-spacing",
        ConstructName::MinWidth => b"min-width",
        ConstructName::MinHeight => b"min-height",
        ConstructName::MaxHeight => b"max-height",
        ConstructName::Font => b"font",
        ConstructName::Unbuilt => b"unbuilt",
    }
}

#[tactic(auto, unfolding(crate::specs::Stops::limit_text))]
fn limit_text(name: LimitName) -> &'static [u8]
    ensures { result.now ≡ stops.limit_text name }
{
    match name {
        LimitName::Document => b"document",
        LimitName::Flow => b"flow",
        LimitName::Sheet => b"sheet",
        LimitName::Metrics => b"metrics",
        LimitName::Script => b"script",
        LimitName::Result => b"result",
        LimitName::Elements => b"elements",
        LimitName::Depth => b"depth",
        LimitName::Rules => b"rules",
        LimitName::Items => b"items",
        LimitName::InnerItems => b"inner-items",
        LimitName::Columns => b"columns",
        LimitName::Nest => b"nest",
        LimitName::Length => b"length",
        LimitName::Paragraphs => b"paragraphs",
    }
}

/// The commands with their words.
#[tactic(auto, unfolding(crate::specs::Stops::usage_text))]
fn usage_text() -> &'static [u8]
    ensures { result.now ≡ stops.usage_text }
{
    b"usage: mcol layout DOC SHEET METRICS WIDTH HEIGHT, check DOC SHEET METRICS WIDTH HEIGHT RESULT, \
rows FLOW, rows-check FLOW RESULT, gen START COUNT, trial START COUNT, all DOC SHEET METRICS WIDTH HEIGHT, \
hit DOC SHEET METRICS WIDTH HEIGHT X Y or draw DOC SHEET METRICS WIDTH HEIGHT RULE"
}

/// Puts the pieces of a line in turn, up to the first that fails.
fn say<E: Sink>(err: &mut E, pieces: &[&[u8]])
    ensures { Tells (E.written err.old) (E.written err.new) (E.faults err.old) (E.faults err.new)
        (concat (map (λ piece. piece.now) pieces.now)) }
{
    for piece in pieces {
        if err.put(piece).is_err() {
            return;
        }
    }
}

/// Puts the line of a fault of grammar.
fn tell_fault<E: Sink>(err: &mut E, input: Input, offset: u64, rule: Rule)
    ensures { Tells (E.written err.old) (E.written err.new) (E.faults err.old) (E.faults err.new)
        (refusal_line (Refusal.Grammar input offset rule)) }
{
    let mut place = Buffer::new();
    let mut number = Buffer::new();
    say(
        err,
        &[
            b"grammar: ",
            input_text(input),
            b" ",
            place.format(offset).as_bytes(),
            b" ",
            &[rule.letter],
            number.format(rule.number).as_bytes(),
            b"\n",
        ],
    )
}

/// Puts the line of a construct that isn't laid out.
fn tell_construct<E: Sink>(err: &mut E, input: Input, offset: u64, name: ConstructName)
    ensures { Tells (E.written err.old) (E.written err.new) (E.faults err.old) (E.faults err.new)
        (refusal_line (Refusal.Construct input offset name)) }
{
    let mut place = Buffer::new();
    say(
        err,
        &[
            b"construct: ",
            input_text(input),
            b" ",
            place.format(offset).as_bytes(),
            b" ",
            construct_text(name),
            b"\n",
        ],
    )
}

/// Puts the line of a limit that is passed.
fn tell_limit<E: Sink>(err: &mut E, name: LimitName, reached: u64, limit: u64)
    ensures { Tells (E.written err.old) (E.written err.new) (E.faults err.old) (E.faults err.new)
        (refusal_line (Refusal.Limit name reached limit)) }
{
    let mut there = Buffer::new();
    let mut greatest = Buffer::new();
    say(
        err,
        &[
            b"limit: ",
            limit_text(name),
            b" ",
            there.format(reached).as_bytes(),
            b" ",
            greatest.format(limit).as_bytes(),
            b"\n",
        ],
    )
}

/// Puts the line of a refusal.
fn tell_refusal<E: Sink>(err: &mut E, refusal: Refusal)
    ensures { Tells (E.written err.old) (E.written err.new) (E.faults err.old) (E.faults err.new) (refusal_line refusal) }
{
    match refusal {
        Refusal::Grammar {
            input,
            offset,
            rule,
        } => tell_fault(err, input, offset, rule),
        Refusal::Construct {
            input,
            offset,
            name,
        } => tell_construct(err, input, offset, name),
        Refusal::Limit {
            name,
            reached,
            limit,
        } => tell_limit(err, name, reached, limit),
        Refusal::NoMemory => say(err, &[b"memory", b"\n"]),
    }
}

/// Puts the line that tells why a command stopped. Where that fails, a first part of it was put.
#[tactic(auto, unfolding(crate::specs::Stops::line_of))]
pub fn tell<E: Sink>(err: &mut E, stop: Stop)
    ensures { Tells (E.written err.old) (E.written err.new) (E.faults err.old) (E.faults err.new) (line_of stop) }
{
    match stop {
        Stop::Usage => say(err, &[usage_text(), b"\n"]),
        Stop::Read { input } => say(err, &[b"read: ", input_text(input), b"\n"]),
        Stop::Write => say(err, &[b"write", b"\n"]),
        Stop::Refused { refusal } => tell_refusal(err, refusal),
    }
}
