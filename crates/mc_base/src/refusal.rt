//! Why an input is refused. The texts of these errors are never printed: each program prints its own line.

use std::alloc::{AllocError, AllocFailed};
use thiserror::Error;

/// Out of memory.
#[derive(Clone, Copy, Debug, PartialEq, Eq, Error)]
#[error("memory")]
pub struct NoMemory;

impl From<AllocError> for NoMemory {
    fn from(_error: AllocError) -> NoMemory {
        NoMemory
    }
}

impl<T: Drop> From<AllocFailed<T>> for NoMemory {
    fn from(_error: AllocFailed<T>) -> NoMemory {
        NoMemory
    }
}

/// A text that a program reads.
#[derive(Clone, Copy, Debug, PartialEq, Eq)]
pub enum Input {
    Document,
    Sheet,
    Metrics,
    Flow,
    Result,
    Script,
}

/// A rule of a grammar, printed as its letter and number: `h7` is letter `h` and number 7.
#[derive(Clone, Copy, Debug, PartialEq, Eq)]
pub struct Rule {
    pub letter: u8,
    pub number: u8,
}

/// What this profile of HTML and CSS names, and doesn't lay out.
#[derive(Clone, Copy, Debug, PartialEq, Eq)]
pub enum ConstructName {
    Reference,
    Element,
    Escape,
    Media,
    AtRule,
    PseudoClass,
    PseudoElement,
    Display,
    WhiteSpace,
    Function,
    Unit,
    Revert,
    NegativeMargin,
    BlockInInline,
    Height,
    ImgSize,
    Float,
    Position,
    Top,
    Right,
    Bottom,
    Left,
    Overflow,
    OverflowX,
    OverflowY,
    WritingMode,
    Direction,
    VerticalAlign,
    TextIndent,
    TextTransform,
    LetterSpacing,
    WordSpacing,
    MinWidth,
    MinHeight,
    MaxHeight,
    Font,
    Unbuilt,
}

/// A construct, and the byte of its input where it stands.
#[derive(Clone, Copy, Debug, PartialEq, Eq)]
pub struct Found {
    pub offset: u64,
    pub name: ConstructName,
}

/// A quantity that has a limit.
#[derive(Clone, Copy, Debug, PartialEq, Eq)]
pub enum LimitName {
    Document,
    Flow,
    Sheet,
    Metrics,
    Script,
    Result,
    Elements,
    Depth,
    Rules,
    Items,
    InnerItems,
    Columns,
    Nest,
    Length,
    Paragraphs,
}

/// Why an input is refused.
#[derive(Clone, Copy, Debug, PartialEq, Eq, Error)]
pub enum Refusal {
    /// The input is off its grammar: the first fault, by the byte where it stands and its rule.
    #[error("grammar")]
    Grammar {
        input: Input,
        offset: u64,
        rule: Rule,
    },
    /// The input has a construct that isn't laid out.
    #[error("construct")]
    Construct {
        input: Input,
        offset: u64,
        name: ConstructName,
    },
    /// A quantity is above its limit.
    #[error("limit")]
    Limit {
        name: LimitName,
        reached: u64,
        limit: u64,
    },
    /// Out of memory.
    #[error("memory")]
    NoMemory,
}

impl From<NoMemory> for Refusal {
    ghost use Rattle.std.specs.Prelude.{◌≡◌};
    ghost use Rattle.mc_base.specs.declared.refusal.Refusal.TheVariants.{NoMemory as Memory};

    ghost from_gives = { λ _ refusal. refusal ≡ Memory };

    fn from(_error: NoMemory) -> Refusal {
        Refusal::NoMemory
    }
}

impl From<AllocError> for Refusal {
    ghost use Rattle.std.specs.Prelude.{◌≡◌};
    ghost use Rattle.mc_base.specs.declared.refusal.Refusal.TheVariants.{NoMemory as Memory};

    ghost from_gives = { λ _ refusal. refusal ≡ Memory };

    fn from(_error: AllocError) -> Refusal {
        Refusal::NoMemory
    }
}

impl<T: Drop> From<AllocFailed<T>> for Refusal {
    ghost use Rattle.std.specs.Prelude.{◌≡◌};
    ghost use Rattle.mc_base.specs.declared.refusal.Refusal.TheVariants.{NoMemory as Memory};

    ghost from_gives = { λ _ refusal. refusal ≡ Memory };

    fn from(_error: AllocFailed<T>) -> Refusal {
        Refusal::NoMemory
    }
}
