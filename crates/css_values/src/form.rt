//! What a value of one token may be.

use crate::keyword::{Keyword, Unit};
use mc_base::Decimal;

/// One of the forms that a property's value may have.
#[derive(Clone, Copy)]
pub enum Form {
    /// This keyword.
    Is(Keyword),
    /// The first keyword, which is taken as the second.
    As(Keyword, Keyword),
    /// This keyword, which is taken as a length, in thousandths of a unit.
    AsLength(Keyword, u32, Unit),
    /// This keyword, which is taken as a number, in thousandths.
    AsNumber(Keyword, u32),
    /// A length of 0 or more.
    Length,
    /// A percentage of 0 or more.
    Percent,
    /// A percentage of 0 or more, which is taken as a keyword.
    PercentAs(Keyword),
    /// A number of 0 or more.
    Number,
    /// A whole number from 1.
    Whole,
    /// A number from 1 to 1000.
    Weight,
    /// Any length.
    SignedLength,
    /// Any percentage.
    SignedPercent,
    /// The number 0.
    Zero,
}

/// A value that is no list of names.
#[derive(Clone, Copy)]
pub enum Simple {
    Word(Keyword),
    Length(Decimal, Unit),
    Percent(Decimal),
    Number(Decimal),
    Inherit,
    Initial,
    Unset,
}
