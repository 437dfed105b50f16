use mc_base::{Decimal, Text};

/// A token of a declaration's value (CSS Syntax 3, section 4).
///
/// A `Hash` has its name without the `#`, and a `Quoted` what stands between its quotes, as written. A `Function` is a
/// name directly before a `(`, which is no token of its own. White space in a row is one `Space`. `whole` says that no
/// point stands in the number. Every other character is a `Delim`, the `)` of a function too.
#[derive(Drop)]
pub enum CssToken {
    Ident { text: Text },
    Hash { text: Text },
    Quoted { text: Text },
    Number { value: Decimal, whole: bool },
    Percent { value: Decimal },
    Dimension { value: Decimal, unit: Text },
    Function { name: Text },
    Delim { ch: char },
    Space,
}
