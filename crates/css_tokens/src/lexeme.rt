use mc_base::Text;

/// A fault: the byte where it stands, and the number of its rule, as 4 of `s4`.
#[derive(Clone, Copy, Debug, PartialEq, Eq)]
pub struct Fault {
    pub at: u64,
    pub rule: u8,
}

/// What a sheet is written in, and the byte at which it begins. A comment is none.
#[derive(Drop)]
pub struct Lexeme {
    pub at: u64,
    pub symbol: Symbol,
}

/// A token as it is written (CSS Syntax 3, section 4).
///
/// A `Hash` has its name without the `#`, and a `Quoted` what stands between its quotes. Of a number `digits` is all of
/// it as written, its sign and point included. A `Function` is a name with the `(` directly after it, which stands at
/// `paren`. White space in a row is one `Space`. `Broken` is a string (3) or a comment (2) that isn't closed.
#[derive(Drop)]
pub enum Symbol {
    Ident { text: Text },
    Hash { text: Text },
    Quoted { text: Text },
    Number { digits: Text },
    Percent { digits: Text },
    Dimension { digits: Text, unit: Text },
    Function { name: Text, paren: u64 },
    Delim { ch: char },
    Space,
    Broken { rule: u8 },
}
