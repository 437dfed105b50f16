use mc_base::{List, Text};

/// A complex selector (Selectors 3, section 8): compound ones from the left, and what joins each to the next. There is
/// one join less than compounds.
#[derive(Drop)]
pub struct Selector {
    pub compounds: List<Compound>,
    pub joins: List<Join>,
}

/// What an element has to be to match: of this type, if one is given, and by every one of these tests.
///
/// `*` and a missing type are `None`.
#[derive(Drop)]
pub struct Compound {
    pub element: Option<Text>,
    pub tests: List<Test>,
}

/// How the element that a compound selector matches stands to the one that the next matches: the next is inside it
/// (`a b`), a child of it (`a > b`), the sibling right after it (`a + b`), or any sibling after it (`a ~ b`).
#[derive(Clone, Copy, Debug, PartialEq, Eq)]
pub enum Join {
    Descendant,
    Child,
    Next,
    Later,
}

/// A test of an element (Selectors 3, section 6).
///
/// `Nth` has the numbers a and b of `:nth-child(an+b)`. `Never` is a pseudo-class that never matches, as `:hover`.
/// `PseudoElement` matches nothing.
#[derive(Drop)]
pub enum Test {
    Id { text: Text },
    Class { text: Text },
    Attr { name: Text, op: AttrOp, value: Text },
    Root,
    FirstChild,
    LastChild,
    Link,
    Nth { step: i64, offset: i64 },
    Never,
    PseudoElement,
}

/// What is asked of an attribute (Selectors 3, section 6.3): that it is there, that it equals the value (`=`), that it has
/// the value as a word (`~=`), that it equals the value or begins with it and a `-` (`|=`), or that it begins with the
/// value (`^=`), ends with it (`$=`) or has it as a part (`*=`).
#[derive(Clone, Copy, Debug, PartialEq, Eq)]
pub enum AttrOp {
    Has,
    Equal,
    Word,
    Dash,
    Prefix,
    Suffix,
    Part,
}
