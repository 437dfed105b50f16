//! What decides between declarations.

ghost use Rattle.std.specs.Prelude.{◌≡◌};
ghost use Rattle.css_winner.specs.Precedences as precedences;

use css_select::Weight;

/// Whose a declaration is, and whether it is important: a later one comes above an earlier one.
#[derive(Clone, Copy)]
pub enum Origin {
    BuiltIn,
    Author,
    Important,
}

/// Where a declaration stands: whose it is, whether it is in a style attribute, the specificity of its selector, and its place,
/// by sheet, rule and properties set before it in the block.
#[derive(Clone, Copy)]
pub struct Precedence {
    pub origin: Origin,
    pub inline: bool,
    pub weight: Weight,
    pub sheet: usize,
    pub rule: usize,
    pub place: usize,
}

fn origin_number(origin: Origin) -> u64
    ensures { result ≡ precedences.origin_number origin }
{
    match origin {
        Origin::BuiltIn => 0,
        Origin::Author => 1,
        Origin::Important => 2,
    }
}

fn flag(set: bool) -> u64
    ensures { result ≡ precedences.flag set }
{
    if set { 1 } else { 0 }
}

/// The numbers that decide, the first first.
fn numbers(p: &Precedence) -> [u64; 8]
    ensures { result ≡ precedences.numbers p.now }
{
    [
        origin_number(p.origin),
        flag(p.inline),
        u64::from(p.weight.ids),
        u64::from(p.weight.classes),
        u64::from(p.weight.types),
        p.sheet as u64,
        p.rule as u64,
        p.place as u64,
    ]
}

/// Whether the first comes above the second.
#[tactic(auto, unfolding(crate::specs::Precedences::is_above))]
pub fn is_above(p: &Precedence, q: &Precedence) -> bool
    ensures { result ≡ precedences.is_above p.now q.now }
{
    numbers(p).as_slice().cmp(numbers(q).as_slice()).is_gt()
}
