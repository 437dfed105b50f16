//! A row, a place in it and a height, as a key by which a fill is found.

ghost use Rattle.std.specs.Prelude.{◌≡◌, ◌++◌, ◌==◌, nat_eq};
ghost use Rattle.std.proofs.Common.{rules};
ghost use Rattle.std.specs.Hash as fed;
ghost use Rattle.std.specs.Hash.{and-Alike, on_Alike, same_Alike};
ghost use Rattle.std.specs.Cmp.{unsigned_Decides};
ghost use Rattle.std.specs.Cmp.Lexicographic.{pointwise, bytes_decides};
ghost use Rattle.std.specs.Cmp.Rules.{comparing};
ghost use Rattle.std.specs.Ordering.{eq_of_both, on};
ghost use Rattle.flow_list.specs.Keys.{inner_item, innermost_item, token_fed};

use mc_base::{Token, Units};
use std::hash::{Hash, Hasher};

/// A row, a place in it, and a height in units.
#[derive(Drop)]
pub struct FillKey {
    pub row: u32,
    pub height: Units,
    pub from: Token,
}

impl PartialEq for FillKey {
    ghost eq = { eq_of_both (eq_of_both (on (λ p. p.row) ◌==◌) (on (λ p. p.height) ◌==◌)) (on (λ p. p.from) (pointwise nat_eq)) };

    ghost laws = { Prim.search (comparing, rules) };

    fn eq(&self, other: &FillKey) -> bool {
        self.row == other.row && self.height == other.height && same_place(&self.from, &other.from)
    }
}

impl Eq for FillKey {
    ghost laws = { Prim.search (comparing, rules) };
}

impl Hash for FillKey {
    ghost hash_input = { λ p. fed.u32 p.row ++ fed.u64 p.height ++ token_fed p.from };

    ghost respects_eq = { (and-Alike (and-Alike (on_Alike (λ p. p.row) (same_Alike fed.u32 unsigned_Decides))
        (on_Alike (λ p. p.height) (same_Alike fed.u64 unsigned_Decides))) (on_Alike (λ p. p.from)
        (same_Alike token_fed bytes_decides))).fed };

    fn hash<H: Hasher>(&self, state: &mut H) {
        let (inner, innermost) = items_within(&self.from);
        self.row.hash(state);
        self.height.hash(state);
        self.from.item().hash(state);
        inner.hash(state);
        innermost.hash(state);
    }
}

fn same_place(one: &Token, other: &Token) -> bool
    ensures { result ≡ pointwise nat_eq one.now other.now }
{
    one.cmp(other).is_eq()
}

/// The item within the item of a place and the one within that, 0 where it has none.
fn items_within(from: &Token) -> (u32, u32)
    ensures inner { result.0 ≡ inner_item from.now }
    ensures innermost { result.1 ≡ innermost_item from.now }
{
    let Some(inner) = from.rest() else {
        return (0, 0);
    };
    let Some(innermost) = inner.rest() else {
        return (inner.item(), 0);
    };
    (inner.item(), innermost.item())
}
