//! Places in a flow.

ghost use Rattle.std.specs.Prelude.{◌≡◌, ◌≤◌, [], ◌∷◌, length};
ghost use Rattle.mc_base.specs.Places.{item_number, place_within, place_order};

use smallvec::SmallVec;
use std::alloc::Global;
use std::cmp::Ordering;
use std::marker::Model;

/// A place in a flow, where a column begins or ends (a break token of CSS Layout API 1): the number of an item, and where
/// that item is a row that is entered, the place within it.
///
/// Contracts see its one to three numbers. None of its calls takes memory.
#[derive(Drop)]
pub struct Token {
    numbers: SmallVec<u32, 4, Global>,
}

impl Model for Token {
    ghost use Rattle.std.specs.Prelude.{◌≡◌, ◌≤◌, ℕ, List, length};

    ghost Value = { List ℕ };

    ghost view = { λ t. t.numbers.items };

    ghost invariant = { λ t. (1 ≤ length t.numbers.items) × (length t.numbers.items ≤ 3) × (t.numbers.capacity ≡ 4) };
}

impl Token {
    /// The place of an item.
    pub fn start(alloc: Global, item: u32) -> Token
        ensures { result ≡ item ∷ [] }
    {
        let mut numbers = SmallVec::new(alloc);
        numbers.push_reserved(item);
        Token { numbers }
    }

    /// The place `rest` in an item that is a row.
    pub fn within(item: u32, rest: &Token) -> Token
        requires { length rest.now ≤ 2 }
        ensures { result ≡ item ∷ rest.now }
    {
        let mut numbers = SmallVec::new(*rest.numbers.allocator());
        numbers.push_reserved(item);
        for number in rest.numbers.as_slice() {
            numbers.push_reserved(*number);
        }
        Token { numbers }
    }

    /// The number of the item.
    pub fn item(&self) -> u32
        ensures { result ≡ item_number self.now }
    {
        self.numbers.as_slice()[0]
    }

    /// The place within the item, where it is entered.
    pub fn rest(&self) -> Option<Token>
        ensures { result ≡ place_within self.now }
    {
        let numbers = self.numbers.as_slice();
        if numbers.len() == 1 {
            return None;
        }
        let mut rest = SmallVec::new(*self.numbers.allocator());
        for number in &numbers[1..] {
            rest.push_reserved(*number);
        }
        Some(Token { numbers: rest })
    }

    /// The same place once more.
    pub fn copy(&self) -> Token
        ensures { result ≡ self.now }
    {
        let mut numbers = SmallVec::new(*self.numbers.allocator());
        for number in self.numbers.as_slice() {
            numbers.push_reserved(*number);
        }
        Token { numbers }
    }

    /// Which place is the earlier one: number by number, and an item before what stands within it.
    pub fn cmp(&self, other: &Token) -> Ordering
        ensures { result ≡ place_order self.now other.now }
    {
        self.numbers.as_slice().cmp(other.numbers.as_slice())
    }
}
