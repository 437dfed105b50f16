//! Selectors filed under names.

ghost use Rattle.std.specs.Prelude.{◌≡◌, ◌<◌, ℕ, List, Some, None, IfOk, OnOk, Contains, length};
ghost use Rattle.css_winner.specs.Filing as filing;
ghost use Rattle.css_winner.specs.Filing.{IsFiled, IsSound};
ghost use Rattle.css_winner.specs.declared.filing.Place.{Place as APlace};

use indexmap::IndexMap;
use std::alloc::{AllocError, Global};

/// Where a selector stands: the numbers of its sheet, of its rule there, and its own number in the rule, from 0.
#[derive(Clone, Copy)]
pub struct Place {
    pub sheet: usize,
    pub rule: usize,
    pub selector: usize,
}

/// Selectors by the names that they are filed under: each name has a number, and each number a list.
#[derive(Drop)]
pub struct Filing {
    numbers: IndexMap<Vec<u8>, usize>,
    lists: Vec<Vec<Place>>,
}

fn copied(alloc: Global, name: &[u8]) -> Result<Vec<u8>, AllocError>
    ensures { IfOk result (λ copy. copy.items ≡ name.now) }
{
    name.to_vec(alloc)
}

impl Filing {
    /// Nothing is filed.
    pub fn new(alloc: Global) -> Filing
        ensures { IsSound result }
    {
        Filing {
            numbers: IndexMap::new(alloc),
            lists: Vec::new(alloc),
        }
    }

    fn number_of(&self, name: &[u8]) -> Option<usize>
        ensures { result ≡ filing.number_of self.now name.now }
    {
        self.numbers.get(name).copied()
    }

    /// Gives a number to a name that has none.
    fn add(&mut self, alloc: Global, name: &[u8]) -> Result<usize, AllocError>
        requires sound { IsSound self.old }
        requires absent { filing.number_of self.old name.now ≡ None }
        ensures sound { OnOk result (IsSound self.new) }
        ensures within { IfOk result (λ n. n < length self.new.lists.items) }
        ensures kept { OnOk result ((q : List ℕ) (p : APlace) → IsFiled self.old q p → IsFiled self.new q p) }
        ensures numbered { IfOk result (λ n. filing.number_of self.new name.now ≡ Some n) }
    {
        let key = copied(alloc, name)?;
        let number = self.lists.len();
        self.lists.push(Vec::new(alloc))?;
        self.numbers.insert(key, number)?;
        Ok(number)
    }

    /// The number of a name, which gets one if it has none.
    fn number(&mut self, alloc: Global, name: &[u8]) -> Result<usize, AllocError>
        requires { IsSound self.old }
        ensures sound { OnOk result (IsSound self.new) }
        ensures within { IfOk result (λ n. n < length self.new.lists.items) }
        ensures kept { OnOk result ((q : List ℕ) (p : APlace) → IsFiled self.old q p → IsFiled self.new q p) }
        ensures numbered { IfOk result (λ n. filing.number_of self.new name.now ≡ Some n) }
    {
        match self.number_of(name) {
            Some(number) => Ok(number),
            None => self.add(alloc, name),
        }
    }

    /// Files a selector under a name.
    pub fn file(&mut self, alloc: Global, name: &[u8], place: Place) -> Result<(), AllocError>
        requires { IsSound self.old }
        ensures sound { OnOk result (IsSound self.new) }
        ensures kept { OnOk result ((q : List ℕ) (p : APlace) → IsFiled self.old q p → IsFiled self.new q p) }
        ensures filed { OnOk result (IsFiled self.new name.now place) }
    {
        let number = self.number(alloc, name)?;
        self.lists[number].push(place)?;
        Ok(())
    }

    /// What is filed under a name.
    pub fn filed(&self, name: &[u8]) -> &[Place]
        ensures { (p : APlace) → IsFiled self.now name.now p → Contains result.now p }
    {
        let Some(number) = self.number_of(name) else {
            return &[];
        };
        match self.lists.get(number) {
            Some(list) => list.as_slice(),
            None => &[],
        }
    }
}
