//! What wins for each property of an element.

ghost use Rattle.std.specs.Prelude.{◌≡◌, ◌++◌, ◌∷◌, [], OnOk, OnErr};
ghost use Rattle.std.specs.Option.{option_copied};
ghost use Rattle.css_computed.specs.Winners.{winner};

use css_values::{Property, Value, property_place};
use mc_base::{List, NoMemory};
use std::alloc::Global;
use std::marker::Model;

/// What wins for each property of an element: one value, or none, for each property in the order of the table.
///
/// A property whose winning declaration isn't laid out has `Value::Initial` here. Contracts see the list of the values.
#[derive(Drop)]
pub struct Winning<'a> {
    values: List<Option<&'a Value>>,
}

impl<'a> Model for Winning<'a> {
    ghost use Rattle.std.specs.Prelude.{List as Items, Option, map};
    ghost use Rattle.std.specs.Option.{option_copied};
    ghost use Rattle.css_values.specs.declared.declared.Value.{Value as PropertyValue};

    ghost Value = { Items (Option PropertyValue) };

    ghost view = { λ w. map option_copied w.values };
}

impl<'a> Winning<'a> {
    /// Nothing wins for any property. It takes no memory.
    pub fn new(alloc: Global) -> Self
        ensures { result ≡ [] }
    {
        Winning {
            values: List::new(alloc),
        }
    }

    /// Sets what wins for the next property of the table. When out of memory, nothing is changed.
    pub fn push(&mut self, value: Option<&'a Value>) -> Result<(), NoMemory>
        ensures ok { OnOk result (self.new ≡ self.old ++ option_copied value.entry ∷ []) }
        ensures err { OnErr result (self.new ≡ self.old) }
    {
        self.values.push(value)?;
        Ok(())
    }

    /// The winning value of a property, if it has one.
    pub fn get(&self, property: Property) -> Option<&'a Value>
        ensures { option_copied result ≡ winner self.now property }
    {
        match self.values.as_slice().get(property_place(property)) {
            Some(value) => *value,
            None => None,
        }
    }
}
