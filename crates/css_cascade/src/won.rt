//! What the winning declarations give.

ghost use Rattle.std.specs.Prelude.{◌≡◌, length, IfOk};
ghost use Rattle.std.specs.Option.{option_copied};
ghost use Rattle.css_values.specs.declared.declared.Value.TheVariants.{Initial};
ghost use Rattle.css_cascade.specs.Won as won;

use css_computed::Winning;
use css_values::Value;
use css_winner::{Given, Offer};
use mc_base::{ConstructName, NoMemory};
use std::alloc::Global;

/// The value that a declaration gives: `initial`, where it is refused.
fn given_value<'a>(given: &'a Given, initial: &'a Value) -> Option<&'a Value>
    requires { initial.now ≡ Initial }
    ensures { option_copied result ≡ won.given_value given.now }
{
    match given {
        Given::Value(value) => Some(value),
        Given::Harmless => None,
        Given::Refused(_) => Some(initial),
    }
}

fn value_of<'a>(offer: &Option<Offer<'a>>, initial: &'a Value) -> Option<&'a Value>
    requires { initial.now ≡ Initial }
    ensures { option_copied result ≡ won.value_of offer.now }
{
    match offer {
        Some(offer) => given_value(&offer.setting.given, initial),
        None => None,
    }
}

/// The value of each property that has one, by what wins.
pub fn values_of<'a>(
    alloc: Global,
    found: &[Option<Offer<'a>>],
    initial: &'a Value,
) -> Result<Winning<'a>, NoMemory>
    requires size { length found.now ≡ 60 }
    requires initial { initial.now ≡ Initial }
    ensures { IfOk result (λ winning. winning ≡ won.values_of found.now) }
{
    let mut winning = Winning::new(alloc);
    for place in 0..40usize {
        winning.push(value_of(&found[place], initial))?;
    }
    Ok(winning)
}

fn refusal_of(offer: &Option<Offer>) -> Option<ConstructName>
    ensures { result ≡ won.refusal_of offer.now }
{
    match offer {
        Some(offer) => match offer.setting.given {
            Given::Refused(name) => Some(name),
            _ => None,
        },
        None => None,
    }
}

/// The first winning declaration that is refused, in the order of the tables.
pub fn first_refusal(found: &[Option<Offer>]) -> Option<ConstructName>
    ensures { result ≡ won.first_refusal found.now }
{
    for offer in found {
        if let Some(name) = refusal_of(offer) {
            return Some(name);
        }
    }
    None
}
