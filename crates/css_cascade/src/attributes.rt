//! The style attributes of a document.

ghost use Rattle.std.specs.Prelude.{◌≡◌, ◌⊎◌, map, IfOk, IfErr};
ghost use Rattle.mc_base.specs.declared.refusal.Refusal.TheVariants as refusals;
ghost use Rattle.html_subset.specs.WellFormed.{IsWellFormed};
ghost use Rattle.css_winner.specs.Own as own;
ghost use Rattle.css_cascade.specs.Attributes as attributes;
ghost use Rattle.css_cascade.specs.Attributes.{IsFirstFault};

use css_winner::{Setting, own_settings};
use html_grammar::Dom;
use mc_base::{List, Refusal};
use std::alloc::Global;

/// What the style attribute of each node sets.
pub fn all_own(alloc: Global, dom: &Dom) -> Result<List<List<Setting>>, Refusal>
    requires { IsWellFormed dom.now }
    ensures read { IfOk result (λ found. map attributes.read_as found ≡ map own.own_settings dom.now.nodes) }
    ensures refused { IfErr result (λ refusal. (refusal ≡ refusals.NoMemory) ⊎ IsFirstFault dom.now.nodes refusal) }
{
    let mut found = List::new(alloc);
    let nodes = dom.nodes.as_slice();
    for node in nodes {
        match own_settings(alloc, node) {
            Ok(settings) => found.push(settings)?,
            Err(refusal) => return Err(refusal),
        }
    }
    Ok(found)
}
