//! Computed lengths above the limit of lengths.

ghost use Rattle.std.specs.Prelude.{◌≡◌, ◌^◌};
ghost use Rattle.box_data.specs.Limits.{first_above};
ghost use Rattle.box_style.specs.Lengths.{computed_lengths, lengths_at, lengths_in, shown_lengths};

use css_cascade::{NodeStyle, Styles};
use css_computed::{Computed, Style};
use css_values::all_properties;
use html_grammar::NodeId;
use mc_base::Units;

/// The length that a value is, if it is above the limit.
fn long_in(value: &Computed) -> Option<Units>
    ensures { result ≡ first_above (2 ^ 24) (lengths_in value.now) }
{
    let Computed::Length { units } = value else {
        return None;
    };
    if 16_777_216 < *units {
        Some(*units)
    } else {
        None
    }
}

/// The first length of an element above the limit, in the order of the table of properties.
fn long_of(style: &Style) -> Option<Units>
    ensures { result ≡ first_above (2 ^ 24) (computed_lengths style.now) }
{
    let properties = all_properties();
    for property in properties {
        if let Some(units) = long_in(style.get(*property)) {
            return Some(units);
        }
    }
    None
}

fn long_at(entries: &[Option<NodeStyle>], node: NodeId) -> Option<Units>
    ensures { result ≡ first_above (2 ^ 24) (lengths_at entries.now node) }
{
    match entries.get(node as usize) {
        Some(Some(entry)) => long_of(&entry.style),
        _ => None,
    }
}

/// The first computed length above 2^24 units of the shown elements, given in document order; those of an element come in the
/// order of the table of properties. It takes no memory.
pub fn first_long(styles: &Styles, shown: &[NodeId]) -> Option<Units>
    ensures { result ≡ first_above (2 ^ 24) (shown_lengths styles.now shown.now) }
{
    let entries = styles.entries();
    for node in shown {
        if let Some(units) = long_at(entries, *node) {
            return Some(units);
        }
    }
    None
}
