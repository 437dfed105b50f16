//! The media of a style element.

ghost use Rattle.std.specs.Prelude.{◌≡◌, ◌≤◌, ◌^◌, find, length, IfOk};
ghost use Rattle.std.specs.Option.{option_copied};
ghost use Rattle.std.specs.List.{AllByRecursion};
ghost use Rattle.html_subset.specs.WellFormed.{AttributeIsWithin};
ghost use Rattle.doc_sheets.specs.Parts as parts;

use css_syntax::parse_media;
use html_grammar::Attribute;
use mc_base::{ConstructName, Found, NoMemory};
use std::alloc::Global;

/// Whether a style element applies, and the construct that its media are where they aren't laid out.
#[derive(Clone, Copy)]
pub struct Media {
    pub applies: bool,
    pub construct: Option<Found>,
}

fn is_media(attribute: &Attribute) -> bool
    ensures { result ≡ parts.is_media attribute.now }
{
    attribute.name.as_slice() == b"media".as_slice()
}

fn media_attribute(attributes: &[Attribute]) -> Option<&Attribute>
    ensures { option_copied result ≡ find parts.is_media attributes.now }
{
    attributes.iter().find(|attribute| is_media(attribute))
}

/// The media of an attribute at this byte, by what its value lists.
fn listed(at: u64, applies: Option<bool>) -> Media
    ensures { result ≡ parts.listed at applies }
{
    match applies {
        Some(applies) => Media {
            applies,
            construct: None,
        },
        None => Media {
            applies: false,
            construct: Some(Found {
                offset: at,
                name: ConstructName::Media,
            }),
        },
    }
}

/// Whether a style element with these attributes applies (CSS 2.1, section 7.2.1): without `media` it does.
pub fn media_of(alloc: Global, attributes: &[Attribute]) -> Result<Media, NoMemory>
    requires { AllByRecursion (AttributeIsWithin (2 ^ 28)) attributes.now }
    ensures { IfOk result (λ media. media ≡ parts.media_of attributes.now) }
{
    match media_attribute(attributes) {
        Some(attribute) => {
            let applies = parse_media(alloc, attribute.value.as_slice())?;
            Ok(listed(attribute.offset, applies))
        }
        None => Ok(Media {
            applies: true,
            construct: None,
        }),
    }
}
