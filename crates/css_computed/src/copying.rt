//! Copies of texts and values.

ghost use Rattle.std.specs.Prelude.{◌≡◌, IfOk};

use crate::style::Computed;
use mc_base::{List, NoMemory, Text};
use std::alloc::Global;

pub fn copied_text(alloc: Global, bytes: &[u8]) -> Result<Text, NoMemory>
    ensures { IfOk result (λ text. text ≡ bytes.now) }
{
    let mut text = Text::new(alloc);
    text.extend(bytes)?;
    Ok(text)
}

pub fn copied_names(alloc: Global, names: &[Text]) -> Result<List<Text>, NoMemory>
    ensures { IfOk result (λ copy. copy ≡ names.now) }
{
    let mut copy = List::new(alloc);
    for name in names {
        copy.push(copied_text(alloc, name.as_slice())?)?;
    }
    Ok(copy)
}

pub fn copied_value(alloc: Global, value: &Computed) -> Result<Computed, NoMemory>
    ensures { IfOk result (λ copy. copy ≡ value.now) }
{
    Ok(match value {
        Computed::Word { name } => Computed::Word {
            name: copied_text(alloc, name.as_slice())?,
        },
        Computed::Length { units } => Computed::Length { units: *units },
        Computed::Percent { value } => Computed::Percent { value: *value },
        Computed::Number { value } => Computed::Number { value: *value },
        Computed::Names { names } => Computed::Names {
            names: copied_names(alloc, names.as_slice())?,
        },
    })
}
