//! The sheets of a document in the order of the cascade.

ghost use Rattle.std.specs.Prelude.{◌≡◌, ◌∷◌, ◌++◌, IfOk};

use css_data::Sheet;
use mc_base::{List, NoMemory};
use std::alloc::Global;

/// These sheets and further ones.
fn joined(sheets: List<Sheet>, more: List<Sheet>) -> Result<List<Sheet>, NoMemory>
    ensures { IfOk result (λ all. all ≡ sheets ++ more) }
{
    let mut all = sheets;
    for sheet in more.into_vec() {
        all.push(sheet)?;
    }
    Ok(all)
}

/// The author's sheet, and those of the document's style elements after it (CSS Cascade 4, section 6).
pub fn all_sheets(alloc: Global, author: Sheet, own: List<Sheet>) -> Result<List<Sheet>, NoMemory>
    ensures { IfOk result (λ all. all ≡ author ∷ own) }
{
    let mut all = List::new(alloc);
    all.push(author)?;
    joined(all, own)
}
