//! The whole document.

ghost use Rattle.std.specs.Prelude.{◌≡◌, ◌<◌, ◌≤◌, length, IfOk, IsErrOf, IsOkUnless};
ghost use Rattle.doc_gen.specs.Document.{document};

use crate::page::Page;
use mc_base::{LimitName, Refusal, Text};
use std::alloc::Global;

/// The most paragraphs of a generated document.
const MOST: u32 = 5_000;

/// The generated document of so many paragraphs: the same text for the same start, in ASCII.
///
/// Above 5,000 paragraphs the answer is the limit `paragraphs`; else it is the text, which is no longer than a document that is
/// read may be, or out of memory.
#[tactic(auto, using(crate::proofs::Steps::part_steps, crate::proofs::Sizes::document_long))]
pub fn generate(alloc: Global, start: u64, paragraphs: u32) -> Result<Text, Refusal>
    ensures text { IfOk result (λ text. text ≡ document start paragraphs) }
    ensures short { IfOk result (λ text. length text ≤ 4194304) }
    ensures within { paragraphs ≤ 5000 → IsOkUnless result Refusal.NoMemory }
    ensures limit { 5000 < paragraphs → IsErrOf result (Refusal.Limit LimitName.Paragraphs 5001 5000) }
{
    if paragraphs > MOST {
        return Err(Refusal::Limit {
            name: LimitName::Paragraphs,
            reached: u64::from(MOST) + 1,
            limit: u64::from(MOST),
        });
    }
    let mut page = Page::new(alloc, start);
    page.head()?;
    for index in 0..paragraphs {
        page.part(index)?;
    }
    page.foot()?;
    Ok(page.into_text())
}

#[cfg(test)]
mod tests {
    use super::*;
    use std::test::Fail;

    #[test]
    fn documents_are_generated(rt: HostRuntime) -> Result<(), Fail> {
        let empty = generate(rt.alloc(), 7, 0)?;
        assert_eq!(rt;
            empty.as_slice(),
            b"<!DOCTYPE html>\n<title>gen</title>\n<style>div{column-count:3;column-gap:16px}</style>\n<div>\n</div>\n".as_slice()
        );
        // a space in the first line, and one after each of 58 words but the last
        let one = generate(rt.alloc(), 7, 1)?;
        let spaces = one.as_slice().iter().filter(|byte| **byte == b' ').count();
        assert_eq!(rt; spaces, 58);
        Ok(())
    }
}
