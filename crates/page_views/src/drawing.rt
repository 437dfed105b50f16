//! The drawing of a layout.

ghost use Rattle.std.specs.Prelude.{◌≡◌, ◌⊎◌, IfOk, IfErr};
ghost use Rattle.page_views.specs.Shown.{IsView, HasLongView};
ghost use Rattle.page_views.specs.Views.{draw_text};

use crate::limit::limited;
use crate::lines::laid_lines;
use flow_list::Flows;
use mc_base::{NoMemory, Refusal, Text, Units};
use mc_draw::{draw_tree, write_drawing};
use std::alloc::Global;

/// The text of the drawing of the layout.
#[tactic(auto, unfolding(crate::specs::Views::draw_text))]
fn draw_text(alloc: Global, flows: &Flows, rule: Units) -> Result<Text, NoMemory>
    ensures { IfOk result (λ text. text ≡ draw_text rule flows.now) }
{
    let lines = laid_lines(alloc, flows)?;
    let drawing = draw_tree(alloc, flows, &lines, rule)?;
    write_drawing(alloc, &drawing)
}

/// The drawing of the layout as SVG (SVG 2, sections 8.2 and 10.2), with column rules of this width in units (Multi-column, section
/// 4). A text of more than `TEXT_LIMIT` bytes is refused by the limit of results; the other error is out of memory.
pub fn draw_result(alloc: Global, flows: &Flows, rule: Units) -> Result<Text, Refusal>
    ensures ok { IfOk result (IsView (draw_text rule) (λ d. d ≡ flows.now)) }
    ensures err { IfErr result (λ refusal. (refusal ≡ Refusal.NoMemory)
        ⊎ HasLongView (draw_text rule) (λ d. d ≡ flows.now) refusal) }
{
    let text = draw_text(alloc, flows, rule)?;
    limited(text)
}
