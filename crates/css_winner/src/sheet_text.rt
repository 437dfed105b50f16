//! The built-in style sheet.

ghost use Rattle.std.specs.Prelude.{◌≡◌, IfOk};
ghost use Rattle.css_winner.specs.BuiltIn as built;

use css_data::Sheet;
use css_syntax::parse_sheet;
use mc_base::{List, NoMemory, Refusal};
use std::alloc::Global;

/// The built-in style sheet, as a text (after CSS 2.1, appendix D).
pub const BUILT_IN: &[u8] = b"\
html, body, address, article, aside, blockquote, center, dd, details, div, dl, dt, fieldset, figcaption, figure, footer, \
form, h1, h2, h3, h4, h5, h6, header, hgroup, hr, legend, main, menu, nav, ol, p, pre, search, section, summary, ul \
{ display: block }
li { display: list-item }
head, title, meta, link, style, script, base, template { display: none }
body { margin: 8px }
p, dl, ul, ol, menu, pre { margin: 1em 0 }
blockquote, figure { margin: 1em 40px }
h1 { font-size: 2em; margin: .67em 0 }
h2 { font-size: 1.5em; margin: .83em 0 }
h3 { font-size: 1.17em; margin: 1em 0 }
h4 { margin: 1.33em 0 }
h5 { font-size: .83em; margin: 1.67em 0 }
h6 { font-size: .67em; margin: 2.33em 0 }
h1, h2, h3, h4, h5, h6, b, strong { font-weight: bold }
ul, ol, menu { padding-left: 40px }
dd { margin-left: 40px }
hr { border: 1px solid; margin: .5em 0 }
i, em, cite, var, dfn, address { font-style: italic }
pre { white-space: pre }
pre, code, kbd, samp, tt { font-family: monospace }
";

/// The built-in style sheet: what `parse_sheet` reads in its text.
#[tactic(auto, unfolding(crate::specs::BuiltIn::built_in))]
pub fn built_in(alloc: Global) -> Result<Sheet, NoMemory>
    ensures { IfOk result (λ sheet. sheet ≡ built.built_in) }
{
    match parse_sheet(alloc, BUILT_IN) {
        Ok(sheet) => Ok(sheet),
        Err(Refusal::NoMemory) => Err(NoMemory),
        Err(_) => Ok(Sheet {
            rules: List::new(alloc),
            construct: None,
        }),
    }
}
