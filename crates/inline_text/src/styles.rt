//! What the style of a piece allows, looked up by its number.

ghost use Rattle.std.specs.Prelude.{◌≡◌, slice_get};
ghost use Rattle.inline_text.specs.WhiteSpace.{keeps};
ghost use Rattle.inline_text.specs.Opportunities.{hyphenated_by, wrapped_by};

use crate::content::RunStyle;

/// Whether a style keeps its white space.
pub(crate) fn keeps_white_space(styles: &[RunStyle], style: u32) -> bool
    ensures { result ≡ keeps styles.now style }
{
    match styles.get(style as usize) {
        Some(style) => style.keep,
        None => false,
    }
}

/// Whether a style allows wrapping.
pub(crate) fn wraps(styles: &[RunStyle], style: u32) -> bool
    ensures { result ≡ wrapped_by (slice_get styles.now style) }
{
    match styles.get(style as usize) {
        Some(style) => style.wrap,
        None => false,
    }
}

/// Whether a style lets a soft hyphen be a break opportunity.
pub(crate) fn hyphenates(styles: &[RunStyle], style: u32) -> bool
    ensures { result ≡ hyphenated_by (slice_get styles.now style) }
{
    match styles.get(style as usize) {
        Some(style) => style.hyphens,
        None => false,
    }
}
