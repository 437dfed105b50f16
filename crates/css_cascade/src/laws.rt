//! A law about the styles of a document.

ghost use Rattle.css_cascade.specs.Laws.{OneStyling};

/// The elements of a document have one style each: what wins for a property is one declaration.
pub fn styles_are_one()
    ensures { OneStyling }
{}
