//! What a list of selectors and a list of media are, by their forms, and the laws that tie them to the reader's functions.
//!
//! It stands on css_prelude, whose functions on lists its laws are about, and on css_tokens and css_data. The files of `specs/`
//! say which lexemes are a list of selectors (Selectors 3, sections 4, 5 and 8) and which are a list of media (CSS 2.1, section
//! 7.2.1); they name no state of a reader. What stands after the colon of a pseudo-class is told by css_prelude's functions.
//! Each function here promises one law, does nothing, and takes no memory.
#![tactic(auto)]

ghost use Rattle.selector_laws.specs.Forms as forms;
ghost use Rattle.selector_laws.specs.Media as media;

/// The selectors that are read are those that the lexemes are.
pub fn selectors_are_said()
    ensures { forms.SelectorsAreSaid }
{}

/// Lexemes that are a list of selectors are read as it.
pub fn selectors_are_read()
    ensures { forms.SelectorsAreRead }
{}

/// Lexemes are one list of selectors at most.
pub fn one_list_of_selectors()
    ensures { forms.OneListOfSelectors }
{}

/// Lexemes that are read as a list of media are one, and it applies or doesn't as read.
pub fn media_are_said()
    ensures { media.MediaAreSaid }
{}

/// Lexemes that are a list of media are read as it.
pub fn media_are_read()
    ensures { media.MediaAreRead }
{}

/// A list of media doesn't both apply and not apply.
pub fn one_answer_of_media()
    ensures { media.OneAnswerOfMedia }
{}
