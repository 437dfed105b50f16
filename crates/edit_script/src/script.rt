//! What a script says.

use mc_base::Text;

/// A change to the first element in document order whose `id` is this.
///
/// `Words` puts one text in place of all that is in it, or nothing where the text is empty. `Class` gives it this `class`.
/// `Remove` takes it out, with all that is in it.
#[derive(Drop)]
pub enum Edit {
    Words { id: Text, rest: Text },
    Class { id: Text, rest: Text },
    Remove { id: Text },
}

/// Why an edit isn't done: no element has the id, the edit isn't allowed at the element, or memory ran out.
#[derive(Clone, Copy, Debug, PartialEq, Eq)]
pub enum EditFault {
    NoElement,
    NotAllowed,
    NoMemory,
}

/// A step of a script: an edit, or a print of the document as it is then.
#[derive(Drop)]
pub enum Step {
    Change { edit: Edit },
    Print,
}

/// A line of a script: the byte at which it begins, and its step.
#[derive(Drop)]
pub struct ScriptLine {
    pub at: u64,
    pub step: Step,
}
