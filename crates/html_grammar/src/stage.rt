use mc_base::Text;

/// How far a document has come: before `html` (with or without its doctype), in `html` before `head`, in the head,
/// after it, or in `body` and after.
#[derive(Clone, Copy)]
pub enum Stage {
    Opening { doctype: bool },
    BeforeHead,
    InHead,
    BehindHead,
    InBody,
}

/// An element whose end is still to come, by the number of its node and its name.
#[derive(Drop)]
pub struct Open {
    pub number: u32,
    pub name: Text,
}
