/// A character of a text, and the byte of the input at which it begins.
///
/// CR LF and CR are one line feed, at the byte of the CR.
#[derive(Clone, Copy)]
pub struct Place {
    pub at: u64,
    pub character: char,
}
