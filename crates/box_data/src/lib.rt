//! The plain data of a document's boxes, and the definitions of its boxes and flows.
//!
//! It stands on the data of documents, inline content, lines, levels, columns and flows. The files of `specs/` say which boxes a document has
//! (`BoxTree`), how wide they are and where they stand (`Widths`), what stands in each flow with containers cut at their
//! spanners (`Content`), the flows, rows and stacks (`DocumentFlows`) and which limits come first (`Limits`). It has no
//! functions: whatever makes, measures or cuts boxes speaks of the same ones.
#![tactic(auto)]

mod mark;
mod placed;
mod style;
mod tree;

pub use mark::Mark;
pub use placed::{ImageSize, Placed};
pub use style::{Align, BoxStyle, Display, Length, SideAmounts, SideLengths};
pub use tree::{BoxKind, BoxNode, BoxTree};
