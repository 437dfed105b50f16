//! Laws of documents: what is true of the boxes, the content and the flows of each document, whatever makes them.
//!
//! It stands on box_data and flow_data. Each function promises one law, does nothing, and takes no memory.
#![tactic(auto)]

ghost use Rattle.doc_laws.specs.Laws as laws;

/// The data of a document's flows is sound, where no limit is passed: its tree has at most 2^28 nodes, of which at most 64
/// elements stand one inside another; its styles have no length above 2^24 and no count of columns that is 0 or has more than
/// 32 bits; no used length and no limit of flows is passed; and the width of the document and of each line is below 2^60.
pub fn documents_are_sound()
    ensures { laws.DocumentsAreSound }
{}

/// The places and widths of each box of such a document are below 2^60, and it has fewer than 2^32 columns, whatever the
/// heights of its items and the limits of its flows.
pub fn boxes_are_near()
    ensures { laws.BoxesAreNear }
{}

/// No spanner is left in the content of a document, and its boxes are nested: each end closes the innermost open box, and
/// each box that is opened in the flow of stack 0, or in that of another stack, is closed there.
pub fn contents_are_nested()
    ensures { laws.ContentsAreNested }
{}

/// Each box has its number in document order and that of the box around it, and whatever the content names stands in the list
/// of boxes by its number, and each line in its box.
pub fn boxes_are_numbered()
    ensures { laws.BoxesAreNumbered }
{}
