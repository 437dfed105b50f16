//! Laws about the flows of documents.

ghost use Rattle.doc_flows.specs.Laws.{OneAnswer, OneFlagging, OneTreeAnswer};

/// A document has one answer: its flows, or one reason why it has none.
pub fn documents_have_one_answer()
    ensures { OneAnswer }
{}

/// A document's tree with its sheets and fonts has one answer: its flows, or one reason why it has none.
pub fn trees_have_one_answer()
    ensures { OneTreeAnswer }
{}

/// The rows of a document's flows have one list of flags.
pub fn rows_have_one_flagging()
    ensures { OneFlagging }
{}
