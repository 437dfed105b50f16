ghost use Rattle.html_grammar.specs.Laws as laws;
ghost use Rattle.html_grammar.specs.Documents as documents;
ghost use Rattle.html_grammar.specs.FirstFaults as faults;
ghost use Rattle.html_grammar.specs.NodeOrder as order;

/// Every document is read, and gives the nodes of its tree in preorder and its depth.
pub fn documents_are_read()
    ensures { laws.DocumentsAreRead }
{}

/// Whatever is read is a document, and what it gives is its tree.
#[tactic(auto, using(crate::proofs::Sound::tree_of))]
pub fn what_is_read_is_a_document()
    ensures { laws.WhatIsReadIsADocument }
{}

/// Tokens have at most one tree.
pub fn one_tree()
    ensures { laws.OneTree }
{}

/// The fault that is reported is the first: at a token that no document has after those before it, or at the end of
/// a text that some document begins with and that isn't one.
#[tactic(auto, using(crate::proofs::First::first_fault))]
pub fn the_fault_is_the_first()
    ensures { laws.TheFaultIsTheFirst }
{}

/// Every text that is spelled as a document is read.
pub fn texts_are_read()
    ensures { documents.TextsAreRead }
{}

/// Whatever is read is spelled as a document.
pub fn what_is_read_is_spelled()
    ensures { documents.WhatIsReadIsSpelled }
{}

/// A text has at most one tree, and at most one first construct that isn't laid out.
pub fn one_tree_of_text()
    ensures { documents.OneTreeOfText }
{}

/// What is answered for a text is its document, within the limits.
pub fn doms_are_of_their_texts()
    ensures { documents.DomsAreOfTheirTexts }
{}

/// The document of a text is answered.
pub fn texts_have_their_doms()
    ensures { documents.TextsHaveTheirDoms }
{}

/// The fault of a text that is reported is the first, by place and then by rule.
pub fn the_fault_of_a_text_is_the_first()
    ensures { faults.TheFaultOfATextIsTheFirst }
{}

/// A text is refused for its first fault, or for one of the two limits.
pub fn refusals_have_reasons()
    ensures { faults.RefusalsHaveReasons }
{}

/// In a tree each node stands in an element before it, or in none; where one element holds the whole tree, in none but it
/// alone.
pub fn parents_are_earlier()
    ensures elements { order.ParentsAreEarlier }
    ensures root { order.AllButTheRootHaveParents }
{}

/// What is inside a node of a tree are the nodes after it up to some place.
pub fn subtrees_are_contiguous()
    ensures { order.SubtreesAreContiguous }
{}

/// Nodes are those of one tree at most.
pub fn nodes_have_one_tree()
    ensures { order.NodesHaveOneTree }
{}
