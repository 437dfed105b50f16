//! What a result says, when it is valid, and what that tells of the layout.
//!
//! It stands on flow_data, flow_list, flow_laws and range_laws. Its `specs/` say what the text of a result says, which clauses
//! make it valid, in the order of their tests, and which fails first. Each function promises one law, does nothing, and takes no
//! memory.
#![tactic(auto)]

ghost use Rattle.std.specs.Prelude.{ℕ, ◌<◌, List, length};
ghost use Rattle.flow_data.specs.Soundness.{IsSound};
ghost use Rattle.flow_data.specs.declared.data.FlowsData.{FlowsData};
ghost use Rattle.result_laws.specs.FirstFault.{FaultsAreFirst};
ghost use Rattle.result_laws.specs.Laws.{ValidTells};
ghost use Rattle.result_laws.specs.OwnEntries.{OwnEntriesPass};
ghost use Rattle.result_laws.specs.OneReading.{OneReading};
ghost use Rattle.result_laws.specs.Testing.{HugeColumnsAreEndless, TestsFollow};

/// In sound flows a valid result tells the layout, whoever made it: each entry has the size or the height that is the row's, and
/// says whether it fits as it does; each row directly in a stack has its entry; and the lines of the tree are those of the
/// layout.
pub fn valid_results_tell_the_layout()
    ensures { (d : FlowsData) → IsSound d → ValidTells d }
{}

/// In sound flows an entry with the layout's own height and ranges passes its tests, where its row and place are named as they
/// are, it stands once, its available height is right, its neighbouring ranges differ, and what it uses and cites stands before
/// it.
pub fn own_entries_pass()
    ensures { (d : FlowsData) → IsSound d → OwnEntriesPass d }
{}

/// Entries may be tested one after another: tests that pass decide nothing, the first failure after them is the one that is told,
/// and the tests of further entries are those after the first ones.
pub fn tests_follow()
    ensures { (d : FlowsData) → TestsFollow d }
{}

/// In sound flows a column at a height of 2^60 or more is the column without end, so a checker need not lay out at greater
/// heights.
pub fn huge_columns_are_endless()
    ensures { (d : FlowsData) → IsSound d → (r : ℕ) → r < length d.rows → HugeColumnsAreEndless d r }
{}

/// A text says a result exactly where that result is read in it, so a text says at most one.
pub fn one_reading()
    ensures { (text : List ℕ) → OneReading text }
{}

/// The fault that is told of a text is its first: rule 1 stands at the first byte that no result has; before any other fault
/// stands what some result begins with, and no result begins with that and the whole line at which the fault stands.
pub fn faults_are_first()
    ensures { (text : List ℕ) → FaultsAreFirst text }
{}
