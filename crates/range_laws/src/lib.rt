//! Laws of ranges of heights, and of the book of sizes that they rest on.
//!
//! It stands on column_laws, flow_laws, flow_list and flow_data. Each function promises one law, does nothing, and takes no
//! memory.
#![tactic(auto)]

ghost use Rattle.std.specs.Prelude.{ℕ, ◌<◌, length, Option};
ghost use Rattle.flow_data.specs.declared.data.FlowsData.{FlowsData};
ghost use Rattle.flow_data.specs.Flows.{flow_in};
ghost use Rattle.flow_data.specs.Soundness.{IsSound};
ghost use Rattle.flow_list.specs.Ranges.{ranges};
ghost use Rattle.flow_list.specs.Rows.{all_rows};
ghost use Rattle.flow_list.specs.Tokens.{Token, IsPlace};
ghost use Rattle.range_laws.specs.Changes.{LinesChange};
ghost use Rattle.range_laws.specs.Cites.{LinesCite};
ghost use Rattle.range_laws.specs.Deciding.{RangesDecide};
ghost use Rattle.range_laws.specs.Entering.{BookStaysTrue, OwnColumnsEnter, UsesEnter};
ghost use Rattle.range_laws.specs.Entries.{EntriesStandOnce};
ghost use Rattle.range_laws.specs.Neighbours.{NeighboursDiffer};

/// In sound flows the lines of a column are others at the least of its bounds, and so are those of what a row makes of a height
/// and of the columns that are judged, however many rows stand one inside another.
pub fn lines_change()
    ensures { (d : FlowsData) → IsSound d → (depth : ℕ) → LinesChange d depth }
{}

/// In sound flows two ranges of a row that follow each other differ in their reason or in their lines.
pub fn neighbours_differ()
    ensures { (d : FlowsData) → IsSound d → (r : ℕ) (q : Token) (available : Option ℕ) →
        NeighboursDiffer (ranges (all_rows d) d r q available) }
{}

/// In sound flows ranges that follow one another from 0 up to a height that fits, each with a reason that holds, make this height
/// the size, whoever gives them. Those that go up to one above what is available make the row too high.
pub fn ranges_decide()
    ensures { (d : FlowsData) → IsSound d → (r : ℕ) → r < length d.rows → (q : Token) → IsPlace d (flow_in d r) q →
        RangesDecide d r q }
{}

/// Two lists of sizes entered in a book one after the other are their concatenation entered. A book only grows, what was entered
/// stands there, and where all stand there already nothing changes.
pub fn uses_enter()
    ensures { (d : FlowsData) → UsesEnter d }
{}

/// In sound flows a size uses sizes of rows of greater numbers alone. So a true book, in which each size stands once and after
/// those that it uses, stays true when sizes are entered; each depth that is enough enters the same; and a size is entered right
/// after those that it uses, never with them.
pub fn book_stays_true()
    ensures { (d : FlowsData) → IsSound d → BookStaysTrue d }
{}

/// In sound flows a size's own columns are the columns that are judged at it, and what they use is entered after what its ranges
/// use. Where all of that stands there already, nothing new is entered for them.
pub fn own_columns_enter()
    ensures { (d : FlowsData) → IsSound d → (r : ℕ) → r < length d.rows → (q : Token) → IsPlace d (flow_in d r) q →
        OwnColumnsEnter d r q }
{}

/// In sound flows there is one list of cites for each column line of a range, and what it cites is among what the range uses, so
/// it stands in each book that holds that.
pub fn lines_cite()
    ensures { (d : FlowsData) → IsSound d → (r : ℕ) → r < length d.rows → (q : Token) → IsPlace d (flow_in d r) q →
        (available : Option ℕ) → LinesCite d r q available }
{}

/// In sound flows the sizes of the certificate's entries are a true book, so none stands twice; each entry stands after the sizes
/// that it uses; and each row directly in a stack has one entry.
pub fn entries_stand_once()
    ensures { (d : FlowsData) → IsSound d → EntriesStandOnce d }
{}
