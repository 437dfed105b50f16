//! Which sizes the column lines of a range rest on, told by the lines.
//!
//! It stands on mc_base, flow_data and flow_list. Its `specs/` say how the lines alone tell, from the place of the range on,
//! which rows stand among the items of each line's column. Its function promises one law, does nothing, and takes no memory.
#![tactic(auto)]

ghost use Rattle.std.specs.Prelude.{◌≡◌, ℕ};
ghost use Rattle.flow_data.specs.declared.data.FlowsData.{FlowsData};
ghost use Rattle.flow_list.specs.Certificate.{range_owned};
ghost use Rattle.flow_list.specs.Ranges.{Range};
ghost use Rattle.flow_list.specs.Tokens.{Token};
ghost use Rattle.cite_laws.specs.Starts.{LinesTell};

/// The lines of the columns that are judged where a range begins tell the sizes that each of them rests on: the rows among the
/// items from the place at which its column begins through its stop.
pub fn lines_tell_their_sizes()
    ensures { (d : FlowsData) (r : ℕ) (q : Token) (range : Range) → LinesTell d r q range }
{}
