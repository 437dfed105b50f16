//! The text of flow files: the lines of a text, where they are a flow file.
//!
//! It stands on mc_base. `specs/Forms` says what a line looks like, `specs/Grammar` which lines are a flow file, as the rows
//! with their items, break places, edges and boxes, `specs/Faults` which fault is the first, and `specs/TreeLimits` and
//! `specs/Limits` which limits a file passes. `read` promises to answer the lines just where the text is a flow file within
//! its limits, and else the first fault, or the first limit that is passed. The functions of `laws` have no body: each
//! says what the definitions mean for one another.
#![tactic(auto)]

mod cut;
mod fault;
mod form;
mod laws;
mod limit;
mod line;
mod number;
mod pile;
mod reading;
mod structure;

pub use laws::{
    a_line_that_may_not_follow_is_a_fault, a_text_has_one_first_fault_at_most, flow_files_are_read,
    forms_are_read, limits_are_those_of_the_rows, lines_are_one_flow_file_at_most,
    texts_of_flow_files_are_read, the_fault_of_a_text_is_the_first, what_is_read_is_a_flow_file,
    what_is_read_is_a_form, what_is_read_is_the_text_of_a_flow_file,
    what_is_read_so_far_begins_a_flow_file,
};
pub use line::{Form, Line};
pub use pile::Pile;
pub use reading::read;
