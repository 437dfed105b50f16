//! The text of a result: its first line, the tree of a layout, and the certificate of its heights.
//!
//! It stands on container_layout for the layout, on frag_printer and tree_laws for the tree, on cert_maker, height_cert and
//! layout_laws for the certificate, and on page_views for the limit of results. It promises exactly the lines that the
//! definitions give flows, each with a line feed, or tells that they have more bytes than a limit, which is given as a number.
#![tactic(auto)]

mod limited;
mod write;

pub use limited::result_or_limit;
pub use write::{result_within, write_result_within};
