//! How many columns a container has, and how wide they are.
//!
//! It stands on mc_base. It promises the used count, width and step of columns (CSS Multi-column Layout 1, section 3.4), in
//! units of 1/64 px.
#![tactic(auto)]

mod columns;

pub use columns::{Columns, used_columns};
