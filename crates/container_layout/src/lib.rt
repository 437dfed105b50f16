//! Stacks, and the rows directly in them: a whole layout.
//!
//! It stands on balancer for the rows, on column_places and frag_maker for what stands in a stack and its fragments, and on the
//! definitions of flow_list. `layout` promises the heights and the fragments of the stacks, and of each row directly in a stack
//! its height, whether it fits, why each lesser height doesn't, and its fragment, in document order; and that the book of sizes
//! is that of the certificate.
#![tactic(auto)]

mod find;
mod lay;
mod pieces;
mod rows;
mod stack;
mod walk;
mod whole;

pub use whole::layout;
