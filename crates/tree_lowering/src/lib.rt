//! Trees of fragments whose cut pieces are lowered, whatever lowers one piece (`column-fill: balance-all`).
//!
//! It stands on piece_data for what such a tree is, on flow_list, frag_pool and frag_maker for the fragments, and on inner_rows
//! for books that are true. `Lowerer` is the law of what lowers one piece. `lower_tree` promises the tree of a fragment in which
//! each cut piece of a flagged row is lowered, from the outermost inward, while what follows a piece stays where it is; and that
//! the lowerer was told of these pieces, and of the stacks in the tree, in order. A fragment in which nothing changes is answered
//! as it is.
#![tactic(auto)]

mod cut;
mod lowerer;
mod nodes;
mod walk;

pub use cut::Within;
pub use lowerer::{LowPiece, Lowerer};
pub use walk::lower_tree;
