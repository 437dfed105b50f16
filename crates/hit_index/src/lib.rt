//! An index over the rectangles of a tree's lines: which leaf stands at a point, on which path, which leaves a rectangle meets,
//! and which rectangles cover leaves. A leaf is a line of text, a void, an image or an atom.
//!
//! It stands on mc_base and tree_lines. Lines are named by their numbers in the tree, from 0. The leaves are kept in bands, each
//! of which has the leaves of one stretch of the tree in order of their left edges, and knows how far they reach down. It
//! promises that each answer is that of a scan over all lines (specs/Scan, specs/Cover).
#![tactic(auto)]

mod band;
mod cover;
mod fill;
mod index;
mod mark;
mod nearest;
mod point;
#[cfg(test)]
mod tests;

pub use index::Index;
pub use mark::Mark;
