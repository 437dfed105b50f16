//! The plain data of a layout, and whether it is sound.
//!
//! It stands on mc_base. Flows hold items and the seams between them; rows, boxes and stacks are named by their numbers.
//! `sound` promises to tell of any data, exactly, whether it is sound: numbers are in range, each part belongs to one other,
//! boxes are well nested and none is empty, and heights and places stay below 2^60. It only reads the data. All that is
//! laid out is sound, so whoever makes data asks it first.
#![tactic(auto)]

mod across;
mod belongs;
mod data;
mod parts;
mod sizes;
mod sound_boxes;
mod sound_data;
mod sound_flow;
mod sound_rows;
mod sound_seams;
mod sound_stacks;

pub use data::{AtomKind, Bound, BoxInfo, Edge, Flow, FlowsData, Item, RowInfo, Seam, Stack};
pub use sound_data::sound;
