//! A drawing of a layout: the rectangles of its tree, and a rule in each gap between two columns, as SVG text.
//!
//! It stands on mc_base, flow_text, flow_data, flow_list and tree_lines. It promises the shapes that `specs/Shapes.antt` says of
//! the lines of a tree, the text that `specs/DrawingText.antt` says of shapes, and to read a drawing from that text, or the first
//! line of other bytes that is off its forms, as `specs/ReadBack.antt` says.
#![tactic(auto)]

mod drawing;
mod fields;
mod laws;
mod number;
mod read;
mod rules;
mod shapes;
#[cfg(test)]
mod tests;
mod text;

pub use drawing::{Drawing, Shape, ShapeClass};
pub use laws::{drawings_are_read_again, rectangles_are_those_of_lines};
pub use read::{BadDrawing, read_drawing};
pub use shapes::draw_tree;
pub use text::write_drawing;
