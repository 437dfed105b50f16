//! How wide boxes are, and where they stand.
//!
//! It stands on the data of boxes, lines of text and columns. `places` goes over a document's boxes once, in document order,
//! and gives each its used widths, margins, padding, images and columns in its place, exactly as the definitions in box_data
//! say, or the first used length that is too long.
#![tactic(auto)]

mod across;
mod images;
mod laws;
mod lengths;
mod limits;
mod pass;
mod place;
mod placing;
mod style;

pub use laws::places_are_parented;
pub use pass::places;
