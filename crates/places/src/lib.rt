// Where a cell stands in the lent lists, and which cell contains a point. The original's translate_to_index and
// cell_containing.
#![tactic(auto)]

mod containing;
mod index;
mod off;
mod places;

pub use containing::within;
pub use index::{place_within2, place_within3};
pub use places::Places;
