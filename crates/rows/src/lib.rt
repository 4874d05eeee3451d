// The rows of a map record: a field for every row of odds along axis 0, and extents as so many rows. What stands before
// and after the rows is in `record_reader` and `record_writer`.
#![tactic(auto)]

mod bounds;
mod reading;
mod refusal;
mod shape;
mod writing;

pub use reading::{read_row, read_rows, row_sound, rows_check};
pub use refusal::record_broken;
pub use shape::Shaped;
pub use writing::{odds_in_bounds, rows_writable, write_row, write_rows};
