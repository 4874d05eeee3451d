// What a record of edition 2 has beside the fields of edition 1: the bands, and the rows of an open record. Behind each
// row of odds of such a record stands a row of stamps, a field with a number of 32 bits a cell. The rows of odds are
// `rows`'; a closed record has no others.
#![tactic(auto)]

mod bands;
mod reading;
mod stamps;
mod writing;

pub use bands::bands_size;
pub use reading::{open_rows_check, read_open_rows};
pub use writing::{open_rows_writable, write_open_rows};
