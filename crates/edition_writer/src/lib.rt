// Writing edition 2 of the map record (change request 7), for any number of axes: the head's checks, then the odds and,
// of an open record, the stamps (10), then the room (11), and only then are bytes written to what is lent.
#![tactic(auto)]

mod arranging;
mod parts;
mod record;
mod stores;

pub use parts::{put_cuts, put_edition, put_mark};
pub use record::write_edition2_record;
pub use stores::Stores;
