// Writing the map record of the requirements, for any number of axes: the head's checks, then whether its bands have
// one pair (10), then the odds (10), then the room (11), and only then are bytes written to what is lent.
#![tactic(auto)]

mod arranging;
mod parts;
mod record;
mod writes;

pub use parts::{put_end, put_frame, put_model};
pub use record::write_record;
pub use writes::{Writes, equal_pairs};
