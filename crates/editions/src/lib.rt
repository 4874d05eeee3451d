// The moves between the editions of the map record (change request 7), bytes to bytes, for any number of axes: the
// record is tried, then what the other edition has to hold (15 or 16), then the room (11), and only then are bytes
// written. Fields that both editions have are copied as they stand.
#![tactic(auto)]

mod copying;
mod down;
mod moves;
mod up;

pub use down::downgrade_record;
pub use moves::Moves;
pub use up::upgrade_record;
