// Reading edition 2 of the map record (change request 7): a map's head, whether its sweep is open, its odds and stamps
// from bytes, into lent lists, for any number of axes.
#![tactic(auto)]

mod check;
mod loads;
mod parts;
mod reading;

pub use check::edition_check;
pub use loads::Loads;
pub use parts::is_open_at;
pub use reading::read_edition2_record;
