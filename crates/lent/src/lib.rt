// The two forms of the original that the other crates replace by values: a head lent by reference, and a lent slice of
// beam structs. Each is a thin function over the functions by value.
#![tactic(auto)]

mod beams;
mod head;

pub use beams::update_beams;
pub use head::begin_scan;
