// One beam on a map: a cell's mark, the walk along a line, and the beam. What a cell, a line, a clip or a mark is
// stands in the crates below; heads are checked in the crate above. The original's update_ray.
#![tactic(auto)]

mod beam;
mod beams;
mod follow;
mod marking;
mod walk;

pub use beam::integrate;
pub use beams::Beams;
pub use marking::{mark_counted, mark_on, mark_place};
