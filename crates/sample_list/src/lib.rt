// Many sample points in one call: flat lists of points, of slots for samples, and of marks. A point is sampled as it is
// alone; here is only how the lists are laid out.
#![tactic(auto)]

mod entry;
mod listed;
mod listed2;
mod listed3;
mod shape;

pub use entry::sample_all_log_odds;
pub use listed::Listed;
