// Vertical beams, of instruments that look straight up and send whole numbers: the profile, the cells of a column, and
// the entry. No coordinate here is a float: what a mark does to odds stands in the crates below, and that the general
// beam does the same is a law.
#![tactic(auto)]

mod column;
mod entry;
mod profile;

pub use entry::update_vertical3;
