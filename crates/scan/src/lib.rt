// The entries of a sweep, with their checks. What a beam or a list of beams does to a map stands in the crates below.
// The original's ScanUpdater.
#![tactic(auto)]

mod updater;

pub use updater::{ScanUpdater, ScanUpdater2, ScanUpdater3};
