// One mark on one cell, reading and setting one cell, and frames. The original's mark_free_at, mark_occupied_at,
// log_odds_at, set_log_odds and begin_scan, for a place that was found and lists that were checked.
#![tactic(auto)]

mod bands;
mod cells;
mod frames;
mod marks;

pub use bands::{Stepped, model_at};
pub use cells::{read_at, set_checked_at, set_log_odds_at};
pub use frames::{clear_odds, clear_stamps, open_stamps, opened};
pub use marks::{Steps, mark_free_at, mark_occupied_at, steps_of};
