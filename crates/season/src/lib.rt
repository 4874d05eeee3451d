// The season report: a table over a run of charts of equal size. It knows charts by their numbers alone, and nothing of
// the grid. A report is a number of charts, by value, beside a lent list of twelve numbers a column; here it is
// started, added to, and joined with another.
#![tactic(auto)]

mod adding;
mod entries;
mod sizes;
mod tests;

pub use entries::{add_chart, add_charts, join_reports, start_report};
