// The layer chart of a map of three axes: per column, the cover of the low, middle and high band in eighths, and the
// total by maximum and by random overlap. It knows the grid by its promises: where a cell's odds stand, and what a head
// that has passed its checks has shown.
#![tactic(auto)]

mod columns;
mod entry;
mod grades;
mod overlap;

pub use columns::chart_of;
pub use entry::{layer_chart2, layer_chart3};
pub use overlap::{maximum_overlap, random_overlap};
