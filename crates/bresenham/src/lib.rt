// The line plotter: what a line does along one axis, and the lines of two and three axes that join such axes. What is
// done with a line's cells is left to the crates above. The original's bresenham.rs.
#![tactic(auto)]

mod axis;
mod following;
mod line;
mod lines;

pub use axis::Axis;
pub use following::{Cells2, Cells3, cell_after};
pub use line::{BresenhamLine2, BresenhamLine3};
pub use lines::Lines;
