// The data of the grid: frames and stamps, points and cells, the model, beams, samples, refusals and answers. Numbers
// by value and nothing else; what is done with them stands in the crates above, and the map's head with its own
// functions in grid_map. The original's types.rs. A struct marked `#[repr(C)]` crosses to C as it stands:
// `include/tembuzar.h` has the same fields in the same order.
#![tactic(auto)]

mod answers;
mod axes;
mod beams;
mod frames;
mod model;
mod points;
mod refusal;
mod samples;

pub use answers::{Moved, Swept};
pub use axes::Axes;
pub use beams::{Clipped, RayTermination, ScanBeam2, ScanBeam3, VerticalBeam};
pub use frames::{Frame, Stamp};
pub use model::{Bands, Cuts, Model, Pair};
pub use points::{Cell2, Cell3, Extents2, Extents3, Point2, Point3, Vector2, Vector3};
pub use refusal::Refusal;
pub use samples::{MapSample2, MapSample3};
