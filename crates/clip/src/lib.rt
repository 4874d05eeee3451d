// What clipping leaves of a beam: the part of it within the map's box. The original's clip_segment and
// clamp_to_addressable_cell.
#![tactic(auto)]

mod clip;
mod clips;
mod slabs;
mod tried;

pub use clip::clip_segment;
pub use clips::Clips;
pub use slabs::Span;
pub use tried::clip_beam;
