// The stencil that contains a point, and the sample in it. The original's stencil_containing and sample_log_odds.
#![tactic(auto)]

mod sample;
mod samples;
mod stencil;

pub use samples::Samples;
pub use stencil::{Stencil2, Stencil3, StencilAxis};
