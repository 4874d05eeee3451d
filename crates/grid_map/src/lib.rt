// The map's head, and the entries that need no beam. The original's GridMap.
#![tactic(auto)]

mod loaded;
mod map;

pub use loaded::Loaded;
pub use map::{Grid, GridMap, GridMap2, GridMap3};
