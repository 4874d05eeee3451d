// What an entry answers is `Result<T, Refusal>`: what was asked for, or why it refused. Most answers are numbers or
// structs that stand elsewhere, the maps' heads in grid_map; those of two numbers stand here. `specs/Answers.antt` gives
// each its meaning by the requirements.
use crate::model::Cuts;

// A sweep file that was integrated: the station that mailed it, and how many marks changed a cell.
#[derive(Clone, Copy, Debug, PartialEq, Eq)]
pub struct Swept {
    pub station: u16,
    pub count: u64,
}

// A record that was moved back to edition 1: how many bytes it has there, and the cuts, which it has not.
#[derive(Clone, Copy, Debug, PartialEq, Eq)]
pub struct Moved {
    pub size: u64,
    pub cuts: Cuts,
}
