// The original's answers, run through the entries and compared bit for bit. The list stands in `stdin` as the
// original's own program printed it (docs/DIFFERENCES.md says how); what this prints is held to the file `stdout`. A
// line that cannot be read counts as one that differs; where the input, the output or the memory fails, the program
// ends with an error.
#![tactic(auto)]

use crate::pieces::replay;
use std::io;

mod answers;
mod axes;
mod cells;
mod changing;
mod kinds;
mod lines;
mod list;
mod looking;
mod pieces;
mod structs;
mod tally;
mod words;

fn main(rt: HostRuntime) -> io::Result<()> {
    let tally = replay(&rt)?;
    tally.print(&rt)
}
