// Damaged records, read again: what reading answers each time. Before each reading the lent lists hold 9 throughout,
// and where it is refused they still do. The record of edition 1 is damaged first, then those of edition 2. What it
// prints is held to the file `stdout`.
#![tactic(auto)]

mod answers;
mod damage;
mod edition_one;
mod edition_two;
mod lists;
mod record;

use std::io;
use types::Model;

const MODEL: Model = Model {
    occupied: 0.75,
    free: -0.5,
    ceiling: 4.0,
};

fn main(rt: HostRuntime) -> io::Result<()> {
    edition_one::edition_one(&rt)?;
    edition_two::edition_two(&rt)
}
