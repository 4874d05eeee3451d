// Every figure of the requirements, starred or not, run through the entries and printed with what came out; then a
// picture of a sweep. What it prints is held to the file `stdout`. What the requirements expect stands before each
// outcome in brackets. This room holds the maps that they are run on; each kind of figure has its own.
#![tactic(auto)]

use grid_map::GridMap2;
use std::io;
use types::{Extents2, Frame, Model, Point2, Refusal};

mod beams;
mod cells;
mod lines;
mod record;
mod shown;
mod sweep;

const MODEL: Model = Model {
    occupied: 0.75,
    free: -0.5,
    ceiling: 4.0,
};

fn at(x: f64, y: f64) -> Point2 {
    Point2 { x, y }
}

// A map in the middle of its sweeps.
fn map_of(extents: Extents2, frame: u32) -> GridMap2 {
    GridMap2 {
        extents,
        model: MODEL,
        frame: Frame(frame),
    }
}

// The figures' map: 10 by 8, fresh, and opened to frame 2.
fn opened(odds: &mut [f64], stamps: &mut [u32]) -> Result<GridMap2, Refusal> {
    let map = GridMap2::new(Extents2 { x: 10, y: 8 }, MODEL, odds, stamps)?;
    map.begin_scan(stamps)
}

fn main(rt: HostRuntime) -> io::Result<()> {
    lines::lines(&rt)?;
    beams::hits(&rt)?;
    cells::votes_on_one_cell(&rt)?;
    cells::samples(&rt)?;
    cells::places(&rt)?;
    cells::openings(&rt)?;
    record::record(&rt)?;
    sweep::sweep(&rt)
}
