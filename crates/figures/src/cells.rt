// Figures of single cells: votes, samples, the cell that contains a point, and the frame that opens a sweep.
use crate::shown::{Answered, Cell, Odds, Sample};
use crate::{at, map_of, opened};
use scan::ScanUpdater;
use std::io;
use types::{Cell2, Extents2, Point2, Refusal};

// A cell's odds after a cloud vote, alone or after a clear vote of the same sweep.
fn voted(start: f64, clear_first: bool) -> Result<Option<f64>, Refusal> {
    let mut odds = [0.0f64; 80];
    let mut stamps = [0u32; 80];
    let cell = Cell2 { x: 0, y: 0 };
    let map = opened(&mut odds, &mut stamps)?;
    map.set_log_odds(&mut odds, cell, start)?;
    if clear_first {
        ScanUpdater { map }.mark_free(&mut odds, &mut stamps, cell)?;
    }
    ScanUpdater { map }.mark_occupied(&mut odds, &mut stamps, cell)?;
    map.log_odds_at(&odds, cell)
}

fn vote(rt: &impl Print, said: &str, start: f64, clear_first: bool) -> io::Result<()> {
    let odds = voted(start, clear_first).map(Odds);
    println!(rt; "  {said}: {}", Answered(odds))
}

// A sample of the map 2 by 2 with odds 0, 1, 2, 3.
fn sample(rt: &impl Print, said: &str, point: Point2) -> io::Result<()> {
    let map = map_of(Extents2 { x: 2, y: 2 }, 2);
    let found = map
        .sample_log_odds(&[0.0, 1.0, 2.0, 3.0], point)
        .map(Sample);
    println!(rt; "  {said}: {}", Answered(found))
}

fn containing(rt: &impl Print, said: &str, point: Point2) -> io::Result<()> {
    let map = map_of(Extents2 { x: 10, y: 8 }, 2);
    let cell = map.cell_containing(point).map(Cell);
    println!(rt; "  {said}: {}", Answered(cell))
}

// Opening a sweep of a map 2 by 2 whose stamps are all 9.
fn opening(rt: &impl Print, said: &str, frame: u32) -> io::Result<()> {
    let mut stamps = [9u32; 4];
    let map = map_of(Extents2 { x: 2, y: 2 }, frame);
    let next = map.begin_scan(&mut stamps).map(|map| map.frame.0);
    println!(rt; "  {said}: {}, first stamp {}", Answered(next), stamps[0])
}

pub(crate) fn votes_on_one_cell(rt: &impl Print) -> io::Result<()> {
    println!(rt; "Votes on one cell")?;
    vote(rt, "-3.75, clear then cloud [-3.25]", -3.75, true)?;
    vote(rt, "-3.75, cloud alone [-3.00]", -3.75, false)?;
    vote(rt, "-2, clear then cloud [-1.25]", -2.0, true)?;
    vote(rt, "-2, cloud alone [-1.25]", -2.0, false)
}

pub(crate) fn samples(rt: &impl Print) -> io::Result<()> {
    println!(rt; "Samples of 2 by 2, odds 0, 1, 2, 3")?;
    sample(rt, "at (0.5,0.5) [1.5, gradient (1,2)]", at(0.5, 0.5))?;
    sample(rt, "at (1,1) [3, gradient (1,2)]", at(1.0, 1.0))?;
    sample(rt, "at (1.25,0) [nothing]", at(1.25, 0.0))
}

pub(crate) fn places(rt: &impl Print) -> io::Result<()> {
    println!(rt; "The cell that contains a point, on 10 by 8")?;
    containing(rt, "x -0.5 [5 with index 0]", at(-0.5, 0.0))?;
    containing(rt, "x 10 [5 with index 10]", at(10.0, 0.0))
}

pub(crate) fn openings(rt: &impl Print) -> io::Result<()> {
    println!(rt; "Opening a sweep")?;
    opening(rt, "frame 2147483646 [2147483647]", 2_147_483_646)?;
    opening(rt, "frame 2147483647 [clears, and 1]", 2_147_483_647)
}
