// One beam on the figures' map, and the cells that it marked.
use crate::shown::{Answered, Count};
use crate::{at, opened};
use scan::ScanUpdater;
use std::io;
use types::{Point2, RayTermination, Refusal, ScanBeam2};

fn updated(odds: &mut [f64], stamps: &mut [u32], beam: ScanBeam2) -> Result<u64, Refusal> {
    let map = opened(odds, stamps)?;
    ScanUpdater { map }.update_ray(odds, stamps, beam)
}

// The cells that bear frame 2, with their odds and stamps.
fn marked_cells(rt: &impl Print, odds: &[f64], stamps: &[u32]) -> io::Result<()> {
    for (i, (x, stamp)) in odds.iter().zip(stamps).enumerate() {
        if *stamp >= 4 {
            print!(rt; " ({},{}) {x:.2} stamp {stamp};", i % 10, i / 10)?;
        }
    }
    Ok(())
}

fn hit(rt: &impl Print, said: &str, origin: Point2, endpoint: Point2) -> io::Result<()> {
    let mut odds = [0.0f64; 80];
    let mut stamps = [0u32; 80];
    let beam = ScanBeam2 {
        origin,
        endpoint,
        termination: RayTermination::HIT,
    };
    let count = updated(&mut odds, &mut stamps, beam).map(Count);
    print!(rt; "  Hit {said}: {}", Answered(count))?;
    marked_cells(rt, &odds, &stamps)?;
    println!(rt; "")
}

pub(crate) fn hits(rt: &impl Print) -> io::Result<()> {
    println!(rt; "Beams on 10 by 8")?;
    let figures = [
        (
            "(0.5,0.5) to (4.5,0.5) [count 5]",
            at(0.5, 0.5),
            at(4.5, 0.5),
        ),
        (
            "(0.5,0.5) to (14.5,0.5) [count 10, all free]",
            at(0.5, 0.5),
            at(14.5, 0.5),
        ),
        (
            "(7.5,0.5) to (10,0.5) [count 3, all free]",
            at(7.5, 0.5),
            at(10.0, 0.5),
        ),
        ("(12,4) to (10,4) [0]", at(12.0, 4.0), at(10.0, 4.0)),
        (
            "(0,0.5) to (2-2^-52,0.5) [count 3, cell 1 at 0.75]",
            at(0.0, 0.5),
            at(1.9999999999999998, 0.5),
        ),
    ];
    for (said, origin, endpoint) in figures {
        hit(rt, said, origin, endpoint)?;
    }
    hits_from_far(rt)
}

// Beams whose origin lies far outside the map.
fn hits_from_far(rt: &impl Print) -> io::Result<()> {
    let figures = [
        (
            "(-1e16,2.5) to (5.3,2.5) [count 7, occupied at (6,2)]",
            at(-1e16, 2.5),
            at(5.3, 2.5),
        ),
        (
            "(-1e308,1) to (1e308,1) [7]",
            at(-1e308, 1.0),
            at(1e308, 1.0),
        ),
        (
            "(-1e308,9) to (1e308,9) [0]",
            at(-1e308, 9.0),
            at(1e308, 9.0),
        ),
    ];
    for (said, origin, endpoint) in figures {
        hit(rt, said, origin, endpoint)?;
    }
    Ok(())
}
