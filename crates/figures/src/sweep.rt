// A sweep of four beams as one flat list, and a picture of the odds that it leaves.
use crate::opened;
use crate::shown::{Answered, Count};
use scan::ScanUpdater;
use std::io;
use types::Refusal;

// Four beams from one station in the corner, as one flat list.
const NUMBERS: [f64; 16] = [
    0.5, 0.5, 9.5, 0.5, 0.5, 0.5, 8.5, 3.5, 0.5, 0.5, 5.5, 5.5, 0.5, 0.5, 1.5, 12.0,
];

const HITS: [u8; 4] = [0, 1, 1, 0];

fn updated(odds: &mut [f64], stamps: &mut [u32]) -> Result<u64, Refusal> {
    let map = opened(odds, stamps)?;
    ScanUpdater { map }.update_scan(odds, stamps, &NUMBERS, &HITS)
}

// A cell of the picture: cloud, clear or unknown.
fn dot(x: f64) -> char {
    if x > 0.0 {
        '#'
    } else if x < 0.0 {
        '.'
    } else {
        ' '
    }
}

// The cells in the order of the lists, a row along x to a line.
fn picture(rt: &impl Print, odds: &[f64]) -> io::Result<()> {
    for row in odds.chunks(10) {
        for x in row {
            print!(rt; "{}", dot(*x))?;
        }
        println!(rt; "|")?;
    }
    Ok(())
}

pub(crate) fn sweep(rt: &impl Print) -> io::Result<()> {
    let mut odds = [0.0f64; 80];
    let mut stamps = [0u32; 80];
    println!(rt;
        "A sweep of four beams from (0.5,0.5): to (9.5,0.5) and (1.5,12) they ran out, at (8.5,3.5) \
        and (5.5,5.5) they hit."
    )?;
    println!(rt; "# cloud, . clear; y downwards")?;
    let count = updated(&mut odds, &mut stamps).map(Count);
    println!(rt; " {}", Answered(count))?;
    picture(rt, &odds)
}
