// The questions that may change the map: each reads its words, asks the entry, and holds its answer to the list's. The
// frame and the cells afterwards are compared for all of them at once.
use crate::axes::Asked;
use crate::cells::Cells;
use crate::kinds::Kind;
use crate::words::Words;
use grid_map::GridMap;
use scan::ScanUpdater;
use types::Refusal;

// The most beams of a list, and the most numbers of one beam.
const BEAMS: usize = 8;

const NUMBERS: usize = 6;

// scan B (P P H)xB = ok COUNT, or refused 7 PLACE COUNT: a flat list, with a byte for each beam
fn scan<E: Asked>(
    words: &mut Words,
    map: GridMap<E, E::Model>,
    odds: &mut [f64],
    stamps: &mut [u32],
) {
    let beams: u64 = words.read();
    let count = beams as usize;
    if count > BEAMS {
        return words.spoil();
    }
    let each = 2 * E::AXES;
    let mut numbers = [0.0f64; BEAMS * NUMBERS];
    let mut hits = [0u8; BEAMS];
    let mut room = numbers.iter_mut();
    for hit in &mut hits[..count] {
        for x in room.by_ref().take(each) {
            *x = words.read();
        }
        *hit = u8::from(words.read::<bool>());
    }
    let sweep = ScanUpdater { map };
    words.expect_answer(sweep.update_scan(odds, stamps, &numbers[..each * count], &hits[..count]));
}

// The map that an entry answers takes the place of the one before.
fn put<M>(map: &mut M, answer: Result<M, Refusal>) -> Result<(), Refusal>
where
    M: Drop,
{
    *map = answer?;
    Ok(())
}

pub fn change<E: Asked>(
    kind: Kind,
    words: &mut Words,
    map: &mut GridMap<E, E::Model>,
    cells: &mut Cells,
) {
    let (odds, stamps) = cells.lists();
    let sweep = ScanUpdater { map: *map };
    match kind {
        // ray P P H = ok COUNT, or refused 7
        Kind::Ray => {
            let beam = words.read();
            words.expect_answer(sweep.update_ray(odds, stamps, beam));
        }
        Kind::Scan => scan(words, *map, odds, stamps),
        // free C = ok 1|0, or refused 5 AXIS INDEX EXTENT
        Kind::Free => {
            let cell = words.read();
            words.expect_answer(sweep.mark_free(odds, stamps, cell));
        }
        // occupied C, as above
        Kind::Occupied => {
            let cell = words.read();
            words.expect_answer(sweep.mark_occupied(odds, stamps, cell));
        }
        // set C X = ok, or refused 5 AXIS INDEX EXTENT
        Kind::Set => {
            let cell = words.read();
            let x = words.read();
            words.expect_answer(map.set_log_odds(odds, cell, x));
        }
        // begin = ok
        Kind::Begin => words.expect_answer(put(map, map.begin_scan(stamps))),
        // reset = ok
        Kind::Reset => words.expect_answer(put(map, map.reset(odds, stamps))),
        _ => words.spoil(),
    }
}
