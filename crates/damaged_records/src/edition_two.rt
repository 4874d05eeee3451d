// The records of edition 2 that are damaged: of a map of 2 by 2 and of one of 2 by 2 by 3, each closed and open.
use crate::MODEL;
use crate::answers::Reader;
use crate::damage::{Damage, every_field_damaged, every_field_exchanged};
use crate::record::{ROOM, Record};
use edition_writer::write_edition2_record;
use grid_map::{GridMap, GridMap2, GridMap3};
use std::io;
use types::{Bands, Cuts, Extents2, Extents3, Frame, Pair};

const HEADING: &str = "
Edition 2. A line has the damages to one field in turn: how many have an answer, and
the answer, which is closed or open where the record is read, and the offset of 10
where it is broken. Where it was refused the lists are as they were, and where it
was read the map written again gives the bytes that were read: else the answer is in
capitals.
";

const BANDS: Bands = Bands {
    low: Pair {
        occupied: 0.75,
        free: -0.5,
    },
    middle: Pair {
        occupied: 0.5,
        free: -0.25,
    },
    high: Pair {
        occupied: 0.25,
        free: -0.125,
    },
    ceiling: 4.0,
    cuts: Cuts {
        first: 1,
        second: 2,
    },
};

// As it is, then each kind of damage. The reader of the other number of axes stops at the extents.
fn every_damage<E: Reader, Other: Reader>(rt: &impl Print, record: &Record) -> io::Result<()> {
    println!(rt; "As written: {}", E::answer(record.whole()))?;
    println!(rt; "One byte more: {}", E::answer(record.one_byte_more()))?;
    println!(rt;
        "By the reader of the other number of axes: {}",
        Other::answer(record.whole())
    )?;
    let damages = [
        ("Cut before each byte", Damage::Cut),
        ("All bits of each byte exchanged", Damage::Bits(255)),
        ("The lowest bit of each byte exchanged", Damage::Bits(1)),
        ("The highest bit of each byte exchanged", Damage::Bits(128)),
    ];
    for (title, damage) in damages {
        println!(rt; "{title}")?;
        every_field_damaged::<E>(rt, record, damage)?;
    }
    println!(rt; "Neighbouring fields exchanged")?;
    every_field_exchanged::<E>(rt, record)
}

// The map's record, closed or open.
fn damaged<E: Reader, Other: Reader>(
    rt: &impl Print,
    map: GridMap<E, E::Model>,
    running: bool,
    odds: &[f64],
    stamps: &[u32],
) -> io::Result<()> {
    let mut bytes = [0u8; ROOM];
    match write_edition2_record(map, running, odds, stamps, &mut bytes) {
        Ok(size) if size < ROOM as u64 => {
            println!(rt; "{size} bytes.")?;
            let size = size as usize;
            every_damage::<E, Other>(rt, &Record { bytes, size })
        }
        _ => println!(rt; "NOT WRITTEN"),
    }
}

fn state(running: bool) -> &'static str {
    if running { "open" } else { "closed" }
}

fn record2(rt: &impl Print, running: bool) -> io::Result<()> {
    let map = GridMap2 {
        extents: Extents2 { x: 2, y: 2 },
        model: MODEL,
        frame: Frame(258),
    };
    let odds = [0.0f64, 1.0, 2.0, 3.0];
    let stamps = [0u32, 517, 516, 3];
    print!(rt; "\nThe {} record of a map of 2 by 2 has ", state(running))?;
    damaged::<Extents2, Extents3>(rt, map, running, &odds, &stamps)
}

// Odds from the floor to the ceiling.
fn record3(rt: &impl Print, running: bool) -> io::Result<()> {
    let map = GridMap3 {
        extents: Extents3 { x: 2, y: 2, z: 3 },
        model: BANDS,
        frame: Frame(258),
    };
    let odds = [
        -4.0f64, 4.0, 0.0, 1.0, -1.0, 0.5, 3.0, -3.0, 2.0, -2.0, 0.25, -0.25,
    ];
    let stamps = [0u32, 517, 516, 3, 2, 1, 256, 257, 511, 512, 513, 515];
    print!(rt;
        "\nThe {} record of a map of 2 by 2 by 3 has ",
        state(running)
    )?;
    damaged::<Extents3, Extents2>(rt, map, running, &odds, &stamps)
}

pub fn edition_two(rt: &impl Print) -> io::Result<()> {
    rt.print(HEADING)?;
    for running in [false, true] {
        record2(rt, running)?;
    }
    for running in [false, true] {
        record3(rt, running)?;
    }
    Ok(())
}
