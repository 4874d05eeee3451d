// The record of the requirements' map of 2 by 2, cut at every length, and with each of its bytes changed in turn.
use crate::MODEL;
use crate::lists::Lists;
use grid_map::GridMap2;
use record_reader::read_record;
use record_writer::write_record;
use std::{fmt, io};
use types::{Extents2, Frame, Refusal};

const SIZE: usize = 82;

#[derive(Clone, Copy)]
struct Refused(Refusal);

impl fmt::Display for Refused {
    fn fmt<W: fmt::Write>(&self, f: &mut fmt::Formatter<W>) -> fmt::Result {
        match self.0 {
            Refusal::Record { offset } => write!(f, "refused 10, offset {offset}"),
            Refusal::Room { needed } => write!(f, "refused 11, needs {needed}"),
            _ => write!(f, "refused otherwise"),
        }
    }
}

// What reading answers, and of a refusal whether the lent lists are as they were.
#[derive(Clone, Copy)]
enum Reading {
    Read,
    Refused { refusal: Refusal, kept: bool },
}

impl fmt::Display for Reading {
    fn fmt<W: fmt::Write>(&self, f: &mut fmt::Formatter<W>) -> fmt::Result {
        match *self {
            Reading::Read => write!(f, "read"),
            Reading::Refused { refusal, kept } => {
                let said = if kept {
                    "lists as they were"
                } else {
                    "LISTS CHANGED"
                };
                write!(f, "{}, {said}", Refused(refusal))
            }
        }
    }
}

fn read(bytes: &[u8]) -> Reading {
    let mut lists = Lists::<4>::nines();
    match read_record::<Extents2>(bytes, (), &mut lists.odds, &mut lists.stamps) {
        Ok(_) => Reading::Read,
        Err(refusal) => Reading::Refused {
            refusal,
            kept: lists.are_nines(),
        },
    }
}

fn cut_at_every_length(rt: &impl Print, bytes: &[u8]) -> io::Result<()> {
    for length in 0..bytes.len() {
        println!(rt; "  cut to {length}: {}", read(&bytes[..length]))?;
    }
    Ok(())
}

// All bits of one byte exchanged.
fn every_byte_changed(rt: &impl Print, bytes: &[u8; SIZE]) -> io::Result<()> {
    for at in 0..SIZE {
        let mut copy = *bytes;
        copy[at] ^= 255;
        println!(rt; "  byte {at}: {}", read(&copy))?;
    }
    Ok(())
}

// The first odds number, 0.0, made a NaN, as a damaged card may leave it.
fn with_a_nan(bytes: &[u8; SIZE]) -> [u8; SIZE] {
    let mut copy = *bytes;
    copy[50] = 248;
    copy[51] = 127;
    copy
}

fn damaged(rt: &impl Print, bytes: &[u8; SIZE]) -> io::Result<()> {
    println!(rt; "As written: {}", read(bytes))?;
    println!(rt; "Cut at every length")?;
    cut_at_every_length(rt, bytes)?;
    println!(rt; "Every byte changed in turn")?;
    every_byte_changed(rt, bytes)?;
    println!(rt; "An odds number made NaN: {}", read(&with_a_nan(bytes)))?;
    println!(rt; "As written: {}", read(bytes))
}

pub fn edition_one(rt: &impl Print) -> io::Result<()> {
    let map = GridMap2 {
        extents: Extents2 { x: 2, y: 2 },
        model: MODEL,
        frame: Frame(1),
    };
    let mut bytes = [0u8; SIZE];
    match write_record(map, &[0.0, 1.0, 2.0, 3.0], &mut bytes) {
        Ok(size) => {
            println!(rt; "The record of a map of 2 by 2 has {size} bytes.")?;
            damaged(rt, &bytes)
        }
        Err(r) => print!(rt; "{}", Refused(r)),
    }
}
