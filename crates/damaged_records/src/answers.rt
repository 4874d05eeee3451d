// What reading a record of edition 2 answers. Before each reading the lent lists hold 9 throughout. Where it is refused
// they have to hold 9 still; where it is read, the map written again has to give the bytes that were read.
ghost use Rattle.std.specs.Prelude.{◌≤◌};

use crate::lists::Lists;
use crate::record::ROOM;
use edition_reader::{Loads, read_edition2_record};
use edition_writer::{Stores, write_edition2_record};
use grid_map::Loaded;
use std::fmt;
use types::{Extents2, Extents3, Refusal};

#[derive(Clone, Copy, PartialEq, Eq)]
pub enum Answer {
    Closed,
    Open,
    OtherBytes,
    OtherRefusal,
    ListsChanged,
    // 10 at this offset
    Broken { offset: u64 },
}

impl fmt::Display for Answer {
    fn fmt<W: fmt::Write>(&self, f: &mut fmt::Formatter<W>) -> fmt::Result {
        match self {
            Answer::Closed => write!(f, "closed"),
            Answer::Open => write!(f, "open"),
            Answer::OtherBytes => write!(f, "OTHER BYTES"),
            Answer::OtherRefusal => write!(f, "OTHER REFUSAL"),
            Answer::ListsChanged => write!(f, "LISTS CHANGED"),
            Answer::Broken { offset } => write!(f, "broken at {offset}"),
        }
    }
}

// A reader of so many axes, to which lists of the size of its map are lent.
pub trait Reader: Loads + Stores {
    fn answer(bytes: &[u8]) -> Answer;
}

impl Reader for Extents2 {
    fn answer(bytes: &[u8]) -> Answer {
        read::<Extents2, 4>(bytes)
    }
}

impl Reader for Extents3 {
    fn answer(bytes: &[u8]) -> Answer {
        read::<Extents3, 12>(bytes)
    }
}

fn read<E: Loads + Stores, const CELLS: usize>(bytes: &[u8]) -> Answer
    requires few { CELLS ≤ 12 }
{
    let mut lists = Lists::<CELLS>::nines();
    match read_edition2_record::<E>(bytes, &mut lists.odds, &mut lists.stamps) {
        Ok(Loaded { map, running }) => {
            let mut out = [0u8; ROOM];
            let size = write_edition2_record(map, running, &lists.odds, &lists.stamps, &mut out);
            of_read(size, running, bytes, &out)
        }
        Err(_) if !lists.are_nines() => Answer::ListsChanged,
        Err(Refusal::Record { offset }) => Answer::Broken { offset },
        Err(_) => Answer::OtherRefusal,
    }
}

fn of_read(size: Result<u64, Refusal>, running: bool, bytes: &[u8], out: &[u8]) -> Answer {
    if size != Ok(bytes.len() as u64) || out.get(..bytes.len()) != Some(bytes) {
        Answer::OtherBytes
    } else if running {
        Answer::Open
    } else {
        Answer::Closed
    }
}
