// The answers that hold a place on a map of three axes. Where a call is refused, what was asked for is 0 throughout; a
// map of zeros is one that every entry refuses with 1.
ghost use Rattle.std.specs.Prelude.{◌≡◌};
ghost use Rattle.types.specs.Answers.{answer_of, cell_answer3, sample_read3, sample_answer3};
ghost use Rattle.grid_map.specs.Heads.{head3, loaded_of};
ghost use Rattle.c_types.specs.Answers.{c_map3, c_load3, c_cell3, c_sample_read3, c_sample3};

use crate::heads::CMap3;
use crate::refusals::{CRefusal, bare};
use grid_map::{GridMap3, Loaded};
use types::{Bands, Cell3, Cuts, Extents3, Frame, MapSample3, Pair, Refusal, Vector3};

// A map's head.
#[repr(C)]
#[derive(Clone, Copy)]
pub struct CMapAnswer3 {
    pub refusal: CRefusal,
    pub map: CMap3,
}

// A map's head, and whether its sweep is open.
#[repr(C)]
#[derive(Clone, Copy)]
pub struct CLoadAnswer3 {
    pub refusal: CRefusal,
    pub map: CMap3,
    pub running: bool,
}

// The cell that contains a point.
#[repr(C)]
#[derive(Clone, Copy)]
pub struct CCellAnswer3 {
    pub refusal: CRefusal,
    pub cell: Cell3,
}

// An interpolated value and its gradient; none was found off the stencils' domain.
#[repr(C)]
#[derive(Clone, Copy)]
pub struct CSampleAnswer3 {
    pub refusal: CRefusal,
    pub found: bool,
    pub sample: MapSample3,
}

const NO_PAIR: Pair = Pair {
    occupied: 0.0,
    free: 0.0,
};

const NO_MAP: CMap3 = CMap3 {
    extents: Extents3 { x: 0, y: 0, z: 0 },
    bands: Bands {
        low: NO_PAIR,
        middle: NO_PAIR,
        high: NO_PAIR,
        ceiling: 0.0,
        cuts: Cuts {
            first: 0,
            second: 0,
        },
    },
    frame: Frame(0),
};

const NO_SAMPLE: MapSample3 = MapSample3 {
    value: 0.0,
    gradient: Vector3 {
        x: 0.0,
        y: 0.0,
        z: 0.0,
    },
};

impl From<Result<GridMap3, Refusal>> for CMapAnswer3 {
    ghost from_gives = { λ answer result. result ≡ c_map3 (answer_of head3 answer) };

    fn from(answer: Result<GridMap3, Refusal>) -> CMapAnswer3 {
        match answer {
            Ok(map) => CMapAnswer3 {
                refusal: bare(0),
                map: CMap3::from(map),
            },
            Err(r) => CMapAnswer3 {
                refusal: CRefusal::from(r),
                map: NO_MAP,
            },
        }
    }
}

impl From<Result<Loaded<GridMap3>, Refusal>> for CLoadAnswer3 {
    ghost from_gives = { λ answer result. result ≡ c_load3 (answer_of (loaded_of head3) answer) };

    fn from(answer: Result<Loaded<GridMap3>, Refusal>) -> CLoadAnswer3 {
        match answer {
            Ok(loaded) => CLoadAnswer3 {
                refusal: bare(0),
                map: CMap3::from(loaded.map),
                running: loaded.running,
            },
            Err(r) => CLoadAnswer3 {
                refusal: CRefusal::from(r),
                map: NO_MAP,
                running: false,
            },
        }
    }
}

impl From<Result<Cell3, Refusal>> for CCellAnswer3 {
    ghost from_gives = { λ answer result. result ≡ c_cell3 (cell_answer3 answer) };

    fn from(answer: Result<Cell3, Refusal>) -> CCellAnswer3 {
        match answer {
            Ok(cell) => CCellAnswer3 {
                refusal: bare(0),
                cell,
            },
            Err(r) => CCellAnswer3 {
                refusal: CRefusal::from(r),
                cell: Cell3 { x: 0, y: 0, z: 0 },
            },
        }
    }
}

// What was sampled, where the call was answered.
impl From<Option<MapSample3>> for CSampleAnswer3 {
    ghost from_gives = { λ read result. result ≡ c_sample_read3 (sample_read3 read) };

    fn from(read: Option<MapSample3>) -> CSampleAnswer3 {
        match read {
            Some(sample) => CSampleAnswer3 {
                refusal: bare(0),
                found: true,
                sample,
            },
            None => CSampleAnswer3 {
                refusal: bare(0),
                found: false,
                sample: NO_SAMPLE,
            },
        }
    }
}

impl From<Result<Option<MapSample3>, Refusal>> for CSampleAnswer3 {
    ghost from_gives = { λ answer result. result ≡ c_sample3 (sample_answer3 answer) };

    fn from(answer: Result<Option<MapSample3>, Refusal>) -> CSampleAnswer3 {
        match answer {
            Ok(read) => CSampleAnswer3::from(read),
            Err(r) => CSampleAnswer3 {
                refusal: CRefusal::from(r),
                found: false,
                sample: NO_SAMPLE,
            },
        }
    }
}
