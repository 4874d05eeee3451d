// The answers that hold a place on a map of two axes. Where a call is refused, what was asked for is 0 throughout; a
// map of zeros is one that every entry refuses with 1.
ghost use Rattle.std.specs.Prelude.{◌≡◌};
ghost use Rattle.types.specs.Answers.{answer_of, cell_answer2, sample_read2, sample_answer2};
ghost use Rattle.grid_map.specs.Heads.{head2, loaded_of};
ghost use Rattle.c_types.specs.Answers.{c_map2, c_load2, c_cell2, c_sample_read2, c_sample2};

use crate::heads::CMap2;
use crate::refusals::{CRefusal, bare};
use grid_map::{GridMap2, Loaded};
use types::{Cell2, Extents2, Frame, MapSample2, Model, Refusal, Vector2};

// A map's head.
#[repr(C)]
#[derive(Clone, Copy)]
pub struct CMapAnswer2 {
    pub refusal: CRefusal,
    pub map: CMap2,
}

// A map's head, and whether its sweep is open.
#[repr(C)]
#[derive(Clone, Copy)]
pub struct CLoadAnswer2 {
    pub refusal: CRefusal,
    pub map: CMap2,
    pub running: bool,
}

// The cell that contains a point.
#[repr(C)]
#[derive(Clone, Copy)]
pub struct CCellAnswer2 {
    pub refusal: CRefusal,
    pub cell: Cell2,
}

// An interpolated value and its gradient; none was found off the stencils' domain.
#[repr(C)]
#[derive(Clone, Copy)]
pub struct CSampleAnswer2 {
    pub refusal: CRefusal,
    pub found: bool,
    pub sample: MapSample2,
}

const NO_MAP: CMap2 = CMap2 {
    extents: Extents2 { x: 0, y: 0 },
    model: Model {
        occupied: 0.0,
        free: 0.0,
        ceiling: 0.0,
    },
    frame: Frame(0),
};

const NO_SAMPLE: MapSample2 = MapSample2 {
    value: 0.0,
    gradient: Vector2 { x: 0.0, y: 0.0 },
};

impl From<Result<GridMap2, Refusal>> for CMapAnswer2 {
    ghost from_gives = { λ answer result. result ≡ c_map2 (answer_of head2 answer) };

    fn from(answer: Result<GridMap2, Refusal>) -> CMapAnswer2 {
        match answer {
            Ok(map) => CMapAnswer2 {
                refusal: bare(0),
                map: CMap2::from(map),
            },
            Err(r) => CMapAnswer2 {
                refusal: CRefusal::from(r),
                map: NO_MAP,
            },
        }
    }
}

impl From<Result<Loaded<GridMap2>, Refusal>> for CLoadAnswer2 {
    ghost from_gives = { λ answer result. result ≡ c_load2 (answer_of (loaded_of head2) answer) };

    fn from(answer: Result<Loaded<GridMap2>, Refusal>) -> CLoadAnswer2 {
        match answer {
            Ok(loaded) => CLoadAnswer2 {
                refusal: bare(0),
                map: CMap2::from(loaded.map),
                running: loaded.running,
            },
            Err(r) => CLoadAnswer2 {
                refusal: CRefusal::from(r),
                map: NO_MAP,
                running: false,
            },
        }
    }
}

impl From<Result<Cell2, Refusal>> for CCellAnswer2 {
    ghost from_gives = { λ answer result. result ≡ c_cell2 (cell_answer2 answer) };

    fn from(answer: Result<Cell2, Refusal>) -> CCellAnswer2 {
        match answer {
            Ok(cell) => CCellAnswer2 {
                refusal: bare(0),
                cell,
            },
            Err(r) => CCellAnswer2 {
                refusal: CRefusal::from(r),
                cell: Cell2 { x: 0, y: 0 },
            },
        }
    }
}

// What was sampled, where the call was answered.
impl From<Option<MapSample2>> for CSampleAnswer2 {
    ghost from_gives = { λ read result. result ≡ c_sample_read2 (sample_read2 read) };

    fn from(read: Option<MapSample2>) -> CSampleAnswer2 {
        match read {
            Some(sample) => CSampleAnswer2 {
                refusal: bare(0),
                found: true,
                sample,
            },
            None => CSampleAnswer2 {
                refusal: bare(0),
                found: false,
                sample: NO_SAMPLE,
            },
        }
    }
}

impl From<Result<Option<MapSample2>, Refusal>> for CSampleAnswer2 {
    ghost from_gives = { λ answer result. result ≡ c_sample2 (sample_answer2 answer) };

    fn from(answer: Result<Option<MapSample2>, Refusal>) -> CSampleAnswer2 {
        match answer {
            Ok(read) => CSampleAnswer2::from(read),
            Err(r) => CSampleAnswer2 {
                refusal: CRefusal::from(r),
                found: false,
                sample: NO_SAMPLE,
            },
        }
    }
}
