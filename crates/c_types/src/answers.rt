// The answers that are the same for two and three axes. Where a call is refused, what was asked for is 0.
ghost use Rattle.std.specs.Prelude.{◌≡◌};
ghost use Rattle.types.specs.Answers.{mark_answer, count_answer, sweep_answer, move_answer, set_answer, cell_read, odds_answer};
ghost use Rattle.c_types.specs.Answers.{c_mark, c_count, c_sweep, c_move, c_set, c_read, c_odds};

use crate::refusals::{CRefusal, bare};
use types::{Cuts, Moved, Refusal, Swept};

// Whether a mark changed the cell.
#[repr(C)]
#[derive(Clone, Copy)]
pub struct CMarkAnswer {
    pub refusal: CRefusal,
    pub changed: bool,
}

// How many marks changed a cell, or how many bytes were written.
#[repr(C)]
#[derive(Clone, Copy)]
pub struct CCountAnswer {
    pub refusal: CRefusal,
    pub count: u64,
}

// The station that mailed a sweep, and how many marks changed a cell.
#[repr(C)]
#[derive(Clone, Copy)]
pub struct CSweepAnswer {
    pub refusal: CRefusal,
    pub station: u16,
    pub count: u64,
}

// How many bytes a record moved back to edition 1 has, and the cuts, which it has not.
#[repr(C)]
#[derive(Clone, Copy)]
pub struct CMoveAnswer {
    pub refusal: CRefusal,
    pub count: u64,
    pub cuts: Cuts,
}

// A cell's odds; none were found off the grid.
#[repr(C)]
#[derive(Clone, Copy)]
pub struct COddsAnswer {
    pub refusal: CRefusal,
    pub found: bool,
    pub odds: f64,
}

const NO_CUTS: Cuts = Cuts {
    first: 0,
    second: 0,
};

impl From<Result<bool, Refusal>> for CMarkAnswer {
    ghost from_gives = { λ answer result. result ≡ c_mark (mark_answer answer) };

    fn from(answer: Result<bool, Refusal>) -> CMarkAnswer {
        match answer {
            Ok(changed) => CMarkAnswer {
                refusal: bare(0),
                changed,
            },
            Err(r) => CMarkAnswer {
                refusal: CRefusal::from(r),
                changed: false,
            },
        }
    }
}

impl From<Result<u64, Refusal>> for CCountAnswer {
    ghost from_gives = { λ answer result. result ≡ c_count (count_answer answer) };

    fn from(answer: Result<u64, Refusal>) -> CCountAnswer {
        match answer {
            Ok(count) => CCountAnswer {
                refusal: bare(0),
                count,
            },
            Err(r) => CCountAnswer {
                refusal: CRefusal::from(r),
                count: 0,
            },
        }
    }
}

impl From<Result<Swept, Refusal>> for CSweepAnswer {
    ghost from_gives = { λ answer result. result ≡ c_sweep (sweep_answer answer) };

    fn from(answer: Result<Swept, Refusal>) -> CSweepAnswer {
        match answer {
            Ok(swept) => CSweepAnswer {
                refusal: bare(0),
                station: swept.station,
                count: swept.count,
            },
            Err(r) => CSweepAnswer {
                refusal: CRefusal::from(r),
                station: 0,
                count: 0,
            },
        }
    }
}

impl From<Result<Moved, Refusal>> for CMoveAnswer {
    ghost from_gives = { λ answer result. result ≡ c_move (move_answer answer) };

    fn from(answer: Result<Moved, Refusal>) -> CMoveAnswer {
        match answer {
            Ok(Moved { size, cuts }) => CMoveAnswer {
                refusal: bare(0),
                count: size,
                cuts,
            },
            Err(r) => CMoveAnswer {
                refusal: CRefusal::from(r),
                count: 0,
                cuts: NO_CUTS,
            },
        }
    }
}

impl From<Result<(), Refusal>> for CRefusal {
    ghost from_gives = { λ answer result. result ≡ c_set (set_answer answer) };

    fn from(answer: Result<(), Refusal>) -> CRefusal {
        match answer {
            Ok(()) => bare(0),
            Err(r) => CRefusal::from(r),
        }
    }
}

// What was read of a cell, where the call was answered.
impl From<Option<f64>> for COddsAnswer {
    ghost from_gives = { λ read result. result ≡ c_read (cell_read read) };

    fn from(read: Option<f64>) -> COddsAnswer {
        match read {
            Some(odds) => COddsAnswer {
                refusal: bare(0),
                found: true,
                odds,
            },
            None => COddsAnswer {
                refusal: bare(0),
                found: false,
                odds: 0.0,
            },
        }
    }
}

impl From<Result<Option<f64>, Refusal>> for COddsAnswer {
    ghost from_gives = { λ answer result. result ≡ c_odds (odds_answer answer) };

    fn from(answer: Result<Option<f64>, Refusal>) -> COddsAnswer {
        match answer {
            Ok(read) => COddsAnswer::from(read),
            Err(r) => COddsAnswer {
                refusal: CRefusal::from(r),
                found: false,
                odds: 0.0,
            },
        }
    }
}
