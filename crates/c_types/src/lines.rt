// What the line plotter answers, for two and three axes.
ghost use Rattle.std.specs.Prelude.{◌≡◌};
ghost use Rattle.bresenham.specs.Lines.{plotted2, plotted3, step2, step3};
ghost use Rattle.c_types.specs.Lines.{c_line2, c_line3, c_step2, c_step3};

use crate::refusals::{CRefusal, bare};
use bresenham::{Axis, BresenhamLine2, BresenhamLine3};
use types::{Cell2, Cell3, Refusal};

// A line between two points; one of zeros, with no cell to yield, where it was refused.
#[repr(C)]
#[derive(Clone, Copy)]
pub struct CLineAnswer2 {
    pub refusal: CRefusal,
    pub line: BresenhamLine2,
}

#[repr(C)]
#[derive(Clone, Copy)]
pub struct CLineAnswer3 {
    pub refusal: CRefusal,
    pub line: BresenhamLine3,
}

// A cell and the line after it; or none, and the line as it was.
#[repr(C)]
#[derive(Clone, Copy)]
pub struct CStep2 {
    pub found: bool,
    pub cell: Cell2,
    pub line: BresenhamLine2,
}

#[repr(C)]
#[derive(Clone, Copy)]
pub struct CStep3 {
    pub found: bool,
    pub cell: Cell3,
    pub line: BresenhamLine3,
}

const NO_AXIS: Axis = Axis {
    current: 0.0,
    end: 0.0,
    increment: 0.0,
    step: 0.0,
    error: 0.0,
};

const NO_LINE2: BresenhamLine2 = BresenhamLine2 {
    x: NO_AXIS,
    y: NO_AXIS,
    primary: 0,
    threshold: 0.0,
    remaining: 0,
};

impl From<Result<BresenhamLine2, Refusal>> for CLineAnswer2 {
    ghost from_gives = { λ answer result. result ≡ c_line2 (plotted2 answer) };

    fn from(answer: Result<BresenhamLine2, Refusal>) -> CLineAnswer2 {
        match answer {
            Ok(line) => CLineAnswer2 {
                refusal: bare(0),
                line,
            },
            Err(r) => CLineAnswer2 {
                refusal: CRefusal::from(r),
                line: NO_LINE2,
            },
        }
    }
}

// The step that was taken from a line.
pub fn step2_to_c(line: BresenhamLine2, step: Option<(Cell2, BresenhamLine2)>) -> CStep2
    ensures { result ≡ c_step2 line (step2 step) }
{
    match step {
        Some((cell, rest)) => CStep2 {
            found: true,
            cell,
            line: rest,
        },
        None => CStep2 {
            found: false,
            cell: Cell2 { x: 0, y: 0 },
            line,
        },
    }
}

const NO_LINE3: BresenhamLine3 = BresenhamLine3 {
    x: NO_AXIS,
    y: NO_AXIS,
    z: NO_AXIS,
    primary: 0,
    threshold: 0.0,
    remaining: 0,
};

impl From<Result<BresenhamLine3, Refusal>> for CLineAnswer3 {
    ghost from_gives = { λ answer result. result ≡ c_line3 (plotted3 answer) };

    fn from(answer: Result<BresenhamLine3, Refusal>) -> CLineAnswer3 {
        match answer {
            Ok(line) => CLineAnswer3 {
                refusal: bare(0),
                line,
            },
            Err(r) => CLineAnswer3 {
                refusal: CRefusal::from(r),
                line: NO_LINE3,
            },
        }
    }
}

// The step that was taken from a line.
pub fn step3_to_c(line: BresenhamLine3, step: Option<(Cell3, BresenhamLine3)>) -> CStep3
    ensures { result ≡ c_step3 line (step3 step) }
{
    match step {
        Some((cell, rest)) => CStep3 {
            found: true,
            cell,
            line: rest,
        },
        None => CStep3 {
            found: false,
            cell: Cell3 { x: 0, y: 0, z: 0 },
            line,
        },
    }
}
