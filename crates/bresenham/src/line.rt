// Lines of two axes and of three. What happens along an axis is `axis`'s; a function here only joins the axes, so those
// of two and three axes differ by one call.
ghost use Rattle.bresenham.specs.Lines.{line2, line3, cells2, cells3};

use crate::axis::{Axis, Primary, axis_after, axis_of, cells_yielded, delta, larger};
use crate::following::{Cells2, Cells3, cell_after};
use crate::lines::Lines;
use floats::{cell_of, followed_cell, is_finite};
use types::{Cell2, Cell3, Extents2, Extents3, Point2, Point3, Refusal};

// A line as C sees it too: its axes, and what `lines` says of any line.
#[repr(C)]
#[derive(Clone, Copy)]
pub struct BresenhamLine2 {
    pub x: Axis,
    pub y: Axis,
    pub primary: u64,
    pub threshold: f64,
    pub remaining: u64,
}

#[repr(C)]
#[derive(Clone, Copy)]
pub struct BresenhamLine3 {
    pub x: Axis,
    pub y: Axis,
    pub z: Axis,
    pub primary: u64,
    pub threshold: f64,
    pub remaining: u64,
}

impl Lines for Extents2 {
    type Line = BresenhamLine2;

    type Cells = Cells2;

    ghost line_of = { line2 };

    ghost cells = { cells2 };

    fn longest(start: Point2, end: Point2) -> Result<Primary, Refusal> {
        let dx = delta(start.x, end.x);
        let dy = delta(start.y, end.y);
        if !is_finite(dx) {
            return Err(Refusal::Ray);
        }
        if !is_finite(dy) {
            return Err(Refusal::Ray);
        }
        Ok(larger(1, dy, larger(0, dx, Primary::NONE)))
    }

    fn between(best: Primary, start: Point2, end: Point2) -> BresenhamLine2 {
        let longest = best.delta;
        BresenhamLine2 {
            x: axis_of(longest, start.x, end.x),
            y: axis_of(longest, start.y, end.y),
            primary: best.axis,
            threshold: 1.0 - 1.0 / 3.0,
            remaining: cells_yielded(longest),
        }
    }

    fn remaining(line: BresenhamLine2) -> u64 {
        line.remaining
    }

    fn lacks_primary(line: BresenhamLine2) -> bool {
        line.primary >= 2
    }

    fn current_cell(line: BresenhamLine2) -> Cell2 {
        let x = line.x;
        let y = line.y;
        Cell2 {
            x: cell_of(x.current),
            y: cell_of(y.current),
        }
    }

    fn last_cell(line: BresenhamLine2) -> Cell2 {
        let x = line.x;
        let y = line.y;
        Cell2 {
            x: cell_of(x.end),
            y: cell_of(y.end),
        }
    }

    fn moved(line: BresenhamLine2) -> BresenhamLine2 {
        let x = line.x;
        let y = line.y;
        let primary = line.primary;
        let threshold = line.threshold;
        let remaining: u64 = line.remaining - 1;
        BresenhamLine2 {
            x: axis_after(x, 0, primary, threshold),
            y: axis_after(y, 1, primary, threshold),
            primary,
            threshold,
            remaining,
        }
    }

    fn ended(line: BresenhamLine2) -> BresenhamLine2 {
        BresenhamLine2 {
            x: line.x,
            y: line.y,
            primary: line.primary,
            threshold: line.threshold,
            remaining: 0,
        }
    }

    fn followed(line: BresenhamLine2) -> Cells2 {
        let x = line.x;
        let y = line.y;
        Cells2 {
            x: followed_cell(x.current),
            y: followed_cell(y.current),
        }
    }

    fn cells_after(now: Cells2, line: BresenhamLine2) -> Cells2 {
        Cells2 {
            x: cell_after(now.x, line.x, 0, line.primary, line.threshold),
            y: cell_after(now.y, line.y, 1, line.primary, line.threshold),
        }
    }
}

impl Lines for Extents3 {
    type Line = BresenhamLine3;

    type Cells = Cells3;

    ghost line_of = { line3 };

    ghost cells = { cells3 };

    fn longest(start: Point3, end: Point3) -> Result<Primary, Refusal> {
        let dx = delta(start.x, end.x);
        let dy = delta(start.y, end.y);
        let dz = delta(start.z, end.z);
        if !is_finite(dx) {
            return Err(Refusal::Ray);
        }
        if !is_finite(dy) {
            return Err(Refusal::Ray);
        }
        if !is_finite(dz) {
            return Err(Refusal::Ray);
        }
        Ok(larger(2, dz, larger(1, dy, larger(0, dx, Primary::NONE))))
    }

    fn between(best: Primary, start: Point3, end: Point3) -> BresenhamLine3 {
        let longest = best.delta;
        BresenhamLine3 {
            x: axis_of(longest, start.x, end.x),
            y: axis_of(longest, start.y, end.y),
            z: axis_of(longest, start.z, end.z),
            primary: best.axis,
            threshold: 1.0 - 1.0 / 4.0,
            remaining: cells_yielded(longest),
        }
    }

    fn remaining(line: BresenhamLine3) -> u64 {
        line.remaining
    }

    fn lacks_primary(line: BresenhamLine3) -> bool {
        line.primary >= 3
    }

    fn current_cell(line: BresenhamLine3) -> Cell3 {
        let x = line.x;
        let y = line.y;
        let z = line.z;
        Cell3 {
            x: cell_of(x.current),
            y: cell_of(y.current),
            z: cell_of(z.current),
        }
    }

    fn last_cell(line: BresenhamLine3) -> Cell3 {
        let x = line.x;
        let y = line.y;
        let z = line.z;
        Cell3 {
            x: cell_of(x.end),
            y: cell_of(y.end),
            z: cell_of(z.end),
        }
    }

    fn moved(line: BresenhamLine3) -> BresenhamLine3 {
        let x = line.x;
        let y = line.y;
        let z = line.z;
        let primary = line.primary;
        let threshold = line.threshold;
        let remaining: u64 = line.remaining - 1;
        BresenhamLine3 {
            x: axis_after(x, 0, primary, threshold),
            y: axis_after(y, 1, primary, threshold),
            z: axis_after(z, 2, primary, threshold),
            primary,
            threshold,
            remaining,
        }
    }

    fn ended(line: BresenhamLine3) -> BresenhamLine3 {
        BresenhamLine3 {
            x: line.x,
            y: line.y,
            z: line.z,
            primary: line.primary,
            threshold: line.threshold,
            remaining: 0,
        }
    }

    fn followed(line: BresenhamLine3) -> Cells3 {
        let x = line.x;
        let y = line.y;
        let z = line.z;
        Cells3 {
            x: followed_cell(x.current),
            y: followed_cell(y.current),
            z: followed_cell(z.current),
        }
    }

    fn cells_after(now: Cells3, line: BresenhamLine3) -> Cells3 {
        Cells3 {
            x: cell_after(now.x, line.x, 0, line.primary, line.threshold),
            y: cell_after(now.y, line.y, 1, line.primary, line.threshold),
            z: cell_after(now.z, line.z, 2, line.primary, line.threshold),
        }
    }
}
