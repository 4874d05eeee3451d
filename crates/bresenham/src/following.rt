// The cell of an axis as a whole number beside its coordinate: where the coordinate steps on by 1.0, the cell steps on
// by one, and nothing has to be truncated. Right as long as rounding cannot carry the coordinate across a face:
// `floats` says from where on.
ghost use Rattle.std.specs.Prelude.{◌≤◌};
ghost use Rattle.std.specs.Float.{binary64};
ghost use Rattle.std.specs.Float.Ieee.{add};
ghost use Rattle.rules.specs.TheLine as TheLine;
ghost use Rattle.rules.specs.TheGridAndItsBounds.{most_extent};
ghost use Rattle.laws.specs.Floats.Inside.{Inside, Followed};
ghost use Rattle.laws.specs.Following.{WholeStep, current_after};
ghost use Rattle.bresenham.specs.Axes.{axis};

use crate::axis::{Axis, moves};
use floats::NOT_FOLLOWED;

// The cell of each axis.
#[derive(Clone, Copy)]
pub struct Cells2 {
    pub x: u64,
    pub y: u64,
}

#[derive(Clone, Copy)]
pub struct Cells3 {
    pub x: u64,
    pub y: u64,
    pub z: u64,
}

// The cell one step on, up or down. Below cell 0 a coordinate is no longer followed. The cell is one of a grid's, and
// the coordinate in it: the walk has tested the one and keeps the other.
fn cell_beside(cell: u64, current: f64, step: f64) -> u64
    requires on_a_map { cell ≤ most_extent }
    requires inside { Inside binary64 cell current }
    requires whole_step { WholeStep step }
    ensures { Followed binary64 result (add binary64 current step) }
{
    if step > 0.0 {
        return cell + 1;
    }
    if cell == 0 {
        return NOT_FOLLOWED;
    }
    cell - 1
}

// The cell of axis number `k` after a step of the line; cell and coordinate as above.
pub fn cell_after(cell: u64, a: Axis, k: u64, primary: u64, threshold: f64) -> u64
    requires on_a_map { cell ≤ most_extent }
    requires inside { Inside binary64 cell a.current }
    requires whole_step { WholeStep a.step }
    ensures { Followed binary64 result (current_after binary64 k primary threshold (axis a)) }
{
    let beside = cell_beside(cell, a.current, a.step);
    if moves(a, k, primary, threshold) {
        return beside;
    }
    cell
}
