// What a line does along one axis, written once for any number of axes: how an axis is set up between two coordinates,
// and how it moves. Which axes a line has, and when it ends, is left to `line`.
ghost use Rattle.std.specs.Prelude.{◌≡◌};
ghost use Rattle.std.specs.Float.{binary64};
ghost use Rattle.rules.specs.TheLine as TheLine;
ghost use Rattle.laws.specs.Following.{axis_moves};
ghost use Rattle.bresenham.specs.Axes.{axis, primary};

use floats::{chosen, count_of};

// Where the line is along an axis, where it ends, and the error that decides when it moves along it.
#[repr(C)]
#[derive(Clone, Copy)]
pub struct Axis {
    pub current: f64,
    pub end: f64,
    pub increment: f64,
    pub step: f64,
    pub error: f64,
}

// The axis along which the line moves at each step, and how far.
#[derive(Clone, Copy)]
pub struct Primary {
    pub axis: u64,
    pub delta: f64,
}

impl Primary {
    // Before any axis is looked at. Deltas are sizes, so zero is a start that any of them replaces.
    pub const NONE: Primary = Primary {
        axis: 0,
        delta: 0.0,
    };
}

// How far it is; a zero is +0, whichever way the line goes.
pub fn delta(start: f64, end: f64) -> f64
    ensures { result ≡ TheLine.delta binary64 start end }
{
    let d: f64 = end - start;
    let size = chosen(d < 0.0, -d, d);
    chosen(d == 0.0, 0.0, size)
}

// The larger of an axis and the best so far; the last of equals.
pub fn larger(k: u64, d: f64, best: Primary) -> Primary
    ensures { primary result ≡ TheLine.larger k d (primary best) }
{
    let most: f64 = best.delta;
    if d >= most {
        return Primary { axis: k, delta: d };
    }
    best
}

// What an axis adds to its error at each step; all axes stand still on a line of no length.
pub fn increment(longest: f64, d: f64) -> f64
    ensures { result ≡ TheLine.increment binary64 longest d }
{
    if longest == 0.0 {
        return 0.0;
    }
    d / longest
}

pub fn step_to(start: f64, end: f64) -> f64
    ensures { result ≡ TheLine.step_to start end }
{
    if end > start {
        return 1.0;
    }
    -1.0
}

pub fn axis_of(longest: f64, start: f64, end: f64) -> Axis
    ensures { axis result ≡ TheLine.axis_of binary64 longest start end }
{
    Axis {
        current: start,
        end,
        increment: increment(longest, delta(start, end)),
        step: step_to(start, end),
        error: 0.0,
    }
}

// How many cells a line yields.
pub fn cells_yielded(longest: f64) -> u64
    ensures { result ≡ TheLine.cells_yielded binary64 longest }
{
    count_of(longest + 1.0)
}

// An axis other than the primary: it moves when its error has reached the threshold.
fn other_after(a: Axis, threshold: f64) -> Axis
    ensures { axis result ≡ TheLine.other_after binary64 threshold (axis a) }
{
    let error: f64 = a.error + a.increment;
    if error >= threshold {
        return Axis {
            current: a.current + a.step,
            end: a.end,
            increment: a.increment,
            step: a.step,
            error: error - 1.0,
        };
    }
    Axis {
        current: a.current,
        end: a.end,
        increment: a.increment,
        step: a.step,
        error,
    }
}

// The primary axis: it moves at each step.
fn primary_after(a: Axis) -> Axis
    ensures { axis result ≡ TheLine.primary_after binary64 (axis a) }
{
    Axis {
        current: a.current + a.step,
        end: a.end,
        increment: a.increment,
        step: a.step,
        error: a.error,
    }
}

// Whether axis number `k` moves at a step: the primary always does, another where its error reaches the threshold.
pub fn moves(a: Axis, k: u64, primary: u64, threshold: f64) -> bool
    ensures { result ≡ axis_moves binary64 k primary threshold (axis a) }
{
    if k == primary {
        return true;
    }
    a.error + a.increment >= threshold
}

// Axis number `k` of a line after a step.
pub fn axis_after(a: Axis, k: u64, primary: u64, threshold: f64) -> Axis
    ensures { axis result ≡ TheLine.axis_after binary64 k primary threshold (axis a) }
{
    if k == primary {
        return primary_after(a);
    }
    other_after(a, threshold)
}
