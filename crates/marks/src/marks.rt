// One mark on one cell of the lent odds and stamps: the original's mark_free_at and mark_occupied_at. A mark takes the
// steps and the bounds of its cell as numbers, from `steps_of`; which cell it is on is `places`' to find.
ghost use Rattle.std.specs.Prelude.{◌≡◌, true, false, ℕ, ◌<◌, ◌≤◌, length};
ghost use Rattle.std.specs.Float.{binary64};
ghost use Rattle.rules.specs.MarksAndFrames as Marks;
ghost use Rattle.types.specs.Models.{model_of};
ghost use Rattle.marks.specs.Marking.{steps_of, cell_of, MarkedAt};

use types::{Frame, Model, Stamp};

// The steps and the bounds of one cell.
#[derive(Clone, Copy)]
pub struct Steps {
    pub occupied: f64,
    pub free: f64,
    pub floor: f64,
    pub ceiling: f64,
}

// Those of a model of one pair, at whatever place a cell is.
pub fn steps_of(model: Model) -> Steps
    ensures { (place : ℕ) → steps_of result ≡ Marks.steps_at (model_of model) place }
{
    Steps {
        occupied: model.occupied,
        free: model.free,
        floor: -model.ceiling,
        ceiling: model.ceiling,
    }
}

// Within the bounds; NaN stays.
pub fn clamp(floor: f64, ceiling: f64, x: f64) -> f64
    ensures { result ≡ Marks.clamp floor ceiling x }
{
    if x < floor {
        return floor;
    }
    if x > ceiling {
        return ceiling;
    }
    x
}

fn freed(s: Steps, odds: f64) -> f64
    ensures { result ≡ Marks.freed binary64 (steps_of s) odds }
{
    clamp(s.floor, s.ceiling, odds + s.free)
}

// What an occupied mark adds. A free mark of this frame is taken back first: the free step is negative, and subtracting
// it adds its size back. On the floor the clamp ate an unknown part of it, so nothing is taken back there. The frame is
// one that a sweep can have (9).
fn occupied_step(s: Steps, frame: Frame, odds: f64, stamp: Stamp) -> f64
    requires { frame.0 ≤ Marks.highest_frame }
    ensures { result ≡ Marks.occupied_step binary64 (steps_of s) frame.0 (cell_of odds stamp.0) }
{
    if stamp.number() == Stamp::of(frame, false).number() {
        if odds <= s.floor {
            return s.occupied;
        }
        return s.occupied - s.free;
    }
    s.occupied
}

fn occupy(s: Steps, odds: f64, step: f64) -> f64
    ensures { result ≡ Marks.occupy binary64 (steps_of s) odds step }
{
    clamp(s.floor, s.ceiling, odds + step)
}

// A cell already marked in this frame, either way, is left alone. The place is one of the lists', and the frame one
// that a sweep can have: the entries refuse others with 5 and 9.
pub fn mark_free_at(odds: &mut [f64], stamps: &mut [u32], at: usize, s: Steps, frame: Frame) -> bool
    requires fact_1 { at < length odds.old }
    requires fact_2 { at < length stamps.old }
    requires fact_3 { frame.0 ≤ Marks.highest_frame }
    ensures { MarkedAt binary64 false (steps_of s) frame.0 at
        odds.old stamps.old result odds.new stamps.new }
{
    let stamp = Stamp::read(stamps[at]);
    if stamp.number() / 2 == frame.0 {
        return false;
    }
    let o = odds[at];
    stamps[at] = Stamp::of(frame, false).number();
    odds[at] = freed(s, o);
    true
}

// A cell already marked occupied in this frame is left alone; a free mark of this frame is taken back. Place and frame
// as above.
pub fn mark_occupied_at(
    odds: &mut [f64],
    stamps: &mut [u32],
    at: usize,
    s: Steps,
    frame: Frame,
) -> bool
    requires fact_1 { at < length odds.old }
    requires fact_2 { at < length stamps.old }
    requires fact_3 { frame.0 ≤ Marks.highest_frame }
    ensures { MarkedAt binary64 true (steps_of s) frame.0 at
        odds.old stamps.old result odds.new stamps.new }
{
    let stamp = Stamp::read(stamps[at]);
    let mark = Stamp::of(frame, true).number();
    if stamp.number() == mark {
        return false;
    }
    let o = odds[at];
    let step = occupied_step(s, frame, o, stamp);
    stamps[at] = mark;
    odds[at] = occupy(s, o, step);
    true
}
