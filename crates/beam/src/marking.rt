// One mark: by place, and whether it changed the cell; the same, counted; and by cell, where one off the grid is
// skipped. On heads that have passed their checks, with lists of one number per cell: the entries refuse others with 1
// to 4, 9 and 15.
ghost use Rattle.std.specs.Prelude.{◌<◌, ◌≤◌, length};
ghost use Rattle.std.specs.Float.{binary64};
ghost use Rattle.laws.specs.Checks.{Ready};
ghost use Rattle.rules.specs.Coordinates.{flat_index};
ghost use Rattle.rules.specs.MarksAndFrames.{steps_at, highest_frame};
ghost use Rattle.rules.specs.OneBeam.{mark_of};
ghost use Rattle.types.specs.Models.{model_of};
ghost use Rattle.grid_map.specs.Heads.{head_of};
ghost use Rattle.marks.specs.Marking.{MarkedAt, steps_of};
ghost use Rattle.beam.specs.Applying.{Applied, one};

use grid_map::{Grid, GridMap};
use marks::{Steps, mark_free_at, mark_occupied_at, steps_of};
use types::{Frame, Model};

// By the steps of the cell. The place is one of the lists', and the frame one that a sweep can have: whoever calls has
// checked the head and found the place.
pub fn mark_place(
    odds: &mut [f64],
    stamps: &mut [u32],
    at: usize,
    steps: Steps,
    frame: Frame,
    occupied: bool,
) -> bool
    requires in_odds { at < length odds.old }
    requires in_stamps { at < length stamps.old }
    requires of_a_sweep { frame.0 ≤ highest_frame }
    ensures { MarkedAt binary64 occupied (steps_of steps) frame.0 at
        odds.old stamps.old result odds.new stamps.new }
{
    if occupied {
        return mark_occupied_at(odds, stamps, at, steps, frame);
    }
    mark_free_at(odds, stamps, at, steps, frame)
}

// The same on a map. The place is one of the lists'.
pub fn mark_on<E: Grid>(
    map: GridMap<E, E::Model>,
    odds: &mut [f64],
    stamps: &mut [u32],
    at: usize,
    occupied: bool,
) -> bool
    requires ready { Ready (head_of E.extents E.model_of map) (length odds.old) (length stamps.old) }
    requires in_lists { at < length odds.old }
    ensures { MarkedAt binary64 occupied (steps_at (E.model_of map.extents map.model) at) map.frame.0 at
        odds.old stamps.old result odds.new stamps.new }
{
    let steps = map.extents.steps_at(map.model, at);
    mark_place(odds, stamps, at, steps, map.frame, occupied)
}

// A mark as the walks add it up: one where it changed the cell. By a model of one pair; place and frame as above. A
// branch: the walks took a tenth longer with a cast of the bool.
pub fn mark_counted_by(
    odds: &mut [f64],
    stamps: &mut [u32],
    at: usize,
    model: Model,
    frame: Frame,
    occupied: bool,
) -> u64
    requires in_odds { at < length odds.old }
    requires in_stamps { at < length stamps.old }
    requires of_a_sweep { frame.0 ≤ highest_frame }
    ensures { Applied binary64 (one at occupied) (model_of model) frame.0
        odds.old stamps.old result odds.new stamps.new }
{
    if mark_place(odds, stamps, at, steps_of(model), frame, occupied) {
        return 1;
    }
    0
}

// The same on a map, by the model of the cell's band. The place is one of the lists'.
pub fn mark_counted<E: Grid>(
    map: GridMap<E, E::Model>,
    odds: &mut [f64],
    stamps: &mut [u32],
    at: usize,
    occupied: bool,
) -> u64
    requires ready { Ready (head_of E.extents E.model_of map) (length odds.old) (length stamps.old) }
    requires in_lists { at < length odds.old }
    ensures { Applied binary64 (one at occupied) (E.model_of map.extents map.model) map.frame.0
        odds.old stamps.old result odds.new stamps.new }
{
    let model = map.extents.model_at(map.model, at);
    mark_counted_by(odds, stamps, at, model, map.frame, occupied)
}

pub fn mark_cell<E: Grid>(
    map: GridMap<E, E::Model>,
    odds: &mut [f64],
    stamps: &mut [u32],
    cell: E::Cell,
    occupied: bool,
) -> u64
    requires { Ready (head_of E.extents E.model_of map) (length odds.old) (length stamps.old) }
    ensures { Applied binary64 (mark_of occupied (flat_index (E.extents map.extents) (E.cell cell)))
        (E.model_of map.extents map.model) map.frame.0
        odds.old stamps.old result odds.new stamps.new }
{
    match map.extents.translate_to_index(cell) {
        Err(_) => 0,
        Ok(at) => mark_counted(map, odds, stamps, at, occupied),
    }
}
