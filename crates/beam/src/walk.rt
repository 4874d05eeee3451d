// The walk along a line: every cell is marked free but the last, which is marked as the beam ended. On heads that have
// passed their checks, as `integrate` requires.
ghost use Rattle.std.specs.Prelude.{◌≡◌, cond, false, eqb, length};
ghost use Rattle.std.specs.Float.{binary64};
ghost use Rattle.laws.specs.Checks.{Ready};
ghost use Rattle.laws.specs.Following.{Drawn};
ghost use Rattle.rules.specs.TheLine.{line_cells};
ghost use Rattle.rules.specs.OneBeam.{marks_along};
ghost use Rattle.grid_map.specs.Heads.{head_of};
ghost use Rattle.beam.specs.Applying.{Applied};

use crate::beams::Beams;
use crate::follow::follow;
use crate::marking::mark_cell;
use grid_map::GridMap;

// Only the last cell, after which nothing remains, is marked as the beam ended.
fn ends_occupied(occupied: bool, remaining: u64) -> bool
    ensures { result ≡ cond (eqb remaining 0) occupied false }
{
    if remaining == 0 {
        return occupied;
    }
    false
}

// Step by step, along any line: what a walk is.
fn walk<E: Beams>(
    map: GridMap<E, E::Model>,
    odds: &mut [f64],
    stamps: &mut [u32],
    line: E::Line,
    occupied: bool,
) -> u64
    requires { Ready (head_of E.extents E.model_of map) (length odds.old) (length stamps.old) }
    ensures { Applied binary64 (marks_along (E.extents map.extents) occupied (line_cells binary64 (E.line_of line)))
        (E.model_of map.extents map.model) map.frame.0
        odds.old stamps.old result odds.new stamps.new }
{
    let mut rest = line;
    let mut count: u64 = 0;
    while let Some((cell, after)) = E::next(rest) {
        let remaining = E::remaining(after);
        count += mark_cell(map, odds, stamps, cell, ends_occupied(occupied, remaining));
        rest = after;
    }
    count
}

// The same, faster, along a line that the plotter drew: the part that can be followed by whole numbers, and then the
// last cell; step by step where more is left.
pub fn walk_drawn<E: Beams>(
    map: GridMap<E, E::Model>,
    odds: &mut [f64],
    stamps: &mut [u32],
    line: E::Line,
    occupied: bool,
) -> u64
    requires ready { Ready (head_of E.extents E.model_of map) (length odds.old) (length stamps.old) }
    requires drawn { Drawn (E.line_of line) }
    ensures { Applied binary64 (marks_along (E.extents map.extents) occupied (line_cells binary64 (E.line_of line)))
        (E.model_of map.extents map.model) map.frame.0
        odds.old stamps.old result odds.new stamps.new }
{
    let part = follow(map, odds, stamps, line);
    let rest = part.rest;
    if E::remaining(rest) == 1 {
        return part.count + mark_cell(map, odds, stamps, E::last_cell(rest), occupied);
    }
    part.count + walk(map, odds, stamps, rest, occupied)
}
