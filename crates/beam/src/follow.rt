// The first part of a walk, cell by whole number: as long as each axis is followed and its cell on the grid, the cells
// before the last are marked free with nothing truncated. Where that ends, `walk` goes on step by step, which is what
// this part is proved to do faster.
ghost use Rattle.std.specs.Prelude.{length};
ghost use Rattle.std.specs.Float.{binary64};
ghost use Rattle.laws.specs.Checks.{Ready};
ghost use Rattle.laws.specs.Following.{Drawn};
ghost use Rattle.grid_map.specs.Heads.{head_of};
ghost use Rattle.beam.specs.Walking.{Begun};

use crate::beams::Beams;
use crate::marking::mark_counted;
use grid_map::GridMap;

// How far a walk has come: the line that is left, and the marks that changed a cell.
#[derive(Clone, Copy)]
pub struct Part<L> {
    pub rest: L,
    pub count: u64,
}

// On a head that has passed its checks and a line that the plotter drew, as `integrate` has them.
pub fn follow<E: Beams>(
    map: GridMap<E, E::Model>,
    odds: &mut [f64],
    stamps: &mut [u32],
    line: E::Line,
) -> Part<E::Line>
    requires ready { Ready (head_of E.extents E.model_of map) (length odds.old) (length stamps.old) }
    requires drawn { Drawn (E.line_of line) }
    ensures { Begun binary64 (head_of E.extents E.model_of map) (E.line_of line) odds.old stamps.old
        (E.line_of result.rest) odds.new stamps.new result.count }
{
    let extents = map.extents;
    let mut rest = line;
    let mut count: u64 = 0;
    let mut cells = E::followed(line);
    let mut remaining = E::remaining(rest);
    while remaining > 1 {
        let Some(at) = extents.place_followed(cells) else {
            return Part { rest, count };
        };
        count += mark_counted(map, odds, stamps, at, false);
        cells = E::cells_after(cells, rest);
        rest = E::moved(rest);
        remaining = E::remaining(rest);
    }
    Part { rest, count }
}
