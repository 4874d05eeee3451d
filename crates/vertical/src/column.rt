// Cells of one column, from the lowest up: each lies one layer of the map further on in the lists.
ghost use Rattle.std.specs.Prelude.{◌+◌, ◌<◌, length};
ghost use Rattle.std.specs.Float.{binary64};
ghost use Rattle.laws.specs.Checks.{Ready};
ghost use Rattle.rules.specs.VerticalBeam.{column_marks};
ghost use Rattle.types.specs.Points.{extents3};
ghost use Rattle.types.specs.Models.{bands_of};
ghost use Rattle.grid_map.specs.Heads.{head3};
ghost use Rattle.beam.specs.Applying.{Applied};

use beam::mark_counted;
use grid_map::GridMap3;
use places::place_within3;
use types::VerticalBeam;

// The beam's lowest cell and so many above it, all marked free but the last. The head has passed its checks and the
// cells are on the map: the entry refuses others.
pub fn mark_column(
    map: GridMap3,
    odds: &mut [f64],
    stamps: &mut [u32],
    beam: VerticalBeam,
    above: u64,
    occupied: bool,
) -> u64
    requires ready { Ready (head3 map) (length odds.old) (length stamps.old) }
    requires x_within { beam.x < map.extents.x }
    requires y_within { beam.y < map.extents.y }
    requires top_within { beam.bottom + above < map.extents.z }
    ensures { Applied binary64 (column_marks (extents3 map.extents) beam.x beam.y occupied beam.bottom above)
        (bands_of map.extents map.model) map.frame.0
        odds.old stamps.old result odds.new stamps.new }
{
    let extents = map.extents;
    let layer = (extents.x * extents.y) as usize;
    let mut at = place_within3(extents, beam.x, beam.y, beam.bottom);
    let mut count: u64 = 0;
    for _ in 0..above {
        count += mark_counted(map, odds, stamps, at, false);
        at += layer;
    }
    count + mark_counted(map, odds, stamps, at, occupied)
}
