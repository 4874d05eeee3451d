// The entry: the head checked, then the profile, then the column marked. It answers for every input; a refused call
// writes nothing.
ghost use Rattle.std.specs.Prelude.{◌≡◌, true, length};
ghost use Rattle.std.specs.Float.{binary64};
ghost use Rattle.laws.specs.Checks.{Ready};
ghost use Rattle.rules.specs.VerticalBeam.{in_profile, vertical_marks, update_vertical_entry};
ghost use Rattle.types.specs.Beams.{vertical};
ghost use Rattle.types.specs.Models.{bands_of};
ghost use Rattle.types.specs.Points.{extents3};
ghost use Rattle.grid_map.specs.Heads.{head3};
ghost use Rattle.marks.specs.Marking.{grid_of};
ghost use Rattle.beam.specs.Applying.{Applied, count_outcome};

use crate::column::mark_column;
use crate::profile::{cells_above, ends_occupied, in_profile};
use checks::Uses;
use grid_map::GridMap3;
use types::{Refusal, VerticalBeam};

// The cells of a beam in the profile, on a head that has passed its checks: the entry below refuses others.
fn mark_vertical(map: GridMap3, odds: &mut [f64], stamps: &mut [u32], beam: VerticalBeam) -> u64
    requires ready { Ready (head3 map) (length odds.old) (length stamps.old) }
    requires profile { in_profile (extents3 map.extents) (vertical beam) ≡ true }
    ensures { Applied binary64 (vertical_marks (extents3 map.extents) (vertical beam))
        (bands_of map.extents map.model) map.frame.0
        odds.old stamps.old result odds.new stamps.new }
{
    let above = cells_above(map.extents, beam);
    let occupied = ends_occupied(map.extents, beam);
    mark_column(map, odds, stamps, beam, above, occupied)
}

// One vertical beam: the cells of its column are marked free, and the one it ends in as it ended; where it ran out, all
// are free.
pub fn update_vertical3(
    map: GridMap3,
    odds: &mut [f64],
    stamps: &mut [u32],
    beam: VerticalBeam,
) -> Result<u64, Refusal>
    ensures { count_outcome result odds.new stamps.new
        ≡ update_vertical_entry binary64 (head3 map) (vertical beam) (grid_of odds.old stamps.old) }
{
    map.check(Uses::MARKS_AND_BEAMS, odds.len(), stamps.len())?;
    if !in_profile(map.extents, beam) {
        return Err(Refusal::Profile);
    }
    Ok(mark_vertical(map, odds, stamps, beam))
}
