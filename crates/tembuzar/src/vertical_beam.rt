// Vertical beams, from C: the entry of its name in vertical; only the answer's form is another.
ghost use Rattle.std.specs.Prelude.{◌≡◌};
ghost use Rattle.std.specs.Float.{binary64};
ghost use Rattle.rules.specs.VerticalBeam.{update_vertical_entry};
ghost use Rattle.types.specs.Beams.{vertical};
ghost use Rattle.marks.specs.Marking.{grid_of};
ghost use Rattle.c_types.specs.Heads.{head3};
ghost use Rattle.c_types.specs.Answers.{Told, c_count};

use c_types::{CCountAnswer, CMap3};
use grid_map::GridMap3;
use types::VerticalBeam;
use vertical::update_vertical3;

#[unsafe(no_mangle)]
pub extern "C" fn tembuzar_update_vertical3(
    map: CMap3,
    odds: &mut [f64],
    stamps: &mut [u32],
    beam: VerticalBeam,
) -> CCountAnswer
    ensures { Told c_count
        (update_vertical_entry binary64 (head3 map) (vertical beam) (grid_of odds.old stamps.old))
        result (grid_of odds.new stamps.new) }
{
    CCountAnswer::from(update_vertical3(GridMap3::from(map), odds, stamps, beam))
}
