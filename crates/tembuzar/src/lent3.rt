// The lent forms over a map of three axes, from C: a slice of beams, and a head lent by reference. Each is `lent`'s
// entry with its answer converted.
ghost use Rattle.std.specs.Float.{binary64};
ghost use Rattle.rules.specs.RefusalNumbers.Entries.{begin_scan_entry, update_beams_entry};
ghost use Rattle.marks.specs.Marking.{grid_of};
ghost use Rattle.c_types.specs.Heads.{head3};
ghost use Rattle.lent.specs.LentBeams.{beams3};
ghost use Rattle.lent.specs.LentHead.{left_in, in_place};
ghost use Rattle.c_types.specs.Answers.{Told, c_count, c_set};

use c_types::{CCountAnswer, CMap3, CRefusal};
use grid_map::GridMap3;
use lent::{begin_scan, update_beams};
use types::ScanBeam3;

#[unsafe(no_mangle)]
pub extern "C" fn tembuzar_update_beams3(
    map: CMap3,
    odds: &mut [f64],
    stamps: &mut [u32],
    beams: &[ScanBeam3],
) -> CCountAnswer
    ensures { Told c_count
        (update_beams_entry binary64 (head3 map) (beams3 beams.now) (grid_of odds.old stamps.old))
        result (grid_of odds.new stamps.new) }
{
    CCountAnswer::from(update_beams(GridMap3::from(map), odds, stamps, beams))
}

#[unsafe(no_mangle)]
pub extern "C" fn tembuzar_open_scan3(map: &mut CMap3, stamps: &mut [u32]) -> CRefusal
    ensures { Told c_set
        (in_place (left_in (head3 map.old) (begin_scan_entry (head3 map.old) stamps.old)))
        result (head3 map.new, stamps.new) }
{
    let mut head = GridMap3::from(*map);
    let answer = begin_scan(&mut head, stamps);
    if answer.is_err() {
        return CRefusal::from(answer);
    }
    map.frame = head.frame;
    CRefusal::from(answer)
}
