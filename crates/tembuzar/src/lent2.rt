// The lent forms over a map of two axes, from C: a slice of beams, and a head lent by reference. Each is `lent`'s entry
// with its answer converted.
ghost use Rattle.std.specs.Float.{binary64};
ghost use Rattle.rules.specs.RefusalNumbers.Entries.{begin_scan_entry, update_beams_entry};
ghost use Rattle.marks.specs.Marking.{grid_of};
ghost use Rattle.c_types.specs.Heads.{head2};
ghost use Rattle.lent.specs.LentBeams.{beams2};
ghost use Rattle.lent.specs.LentHead.{left_in, in_place};
ghost use Rattle.c_types.specs.Answers.{Told, c_count, c_set};

use c_types::{CCountAnswer, CMap2, CRefusal};
use grid_map::GridMap2;
use lent::{begin_scan, update_beams};
use types::ScanBeam2;

#[unsafe(no_mangle)]
pub extern "C" fn tembuzar_update_beams2(
    map: CMap2,
    odds: &mut [f64],
    stamps: &mut [u32],
    beams: &[ScanBeam2],
) -> CCountAnswer
    ensures { Told c_count
        (update_beams_entry binary64 (head2 map) (beams2 beams.now) (grid_of odds.old stamps.old))
        result (grid_of odds.new stamps.new) }
{
    CCountAnswer::from(update_beams(GridMap2::from(map), odds, stamps, beams))
}

#[unsafe(no_mangle)]
pub extern "C" fn tembuzar_open_scan2(map: &mut CMap2, stamps: &mut [u32]) -> CRefusal
    ensures { Told c_set
        (in_place (left_in (head2 map.old) (begin_scan_entry (head2 map.old) stamps.old)))
        result (head2 map.new, stamps.new) }
{
    let mut head = GridMap2::from(*map);
    let answer = begin_scan(&mut head, stamps);
    if answer.is_err() {
        return CRefusal::from(answer);
    }
    map.frame = head.frame;
    CRefusal::from(answer)
}
