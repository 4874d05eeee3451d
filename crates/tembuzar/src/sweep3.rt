// A sweep over a map of three axes, from C. Each entry is the one of its name in scan; only the answer's form is
// another.
ghost use Rattle.std.specs.Prelude.{◌≡◌, true, false};
ghost use Rattle.std.specs.Float.{binary64};
ghost use Rattle.rules.specs.RefusalNumbers.Entries.{mark_entry, update_ray_entry, update_scan_entry};
ghost use Rattle.types.specs.Beams.{beam3};
ghost use Rattle.types.specs.Points.{cell3};
ghost use Rattle.marks.specs.Marking.{grid_of};
ghost use Rattle.c_types.specs.Heads.{head3};
ghost use Rattle.c_types.specs.Answers.{Told, c_mark, c_count};

use c_types::{CCountAnswer, CMap3, CMarkAnswer};
use grid_map::GridMap3;
use scan::ScanUpdater;
use types::{Cell3, ScanBeam3};

#[unsafe(no_mangle)]
pub extern "C" fn tembuzar_mark_free3(
    map: CMap3,
    odds: &mut [f64],
    stamps: &mut [u32],
    cell: Cell3,
) -> CMarkAnswer
    ensures { Told c_mark (mark_entry binary64 false (head3 map) (cell3 cell) (grid_of odds.old stamps.old))
        result (grid_of odds.new stamps.new) }
{
    let sweep = ScanUpdater {
        map: GridMap3::from(map),
    };
    CMarkAnswer::from(sweep.mark_free(odds, stamps, cell))
}

#[unsafe(no_mangle)]
pub extern "C" fn tembuzar_mark_occupied3(
    map: CMap3,
    odds: &mut [f64],
    stamps: &mut [u32],
    cell: Cell3,
) -> CMarkAnswer
    ensures { Told c_mark (mark_entry binary64 true (head3 map) (cell3 cell) (grid_of odds.old stamps.old))
        result (grid_of odds.new stamps.new) }
{
    let sweep = ScanUpdater {
        map: GridMap3::from(map),
    };
    CMarkAnswer::from(sweep.mark_occupied(odds, stamps, cell))
}

#[unsafe(no_mangle)]
pub extern "C" fn tembuzar_update_ray3(
    map: CMap3,
    odds: &mut [f64],
    stamps: &mut [u32],
    beam: ScanBeam3,
) -> CCountAnswer
    ensures { Told c_count (update_ray_entry binary64 (head3 map) (beam3 beam) (grid_of odds.old stamps.old))
        result (grid_of odds.new stamps.new) }
{
    let sweep = ScanUpdater {
        map: GridMap3::from(map),
    };
    CCountAnswer::from(sweep.update_ray(odds, stamps, beam))
}

#[unsafe(no_mangle)]
pub extern "C" fn tembuzar_update_scan3(
    map: CMap3,
    odds: &mut [f64],
    stamps: &mut [u32],
    numbers: &[f64],
    hits: &[u8],
) -> CCountAnswer
    ensures { Told c_count
        (update_scan_entry binary64 (head3 map) numbers.now hits.now (grid_of odds.old stamps.old))
        result (grid_of odds.new stamps.new) }
{
    let sweep = ScanUpdater {
        map: GridMap3::from(map),
    };
    CCountAnswer::from(sweep.update_scan(odds, stamps, numbers, hits))
}
