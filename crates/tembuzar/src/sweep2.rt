// A sweep over a map of two axes, from C. Each entry is the one of its name in scan; only the answer's form is another.
ghost use Rattle.std.specs.Prelude.{◌≡◌, true, false};
ghost use Rattle.std.specs.Float.{binary64};
ghost use Rattle.rules.specs.RefusalNumbers.Entries.{mark_entry, update_ray_entry, update_scan_entry};
ghost use Rattle.types.specs.Beams.{beam2};
ghost use Rattle.types.specs.Points.{cell2};
ghost use Rattle.marks.specs.Marking.{grid_of};
ghost use Rattle.c_types.specs.Heads.{head2};
ghost use Rattle.c_types.specs.Answers.{Told, c_mark, c_count};

use c_types::{CCountAnswer, CMap2, CMarkAnswer};
use grid_map::GridMap2;
use scan::ScanUpdater;
use types::{Cell2, ScanBeam2};

#[unsafe(no_mangle)]
pub extern "C" fn tembuzar_mark_free2(
    map: CMap2,
    odds: &mut [f64],
    stamps: &mut [u32],
    cell: Cell2,
) -> CMarkAnswer
    ensures { Told c_mark (mark_entry binary64 false (head2 map) (cell2 cell) (grid_of odds.old stamps.old))
        result (grid_of odds.new stamps.new) }
{
    let sweep = ScanUpdater {
        map: GridMap2::from(map),
    };
    CMarkAnswer::from(sweep.mark_free(odds, stamps, cell))
}

#[unsafe(no_mangle)]
pub extern "C" fn tembuzar_mark_occupied2(
    map: CMap2,
    odds: &mut [f64],
    stamps: &mut [u32],
    cell: Cell2,
) -> CMarkAnswer
    ensures { Told c_mark (mark_entry binary64 true (head2 map) (cell2 cell) (grid_of odds.old stamps.old))
        result (grid_of odds.new stamps.new) }
{
    let sweep = ScanUpdater {
        map: GridMap2::from(map),
    };
    CMarkAnswer::from(sweep.mark_occupied(odds, stamps, cell))
}

#[unsafe(no_mangle)]
pub extern "C" fn tembuzar_update_ray2(
    map: CMap2,
    odds: &mut [f64],
    stamps: &mut [u32],
    beam: ScanBeam2,
) -> CCountAnswer
    ensures { Told c_count (update_ray_entry binary64 (head2 map) (beam2 beam) (grid_of odds.old stamps.old))
        result (grid_of odds.new stamps.new) }
{
    let sweep = ScanUpdater {
        map: GridMap2::from(map),
    };
    CCountAnswer::from(sweep.update_ray(odds, stamps, beam))
}

#[unsafe(no_mangle)]
pub extern "C" fn tembuzar_update_scan2(
    map: CMap2,
    odds: &mut [f64],
    stamps: &mut [u32],
    numbers: &[f64],
    hits: &[u8],
) -> CCountAnswer
    ensures { Told c_count
        (update_scan_entry binary64 (head2 map) numbers.now hits.now (grid_of odds.old stamps.old))
        result (grid_of odds.new stamps.new) }
{
    let sweep = ScanUpdater {
        map: GridMap2::from(map),
    };
    CCountAnswer::from(sweep.update_scan(odds, stamps, numbers, hits))
}
