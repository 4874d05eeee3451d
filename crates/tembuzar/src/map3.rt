// A map of three axes, from C. Each entry is the one of its name in grid_map; only the answer's form is another.
ghost use Rattle.std.specs.Prelude.{◌≡◌};
ghost use Rattle.std.specs.Float.{binary64};
ghost use Rattle.rules.specs.RefusalNumbers.Entries.{new_entry, reset_entry, begin_scan_entry};
ghost use Rattle.rules.specs.RefusalNumbers.Entries.{cell_containing_entry, log_odds_at_entry, sample_log_odds_entry, set_log_odds_entry, set_log_odds_checked_entry};
ghost use Rattle.types.specs.Models.{bands_of};
ghost use Rattle.types.specs.Points.{cell3, extents3, point3};
ghost use Rattle.marks.specs.Marking.{grid_of};
ghost use Rattle.c_types.specs.Heads.{head3};
ghost use Rattle.c_types.specs.Answers.{Told, c_map3, c_cell3, c_odds, c_sample3, c_set};

use c_types::{CCellAnswer3, CMap3, CMapAnswer3, COddsAnswer, CRefusal, CSampleAnswer3};
use grid_map::GridMap3;
use types::{Bands, Cell3, Extents3, Point3};

#[unsafe(no_mangle)]
pub extern "C" fn tembuzar_new3(
    extents: Extents3,
    bands: Bands,
    odds: &mut [f64],
    stamps: &mut [u32],
) -> CMapAnswer3
    ensures { Told c_map3 (new_entry (extents3 extents) (bands_of extents bands) (grid_of odds.old stamps.old))
        result (grid_of odds.new stamps.new) }
{
    CMapAnswer3::from(GridMap3::new(extents, bands, odds, stamps))
}

#[unsafe(no_mangle)]
pub extern "C" fn tembuzar_reset3(map: CMap3, odds: &mut [f64], stamps: &mut [u32]) -> CMapAnswer3
    ensures { Told c_map3 (reset_entry (head3 map) (grid_of odds.old stamps.old))
        result (grid_of odds.new stamps.new) }
{
    CMapAnswer3::from(GridMap3::from(map).reset(odds, stamps))
}

#[unsafe(no_mangle)]
pub extern "C" fn tembuzar_begin_scan3(map: CMap3, stamps: &mut [u32]) -> CMapAnswer3
    ensures { Told c_map3 (begin_scan_entry (head3 map) stamps.old) result stamps.new }
{
    CMapAnswer3::from(GridMap3::from(map).begin_scan(stamps))
}

#[unsafe(no_mangle)]
pub extern "C" fn tembuzar_cell_containing3(map: CMap3, point: Point3) -> CCellAnswer3
    ensures { result ≡ c_cell3 (cell_containing_entry binary64 (head3 map) (point3 point)) }
{
    CCellAnswer3::from(GridMap3::from(map).cell_containing(point))
}

#[unsafe(no_mangle)]
pub extern "C" fn tembuzar_log_odds_at3(map: CMap3, odds: &[f64], cell: Cell3) -> COddsAnswer
    ensures { result ≡ c_odds (log_odds_at_entry (head3 map) (cell3 cell) odds.now) }
{
    COddsAnswer::from(GridMap3::from(map).log_odds_at(odds, cell))
}

#[unsafe(no_mangle)]
pub extern "C" fn tembuzar_sample_log_odds3(
    map: CMap3,
    odds: &[f64],
    point: Point3,
) -> CSampleAnswer3
    ensures { result ≡ c_sample3 (sample_log_odds_entry binary64 (head3 map) (point3 point) odds.now) }
{
    CSampleAnswer3::from(GridMap3::from(map).sample_log_odds(odds, point))
}

#[unsafe(no_mangle)]
pub extern "C" fn tembuzar_set_log_odds3(
    map: CMap3,
    odds: &mut [f64],
    cell: Cell3,
    value: f64,
) -> CRefusal
    ensures { Told c_set (set_log_odds_entry (head3 map) (cell3 cell) value odds.old) result odds.new }
{
    CRefusal::from(GridMap3::from(map).set_log_odds(odds, cell, value))
}

#[unsafe(no_mangle)]
pub extern "C" fn tembuzar_set_log_odds_checked3(
    map: CMap3,
    odds: &mut [f64],
    cell: Cell3,
    value: f64,
) -> CRefusal
    ensures { Told c_set (set_log_odds_checked_entry (head3 map) (cell3 cell) value odds.old) result odds.new }
{
    CRefusal::from(GridMap3::from(map).set_log_odds_checked(odds, cell, value))
}
