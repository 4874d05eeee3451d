// A map of two axes, from C. Each entry is the one of its name in grid_map; only the answer's form is another.
ghost use Rattle.std.specs.Prelude.{◌≡◌};
ghost use Rattle.std.specs.Float.{binary64};
ghost use Rattle.rules.specs.RefusalNumbers.Entries.{new_entry, reset_entry, begin_scan_entry};
ghost use Rattle.rules.specs.RefusalNumbers.Entries.{cell_containing_entry, log_odds_at_entry, sample_log_odds_entry, set_log_odds_entry, set_log_odds_checked_entry};
ghost use Rattle.types.specs.Models.{model_of};
ghost use Rattle.types.specs.Points.{cell2, extents2, point2};
ghost use Rattle.marks.specs.Marking.{grid_of};
ghost use Rattle.c_types.specs.Heads.{head2};
ghost use Rattle.c_types.specs.Answers.{Told, c_map2, c_cell2, c_odds, c_sample2, c_set};

use c_types::{CCellAnswer2, CMap2, CMapAnswer2, COddsAnswer, CRefusal, CSampleAnswer2};
use grid_map::GridMap2;
use types::{Cell2, Extents2, Model, Point2};

#[unsafe(no_mangle)]
pub extern "C" fn tembuzar_new2(
    extents: Extents2,
    model: Model,
    odds: &mut [f64],
    stamps: &mut [u32],
) -> CMapAnswer2
    ensures { Told c_map2 (new_entry (extents2 extents) (model_of model) (grid_of odds.old stamps.old))
        result (grid_of odds.new stamps.new) }
{
    CMapAnswer2::from(GridMap2::new(extents, model, odds, stamps))
}

#[unsafe(no_mangle)]
pub extern "C" fn tembuzar_reset2(map: CMap2, odds: &mut [f64], stamps: &mut [u32]) -> CMapAnswer2
    ensures { Told c_map2 (reset_entry (head2 map) (grid_of odds.old stamps.old))
        result (grid_of odds.new stamps.new) }
{
    CMapAnswer2::from(GridMap2::from(map).reset(odds, stamps))
}

#[unsafe(no_mangle)]
pub extern "C" fn tembuzar_begin_scan2(map: CMap2, stamps: &mut [u32]) -> CMapAnswer2
    ensures { Told c_map2 (begin_scan_entry (head2 map) stamps.old) result stamps.new }
{
    CMapAnswer2::from(GridMap2::from(map).begin_scan(stamps))
}

#[unsafe(no_mangle)]
pub extern "C" fn tembuzar_cell_containing2(map: CMap2, point: Point2) -> CCellAnswer2
    ensures { result ≡ c_cell2 (cell_containing_entry binary64 (head2 map) (point2 point)) }
{
    CCellAnswer2::from(GridMap2::from(map).cell_containing(point))
}

#[unsafe(no_mangle)]
pub extern "C" fn tembuzar_log_odds_at2(map: CMap2, odds: &[f64], cell: Cell2) -> COddsAnswer
    ensures { result ≡ c_odds (log_odds_at_entry (head2 map) (cell2 cell) odds.now) }
{
    COddsAnswer::from(GridMap2::from(map).log_odds_at(odds, cell))
}

#[unsafe(no_mangle)]
pub extern "C" fn tembuzar_sample_log_odds2(
    map: CMap2,
    odds: &[f64],
    point: Point2,
) -> CSampleAnswer2
    ensures { result ≡ c_sample2 (sample_log_odds_entry binary64 (head2 map) (point2 point) odds.now) }
{
    CSampleAnswer2::from(GridMap2::from(map).sample_log_odds(odds, point))
}

#[unsafe(no_mangle)]
pub extern "C" fn tembuzar_set_log_odds2(
    map: CMap2,
    odds: &mut [f64],
    cell: Cell2,
    value: f64,
) -> CRefusal
    ensures { Told c_set (set_log_odds_entry (head2 map) (cell2 cell) value odds.old) result odds.new }
{
    CRefusal::from(GridMap2::from(map).set_log_odds(odds, cell, value))
}

#[unsafe(no_mangle)]
pub extern "C" fn tembuzar_set_log_odds_checked2(
    map: CMap2,
    odds: &mut [f64],
    cell: Cell2,
    value: f64,
) -> CRefusal
    ensures { Told c_set (set_log_odds_checked_entry (head2 map) (cell2 cell) value odds.old) result odds.new }
{
    CRefusal::from(GridMap2::from(map).set_log_odds_checked(odds, cell, value))
}
