// The sweep file, from C: integrated and written, for two and three axes. Each entry is the one of its name in
// sweep_reader or sweep_writer; only the answer's form is another.
ghost use Rattle.std.specs.Prelude.{◌≡◌};
ghost use Rattle.std.specs.Float.{binary64};
ghost use Rattle.rules.specs.SweepFile.{update_sweep_entry, write_sweep_entry};
ghost use Rattle.marks.specs.Marking.{grid_of};
ghost use Rattle.c_types.specs.Heads.{head2, head3};
ghost use Rattle.c_types.specs.Answers.{Told, c_sweep, c_count};

use c_types::{CCountAnswer, CMap2, CMap3, CSweepAnswer};
use grid_map::{GridMap2, GridMap3};
use sweep_reader::update_sweep;
use sweep_writer::write_sweep;
use types::{Extents2, Extents3};

#[unsafe(no_mangle)]
pub extern "C" fn tembuzar_update_sweep2(
    map: CMap2,
    odds: &mut [f64],
    stamps: &mut [u32],
    bytes: &[u8],
) -> CSweepAnswer
    ensures { Told c_sweep (update_sweep_entry binary64 (head2 map) bytes.now (grid_of odds.old stamps.old))
        result (grid_of odds.new stamps.new) }
{
    CSweepAnswer::from(update_sweep(GridMap2::from(map), odds, stamps, bytes))
}

#[unsafe(no_mangle)]
pub extern "C" fn tembuzar_write_sweep2(
    station: u16,
    numbers: &[f64],
    hits: &[u8],
    out: &mut [u8],
) -> CCountAnswer
    ensures { Told c_count (write_sweep_entry 2 station numbers.now hits.now out.old) result out.new }
{
    CCountAnswer::from(write_sweep::<Extents2>(station, numbers, hits, out))
}

#[unsafe(no_mangle)]
pub extern "C" fn tembuzar_update_sweep3(
    map: CMap3,
    odds: &mut [f64],
    stamps: &mut [u32],
    bytes: &[u8],
) -> CSweepAnswer
    ensures { Told c_sweep (update_sweep_entry binary64 (head3 map) bytes.now (grid_of odds.old stamps.old))
        result (grid_of odds.new stamps.new) }
{
    CSweepAnswer::from(update_sweep(GridMap3::from(map), odds, stamps, bytes))
}

#[unsafe(no_mangle)]
pub extern "C" fn tembuzar_write_sweep3(
    station: u16,
    numbers: &[f64],
    hits: &[u8],
    out: &mut [u8],
) -> CCountAnswer
    ensures { Told c_count (write_sweep_entry 3 station numbers.now hits.now out.old) result out.new }
{
    CCountAnswer::from(write_sweep::<Extents3>(station, numbers, hits, out))
}
