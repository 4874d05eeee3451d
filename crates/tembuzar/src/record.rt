// The map record, from C: read and written, for two and three axes. Each entry is the one of its name in record_reader
// or record_writer; only the answer's form is another.
ghost use Rattle.std.specs.Prelude.{◌≡◌, []};
ghost use Rattle.rules.specs.RefusalNumbers.Entries.{read_record_entry, write_record_entry};
ghost use Rattle.types.specs.Models.{cuts_of};
ghost use Rattle.marks.specs.Marking.{grid_of};
ghost use Rattle.c_types.specs.Heads.{head2, head3};
ghost use Rattle.c_types.specs.Answers.{Told, c_map2, c_map3, c_count};

use c_types::{CCountAnswer, CMap2, CMap3, CMapAnswer2, CMapAnswer3};
use grid_map::{GridMap2, GridMap3};
use record_reader::read_record;
use record_writer::write_record;
use types::{Cuts, Extents2, Extents3};

#[unsafe(no_mangle)]
pub extern "C" fn tembuzar_read_record2(
    bytes: &[u8],
    odds: &mut [f64],
    stamps: &mut [u32],
) -> CMapAnswer2
    ensures { Told c_map2 (read_record_entry 2 [] bytes.now (grid_of odds.old stamps.old))
        result (grid_of odds.new stamps.new) }
{
    CMapAnswer2::from(read_record::<Extents2>(bytes, (), odds, stamps))
}

#[unsafe(no_mangle)]
pub extern "C" fn tembuzar_write_record2(map: CMap2, odds: &[f64], out: &mut [u8]) -> CCountAnswer
    ensures { Told c_count (write_record_entry (head2 map) odds.now out.old) result out.new }
{
    CCountAnswer::from(write_record(GridMap2::from(map), odds, out))
}

#[unsafe(no_mangle)]
pub extern "C" fn tembuzar_read_record3(
    bytes: &[u8],
    cuts: Cuts,
    odds: &mut [f64],
    stamps: &mut [u32],
) -> CMapAnswer3
    ensures { Told c_map3 (read_record_entry 3 (cuts_of cuts) bytes.now (grid_of odds.old stamps.old))
        result (grid_of odds.new stamps.new) }
{
    CMapAnswer3::from(read_record::<Extents3>(bytes, cuts, odds, stamps))
}

#[unsafe(no_mangle)]
pub extern "C" fn tembuzar_write_record3(map: CMap3, odds: &[f64], out: &mut [u8]) -> CCountAnswer
    ensures { Told c_count (write_record_entry (head3 map) odds.now out.old) result out.new }
{
    CCountAnswer::from(write_record(GridMap3::from(map), odds, out))
}
