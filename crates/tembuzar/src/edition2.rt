// Edition 2 of the map record, from C: read and written, for two and three axes. Each entry is the one of its name in
// edition_reader or edition_writer; only the answer's form is another.
ghost use Rattle.rules.specs.RefusalNumbers.Editions.{read_edition_entry, write_edition_entry};
ghost use Rattle.marks.specs.Marking.{grid_of};
ghost use Rattle.c_types.specs.Heads.{head2, head3};
ghost use Rattle.c_types.specs.Answers.{Told, c_load2, c_load3, c_count};

use c_types::{CCountAnswer, CLoadAnswer2, CLoadAnswer3, CMap2, CMap3};
use edition_reader::read_edition2_record;
use edition_writer::write_edition2_record;
use grid_map::{GridMap2, GridMap3};
use types::{Extents2, Extents3};

#[unsafe(no_mangle)]
pub extern "C" fn tembuzar_read_edition2_record2(
    bytes: &[u8],
    odds: &mut [f64],
    stamps: &mut [u32],
) -> CLoadAnswer2
    ensures { Told c_load2 (read_edition_entry 2 bytes.now (grid_of odds.old stamps.old))
        result (grid_of odds.new stamps.new) }
{
    CLoadAnswer2::from(read_edition2_record::<Extents2>(bytes, odds, stamps))
}

#[unsafe(no_mangle)]
pub extern "C" fn tembuzar_write_edition2_record2(
    map: CMap2,
    running: bool,
    odds: &[f64],
    stamps: &[u32],
    out: &mut [u8],
) -> CCountAnswer
    ensures { Told c_count (write_edition_entry (head2 map) running (grid_of odds.now stamps.now) out.old)
        result out.new }
{
    CCountAnswer::from(write_edition2_record(GridMap2::from(map), running, odds, stamps, out))
}

#[unsafe(no_mangle)]
pub extern "C" fn tembuzar_read_edition2_record3(
    bytes: &[u8],
    odds: &mut [f64],
    stamps: &mut [u32],
) -> CLoadAnswer3
    ensures { Told c_load3 (read_edition_entry 3 bytes.now (grid_of odds.old stamps.old))
        result (grid_of odds.new stamps.new) }
{
    CLoadAnswer3::from(read_edition2_record::<Extents3>(bytes, odds, stamps))
}

#[unsafe(no_mangle)]
pub extern "C" fn tembuzar_write_edition2_record3(
    map: CMap3,
    running: bool,
    odds: &[f64],
    stamps: &[u32],
    out: &mut [u8],
) -> CCountAnswer
    ensures { Told c_count (write_edition_entry (head3 map) running (grid_of odds.now stamps.now) out.old)
        result out.new }
{
    CCountAnswer::from(write_edition2_record(GridMap3::from(map), running, odds, stamps, out))
}
