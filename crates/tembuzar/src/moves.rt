// The moves between the editions of the map record, from C, for two and three axes. Each entry is the one of its name
// in editions; only the answer's form is another.
ghost use Rattle.std.specs.Prelude.{[]};
ghost use Rattle.rules.specs.RefusalNumbers.Editions.{upgrade_entry, downgrade_entry};
ghost use Rattle.types.specs.Models.{cuts_of};
ghost use Rattle.editions.specs.Moves.{size_alone};
ghost use Rattle.c_types.specs.Answers.{Told, c_count, c_move};

use c_types::{CCountAnswer, CMoveAnswer};
use editions::{downgrade_record, upgrade_record};
use types::{Cuts, Extents2, Extents3};

#[unsafe(no_mangle)]
pub extern "C" fn tembuzar_upgrade_record2(bytes: &[u8], out: &mut [u8]) -> CCountAnswer
    ensures { Told c_count (upgrade_entry 2 [] bytes.now out.old) result out.new }
{
    CCountAnswer::from(upgrade_record::<Extents2>(bytes, (), out))
}

#[unsafe(no_mangle)]
pub extern "C" fn tembuzar_downgrade_record2(bytes: &[u8], out: &mut [u8]) -> CCountAnswer
    ensures { Told c_count (size_alone (downgrade_entry 2 bytes.now out.old)) result out.new }
{
    CCountAnswer::from(downgrade_record::<Extents2>(bytes, out))
}

#[unsafe(no_mangle)]
pub extern "C" fn tembuzar_upgrade_record3(bytes: &[u8], cuts: Cuts, out: &mut [u8]) -> CCountAnswer
    ensures { Told c_count (upgrade_entry 3 (cuts_of cuts) bytes.now out.old) result out.new }
{
    CCountAnswer::from(upgrade_record::<Extents3>(bytes, cuts, out))
}

#[unsafe(no_mangle)]
pub extern "C" fn tembuzar_downgrade_record3(bytes: &[u8], out: &mut [u8]) -> CMoveAnswer
    ensures { Told c_move (downgrade_entry 3 bytes.now out.old) result out.new }
{
    CMoveAnswer::from(downgrade_record::<Extents3>(bytes, out))
}
