// A head lent by reference: opening a sweep advances its frame where it stands. The original's `&mut GridMap`.
ghost use Rattle.std.specs.Prelude.{◌≡◌};
ghost use Rattle.rules.specs.RefusalNumbers.Entries.{begin_scan_entry};
ghost use Rattle.grid_map.specs.Heads.{head_of};
ghost use Rattle.lent.specs.LentHead.{opened_as, left_in};

use grid_map::{Grid, GridMap};
use types::Refusal;

// Opens a sweep in a lent head: its frame goes on to the next one, and the rest of the head stays. A refused call
// changes nothing.
pub fn begin_scan<E: Grid>(
    map: &mut GridMap<E, E::Model>,
    stamps: &mut [u32],
) -> Result<(), Refusal>
    ensures { opened_as (head_of E.extents E.model_of) result map.new stamps.new
        ≡ left_in (head_of E.extents E.model_of map.old) (begin_scan_entry (head_of E.extents E.model_of map.old) stamps.old) }
{
    let was = *map;
    let opened = was.begin_scan(stamps)?;
    map.frame = opened.frame;
    Ok(())
}
