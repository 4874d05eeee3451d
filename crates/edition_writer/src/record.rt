// The entry that writes the record of edition 2 of a map, of any number of axes.
ghost use Rattle.std.specs.Prelude.{◌≡◌};
ghost use Rattle.rules.specs.RefusalNumbers.Editions.{write_edition_entry};
ghost use Rattle.grid_map.specs.Heads.{head_of};
ghost use Rattle.marks.specs.Marking.{grid_of};
ghost use Rattle.record_writer.specs.Writing.{write_outcome};

use crate::arranging::Rows;
use crate::parts::put_edition;
use crate::stores::Stores;
use checks::Uses;
use fields::{BYTE_SIZE, FRAME_SIZE};
use grid_map::GridMap;
use open_rows::bands_size;
use types::Refusal;

// The record of edition 2 of a map, from the first byte of what is lent: how many bytes it has. An open one has the
// stamps; a closed one looks at none, and they are not counted.
pub fn write_edition2_record<E: Stores>(
    map: GridMap<E, E::Model>,
    running: bool,
    odds: &[f64],
    stamps: &[u32],
    out: &mut [u8],
) -> Result<u64, Refusal>
    ensures { write_outcome result out.new
        ≡ write_edition_entry (head_of E.extents E.model_of map) running (grid_of odds.now stamps.now) out.old }
{
    let uses = Uses {
        stamps: running,
        ..Uses::WRITING
    };
    map.check(uses, odds.len(), stamps.len())?;
    let extents = map.extents;
    let bands_at = BYTE_SIZE + E::extents_size();
    let frame_at = bands_at + bands_size::<E>();
    let rows_at = frame_at + FRAME_SIZE + BYTE_SIZE;
    let rows = Rows {
        odds,
        stamps,
        width: extents.row_width(),
        count: extents.row_count(),
        frame: map.frame,
        running,
    };
    let size = rows.size_if_writable(extents.lowest(map.model), rows_at, out.len())?;
    put_edition(out, 0);
    extents.put_extents(out, BYTE_SIZE);
    extents.put_bands(map.model, out, bands_at);
    rows.put_rest(out, frame_at);
    Ok(size)
}
