// The entry that writes the record of a map, of any number of axes.
ghost use Rattle.std.specs.Prelude.{◌≡◌};
ghost use Rattle.rules.specs.RefusalNumbers.Entries as Entries;
ghost use Rattle.grid_map.specs.Heads.{head_of};
ghost use Rattle.record_writer.specs.Writing.{write_outcome};

use crate::arranging::{put_rest, size_if_writable};
use crate::writes::Writes;
use checks::Uses;
use fields::{FRAME_SIZE, MODEL_SIZE};
use grid_map::GridMap;
use rows::record_broken;
use types::Refusal;

// The record of a map, from the first byte of what is lent: how many bytes it has. Bands have to have one pair.
pub fn write_record<E: Writes>(
    map: GridMap<E, E::Model>,
    odds: &[f64],
    out: &mut [u8],
) -> Result<u64, Refusal>
    ensures { write_outcome result out.new
        ≡ Entries.write_record_entry (head_of E.extents E.model_of map) odds.now out.old }
{
    map.check(Uses::WRITING, odds.len(), 0)?;
    let extents = map.extents;
    let model_at = E::extents_size();
    let rows_at = model_at + MODEL_SIZE + FRAME_SIZE;
    let Some(model) = extents.one_model(map.model) else {
        return Err(record_broken(model_at));
    };
    let width = extents.row_width();
    let count = extents.row_count();
    let size = size_if_writable(odds, width, count, model, rows_at, out.len())?;
    extents.put_extents(out, 0);
    put_rest(out, model_at, model, map.frame, odds, width, count);
    Ok(size)
}
