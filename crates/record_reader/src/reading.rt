// Reading a record: the whole of it is tried, then the cuts that are given, then the lent lists, and only then are they
// written.
ghost use Rattle.std.specs.Prelude.{◌≡◌};
ghost use Rattle.rules.specs.RefusalNumbers.Entries.{read_record_entry};
ghost use Rattle.grid_map.specs.Heads.{head_of, map_outcome};
ghost use Rattle.marks.specs.Marking.{grid_of};

use crate::check::record_check;
use crate::parts::{frame_field_at, model_field_at};
use crate::reads::Reads;
use fields::{FRAME_SIZE, MODEL_SIZE};
use grid_map::GridMap;
use marks::clear_stamps;
use rows::read_rows;
use types::Refusal;

// A map from its record, with these cuts between its bands, all of which have the record's pair. A record of another
// number of axes is broken at its first field.
pub fn read_record<E: Reads>(
    bytes: &[u8],
    cuts: E::Cuts,
    odds: &mut [f64],
    stamps: &mut [u32],
) -> Result<GridMap<E, E::Model>, Refusal>
    ensures { map_outcome (head_of E.extents E.model_of) result odds.new stamps.new
        ≡ read_record_entry E.AXES (E.cuts_of cuts) bytes.now (grid_of odds.old stamps.old) }
{
    record_check::<E>(bytes)?;
    let extents = E::extents_field_at(bytes, 0);
    let model_at = E::extents_size();
    let frame_at = model_at + MODEL_SIZE;
    let model = E::alike(model_field_at(bytes, model_at), cuts);
    if !extents.cuts_bounded(model) {
        return Err(Refusal::Cuts);
    }
    let cells = extents.cells();
    if odds.len() != cells || stamps.len() != cells {
        return Err(Refusal::Buffer);
    }
    let width = extents.row_width();
    let count = extents.row_count();
    read_rows(bytes, frame_at + FRAME_SIZE, width, count, odds);
    clear_stamps(stamps);
    Ok(GridMap {
        extents,
        model,
        frame: frame_field_at(bytes, frame_at),
    })
}
