// From edition 2 back to edition 1, where that can hold the record: its sweep is closed and its pairs are equal. The
// cuts, which edition 1 has not, are handed to the caller.
ghost use Rattle.std.specs.Prelude.{◌≡◌};
ghost use Rattle.rules.specs.RefusalNumbers.Editions.{downgrade_entry};
ghost use Rattle.editions.specs.Moves.{moved_outcome};

use crate::copying::put_back;
use crate::moves::{Moves, more};
use edition_reader::{edition_check, is_open_at};
use fields::{BYTE_SIZE, FRAME_SIZE, MODEL_SIZE};
use open_rows::bands_size;
use types::Refusal;

// The record of edition 1 of a record of edition 2, from the first byte of what is lent: how many bytes it has, and the
// cuts, which it has not.
pub fn downgrade_record<E: Moves>(bytes: &[u8], out: &mut [u8]) -> Result<E::Moved, Refusal>
    ensures { moved_outcome E.moved_of result out.new ≡ downgrade_entry E.AXES bytes.now out.old }
{
    edition_check::<E>(bytes)?;
    let extents = E::extents_field_at(bytes, BYTE_SIZE);
    let first = E::extents_size();
    let bands = BYTE_SIZE + first;
    let frame = bands + bands_size::<E>();
    let model = E::bands_at(bytes, bands);
    if is_open_at(bytes, frame + FRAME_SIZE) || extents.one_model(model).is_none() {
        return Err(Refusal::Edition);
    }
    let size = bytes.len() - more::<E>();
    if out.len() < size {
        return Err(Refusal::Room {
            needed: size as u64,
        });
    }
    put_back(out, bytes, first + MODEL_SIZE, frame);
    Ok(extents.moved(size as u64, model))
}
