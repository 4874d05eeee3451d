// From edition 1 to edition 2: a closed record whose bands all have the record's pair.
ghost use Rattle.std.specs.Prelude.{◌≡◌};
ghost use Rattle.rules.specs.RefusalNumbers.Editions.{upgrade_entry};
ghost use Rattle.record_writer.specs.Writing.{write_outcome};

use crate::copying::{put_rest, put_start};
use crate::moves::more;
use edition_writer::Stores;
use fields::{BYTE_SIZE, MODEL_SIZE};
use open_rows::bands_size;
use record_reader::{Reads, model_field_at, record_check};
use types::Refusal;

// The record of edition 2 of a record of edition 1, with these cuts between its bands, which all have the record's
// pair, from the first byte of what is lent: how many bytes it has.
pub fn upgrade_record<E: Reads + Stores>(
    bytes: &[u8],
    cuts: E::Cuts,
    out: &mut [u8],
) -> Result<u64, Refusal>
    ensures { write_outcome result out.new ≡ upgrade_entry E.AXES (E.cuts_of cuts) bytes.now out.old }
{
    record_check::<E>(bytes)?;
    let extents = E::extents_field_at(bytes, 0);
    let model_at = E::extents_size();
    let model = E::alike(model_field_at(bytes, model_at), cuts);
    if !extents.cuts_bounded(model) {
        return Err(Refusal::Cuts);
    }
    let size = bytes.len() + more::<E>();
    if out.len() < size {
        return Err(Refusal::Room {
            needed: size as u64,
        });
    }
    let bands = BYTE_SIZE + model_at;
    put_start(out, bytes, model_at);
    extents.put_bands(model, out, bands);
    put_rest(out, bands + bands_size::<E>(), bytes, model_at + MODEL_SIZE);
    Ok(size as u64)
}
