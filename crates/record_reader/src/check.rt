// Trying a record of edition 1, field by field, before anything is written: the arrangement of its fields, each at the
// offset where the one before it ends.
ghost use Rattle.std.specs.Prelude.{◌≡◌, ◌≤◌, drop};
ghost use Rattle.rules.specs.TheGridAndItsBounds.{most_extent};
ghost use Rattle.rules.specs.MapRecord.{record_of};
ghost use Rattle.checks.specs.Checking.{check_of};
ghost use Rattle.types.specs.Models.{model_of};
ghost use Rattle.rows.specs.Rows.{refusal_in};
ghost use Rattle.record_reader.specs.Reading.{rows_and_end, after_extents};

use crate::parts::{end_check, extents_sound, frame_sound, model_field_at, model_sound};
use crate::reads::Reads;
use fields::{FLOAT_SIZE, FRAME_SIZE, HEAD_SIZE, MODEL_SIZE};
use rows::{record_broken, rows_check};
use types::{Model, Refusal};

// So many rows, then the end. The extents have passed, so a row is short.
pub fn rows_and_end(
    bytes: &[u8],
    at: usize,
    width: usize,
    count: usize,
    model: Model,
) -> Result<(), Refusal>
    requires short { width ≤ most_extent }
    ensures { check_of result ≡ rows_and_end (model_of model) width count at (drop at bytes.now) }
{
    rows_check(bytes, at, width, count, model)?;
    end_check(bytes, at + count * (HEAD_SIZE + FLOAT_SIZE * width))
}

// The model, the frame, the rows and the end. The extents have passed, so a row is short.
fn after_extents(bytes: &[u8], at: usize, width: usize, count: usize) -> Result<(), Refusal>
    requires short { width ≤ most_extent }
    ensures { check_of result ≡ after_extents width count at (drop at bytes.now) }
{
    if !model_sound(bytes, at) {
        return Err(record_broken(at));
    }
    let model = model_field_at(bytes, at);
    let frame = at + MODEL_SIZE;
    if !frame_sound(bytes, frame) {
        return Err(record_broken(frame));
    }
    rows_and_end(bytes, frame + FRAME_SIZE, width, count, model)
}

// The whole record.
pub fn record_check<E: Reads>(bytes: &[u8]) -> Result<(), Refusal>
    ensures { check_of result ≡ refusal_in (record_of E.AXES bytes.now) }
{
    if !extents_sound::<E>(bytes, 0) {
        return Err(record_broken(0));
    }
    let extents = E::extents_field_at(bytes, 0);
    after_extents(
        bytes,
        E::extents_size(),
        extents.row_width(),
        extents.row_count(),
    )
}
