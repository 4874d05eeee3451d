// Trying a record of edition 2, field by field, before anything is written: the arrangement of its fields, each at the
// offset where the one before it ends.
ghost use Rattle.std.specs.Prelude.{◌≡◌, ◌≤◌, drop};
ghost use Rattle.rules.specs.TheGridAndItsBounds.{most_extent};
ghost use Rattle.rules.specs.EditionTwo.{edition_of};
ghost use Rattle.checks.specs.Checking.{check_of};
ghost use Rattle.types.specs.Models.{model_of};
ghost use Rattle.rows.specs.Rows.{refusal_in};
ghost use Rattle.edition_reader.specs.Editions.{open_and_end, after_frame, after_bands};

use crate::loads::Loads;
use crate::parts::{edition_sound, is_open_at, mark_sound};
use fields::{BYTE_SIZE, FLOAT_SIZE, FRAME_SIZE, HEAD_SIZE, WORD_SIZE};
use open_rows::{bands_size, open_rows_check};
use record_reader::{
    end_check, extents_sound, frame_field_at, frame_sound, model_field_at, rows_and_end,
};
use rows::record_broken;
use types::{Frame, Model, Refusal};

// So many rows of odds and of stamps, then the end. The extents have passed, so a row is short.
fn open_and_end(
    bytes: &[u8],
    at: usize,
    width: usize,
    count: usize,
    model: Model,
    frame: Frame,
) -> Result<(), Refusal>
    requires short { width ≤ most_extent }
    ensures { check_of result ≡ open_and_end (model_of model) frame.0 width count at (drop at bytes.now) }
{
    open_rows_check(bytes, at, width, count, model, frame)?;
    let row_size = (HEAD_SIZE + FLOAT_SIZE * width) + (HEAD_SIZE + WORD_SIZE * width);
    end_check(bytes, at + count * row_size)
}

// The mark, the rows and the end. The extents have passed, so a row is short.
fn after_frame(
    bytes: &[u8],
    at: usize,
    width: usize,
    count: usize,
    model: Model,
    frame: Frame,
) -> Result<(), Refusal>
    requires short { width ≤ most_extent }
    ensures { check_of result ≡ after_frame (model_of model) frame.0 width count at (drop at bytes.now) }
{
    if !mark_sound(bytes, at) {
        return Err(record_broken(at));
    }
    if is_open_at(bytes, at) {
        return open_and_end(bytes, at + BYTE_SIZE, width, count, model, frame);
    }
    rows_and_end(bytes, at + BYTE_SIZE, width, count, model)
}

// The frame, the mark, the rows and the end. The extents have passed, so a row is short.
fn after_bands(
    bytes: &[u8],
    at: usize,
    width: usize,
    count: usize,
    model: Model,
) -> Result<(), Refusal>
    requires short { width ≤ most_extent }
    ensures { check_of result ≡ after_bands (model_of model) width count at (drop at bytes.now) }
{
    if !frame_sound(bytes, at) {
        return Err(record_broken(at));
    }
    let frame = frame_field_at(bytes, at);
    after_frame(bytes, at + FRAME_SIZE, width, count, model, frame)
}

// The whole record. The rows are tried by the ceiling alone, which the first pair has too.
pub fn edition_check<E: Loads>(bytes: &[u8]) -> Result<(), Refusal>
    ensures { check_of result ≡ refusal_in (edition_of E.AXES bytes.now) }
{
    if !edition_sound(bytes, 0) {
        return Err(record_broken(0));
    }
    if !extents_sound::<E>(bytes, BYTE_SIZE) {
        return Err(record_broken(BYTE_SIZE));
    }
    let extents = E::extents_field_at(bytes, BYTE_SIZE);
    let bands = BYTE_SIZE + E::extents_size();
    extents.bands_check(bytes, bands)?;
    after_bands(
        bytes,
        bands + bands_size::<E>(),
        extents.row_width(),
        extents.row_count(),
        model_field_at(bytes, bands),
    )
}
