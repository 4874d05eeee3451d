// Rows of odds in a record: tried, and read. A row is a field with a float a cell.
ghost use Rattle.std.specs.Prelude.{◌≡◌, ◌+◌, ◌*◌, ◌≤◌, length, drop};
ghost use Rattle.std.proofs.lemmas.List.Edits.{sets};
ghost use Rattle.rules.specs.TheGridAndItsBounds.{most_extent};
ghost use Rattle.rules.specs.Fields.{field_size, floats_in, sound_here};
ghost use Rattle.rules.specs.MapRecord.{row_length, row_field, odds_in_bounds};
ghost use Rattle.checks.specs.Checking.{check_of};
ghost use Rattle.types.specs.Models.{model_of};
ghost use Rattle.rows.specs.Rows.{odds_at, rows_refusal};

use crate::bounds::{HIGHEST, first_above};
use crate::refusal::record_broken;
use fields::{FLOAT_SIZE, HEAD_SIZE, ROW_TAG, f64_at, field_here, u64_at};
use types::{Model, Refusal};

// The floats of a row, each within the bounds. The row's field stands whole.
fn row_in_bounds(bytes: &[u8], at: usize, width: usize, model: Model) -> bool
    requires whole { at + row_length width ≤ length bytes.now }
    ensures { result ≡ odds_in_bounds (model_of model) (floats_in width (drop at bytes.now)) }
{
    let above = first_above(model);
    let mut marks: u64 = 0;
    for i in 0..width {
        marks |= u64_at(bytes, at + FLOAT_SIZE * i) % HIGHEST + HIGHEST - above;
    }
    marks < HIGHEST
}

// Whether a row's field stands whole at a place, with its odds within the bounds. The extents have passed, so a row is
// short.
pub fn row_sound(bytes: &[u8], at: usize, width: usize, model: Model) -> bool
    requires short { width ≤ most_extent }
    ensures { result ≡ sound_here (row_field (model_of model) width) (drop at bytes.now) }
{
    field_here(bytes, at, ROW_TAG, FLOAT_SIZE * width)
        && row_in_bounds(bytes, at + HEAD_SIZE, width, model)
}

// So many rows, or 10 with the offset of the first that is not sound. The extents have passed, so a row is short.
pub fn rows_check(
    bytes: &[u8],
    at: usize,
    width: usize,
    count: usize,
    model: Model,
) -> Result<(), Refusal>
    requires short { width ≤ most_extent }
    ensures { check_of result ≡ rows_refusal (model_of model) width count at (drop at bytes.now) }
{
    let mut here = at;
    for _ in 0..count {
        if !row_sound(bytes, here, width, model) {
            return Err(record_broken(here));
        }
        here += HEAD_SIZE + FLOAT_SIZE * width;
    }
    Ok(())
}

// A row's floats into the lent odds. The row's field stands whole.
pub fn read_row(bytes: &[u8], at: usize, row: &mut [f64])
    requires whole { at + row_length (length row.old) ≤ length bytes.now }
    ensures { row.new ≡ floats_in (length row.old) (drop at bytes.now) }
{
    for (i, x) in row.iter_mut().enumerate() {
        *x = f64_at(bytes, at + FLOAT_SIZE * i);
    }
}

// All rows into the lent odds. The rows' fields stand whole, and the odds have the room.
pub fn read_rows(bytes: &[u8], at: usize, width: usize, count: usize, odds: &mut [f64])
    requires whole { at + count * field_size (row_length width) ≤ length bytes.now }
    requires room { count * width ≤ length odds.old }
    ensures { odds.new ≡ sets odds.old 0 (odds_at width count (drop at bytes.now)) }
{
    let mut here = at;
    let mut place: usize = 0;
    for _ in 0..count {
        read_row(bytes, here + HEAD_SIZE, &mut odds[place..place + width]);
        here += HEAD_SIZE + FLOAT_SIZE * width;
        place += width;
    }
}
