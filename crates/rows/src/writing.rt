// Rows of odds tried before a record is written, and written. The head has passed its checks, so there is one number
// per cell.
ghost use Rattle.std.specs.Prelude.{◌≡◌, ◌+◌, ◌*◌, ◌^◌, ◌≤◌, ◌<◌, length};
ghost use Rattle.std.proofs.lemmas.List.Edits.{sets};
ghost use Rattle.rules.specs.TheGridAndItsBounds.{most_extent};
ghost use Rattle.rules.specs.Fields.{field, field_size, float_bytes};
ghost use Rattle.rules.specs.MapRecord.{row_tag, row_length, odds_in_bounds, rows_bytes, rows_checked};
ghost use Rattle.types.specs.Models.{model_of};
ghost use Rattle.checks.specs.Checking.{check_of};
ghost use Rattle.rows.specs.Rows.{refusal_in};

use crate::bounds::{HIGHEST, mark_of};
use crate::refusal::record_broken;
use fields::{FLOAT_SIZE, HEAD_SIZE, ROW_TAG, put_field, put_floats};
use types::{Model, Refusal};

// The odds of one row, each within the bounds.
pub fn odds_in_bounds(row: &[f64], model: Model) -> bool
    ensures { result ≡ odds_in_bounds (model_of model) row.now }
{
    let mut marks: u64 = 0;
    for x in row {
        marks |= mark_of(model, *x);
    }
    marks < HIGHEST
}

// All rows, or 10 with the offset of the first whose odds are not within the bounds. The rows are the list's, and their
// bytes can be counted.
pub fn rows_writable(
    odds: &[f64],
    width: usize,
    count: usize,
    model: Model,
    at: usize,
) -> Result<(), Refusal>
    requires all_there { count * width ≤ length odds.now }
    requires countable { at + count * field_size (row_length width) < 2 ^ 64 }
    ensures { check_of result ≡ refusal_in (rows_checked (model_of model) width count at odds.now) }
{
    let mut here = at;
    let mut place: usize = 0;
    for _ in 0..count {
        if !odds_in_bounds(&odds[place..place + width], model) {
            return Err(record_broken(here));
        }
        here += HEAD_SIZE + FLOAT_SIZE * width;
        place += width;
    }
    Ok(())
}

// A row's field. The row is short, and there is room for it.
pub fn write_row(out: &mut [u8], at: usize, row: &[f64])
    requires room { at + field_size (row_length (length row.now)) ≤ length out.old }
    requires short { length row.now ≤ most_extent }
    ensures { out.new ≡ sets out.old at (field row_tag (float_bytes row.now)) }
{
    put_field(out, at, ROW_TAG, FLOAT_SIZE * row.len());
    put_floats(out, at + HEAD_SIZE, row);
}

// All rows. They are the list's and short, and there is room for them.
pub fn write_rows(out: &mut [u8], at: usize, odds: &[f64], width: usize, count: usize)
    requires room { at + count * field_size (row_length width) ≤ length out.old }
    requires all_there { count * width ≤ length odds.now }
    requires short { width ≤ most_extent }
    ensures { out.new ≡ sets out.old at (rows_bytes width count odds.now) }
{
    let mut here = at;
    let mut place: usize = 0;
    for _ in 0..count {
        write_row(out, here, &odds[place..place + width]);
        here += HEAD_SIZE + FLOAT_SIZE * width;
        place += width;
    }
}
