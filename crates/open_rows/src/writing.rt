// Rows of odds and of stamps by turns: tried before a record is written, and written. The head has passed its checks,
// so there is one number and one stamp per cell.
ghost use Rattle.std.specs.Prelude.{◌≡◌, true, ◌+◌, ◌*◌, ◌^◌, ◌≤◌, ◌<◌, length};
ghost use Rattle.std.proofs.lemmas.List.Edits.{sets};
ghost use Rattle.rules.specs.TheGridAndItsBounds.{most_extent};
ghost use Rattle.rules.specs.EditionTwo.{row_size, grid_tried, grid_bytes};
ghost use Rattle.types.specs.Models.{model_of};
ghost use Rattle.checks.specs.Checking.{check_of};
ghost use Rattle.marks.specs.Marking.{grid_of};
ghost use Rattle.rows.specs.Rows.{refusal_in};

use crate::stamps::{stamps_not_above, write_stamps};
use fields::{FLOAT_SIZE, HEAD_SIZE, WORD_SIZE};
use rows::{odds_in_bounds, record_broken, write_row};
use types::{Frame, Model, Refusal};

// All rows, or 10 with the offset of the first whose odds are not within the bounds, or that has a stamp above the
// frame. The rows are the lists', and their bytes can be counted.
pub fn open_rows_writable(
    odds: &[f64],
    stamps: &[u32],
    width: usize,
    count: usize,
    model: Model,
    frame: Frame,
    at: usize,
) -> Result<(), Refusal>
    requires all_odds { count * width ≤ length odds.now }
    requires all_stamps { count * width ≤ length stamps.now }
    requires countable { at + count * row_size true width < 2 ^ 64 }
    ensures { check_of result
        ≡ refusal_in (grid_tried true (model_of model) frame.0 width count at (grid_of odds.now stamps.now)) }
{
    let mut here = at;
    let mut place: usize = 0;
    for _ in 0..count {
        if !odds_in_bounds(&odds[place..place + width], model) {
            return Err(record_broken(here));
        }
        here += HEAD_SIZE + FLOAT_SIZE * width;
        if !stamps_not_above(&stamps[place..place + width], frame) {
            return Err(record_broken(here));
        }
        here += HEAD_SIZE + WORD_SIZE * width;
        place += width;
    }
    Ok(())
}

// All rows. They are the lists' and short, and there is room for them.
pub fn write_open_rows(
    out: &mut [u8],
    at: usize,
    odds: &[f64],
    stamps: &[u32],
    width: usize,
    count: usize,
)
    requires room { at + count * row_size true width ≤ length out.old }
    requires all_odds { count * width ≤ length odds.now }
    requires all_stamps { count * width ≤ length stamps.now }
    requires short { width ≤ most_extent }
    ensures { out.new
        ≡ sets out.old at (grid_bytes true width count (grid_of odds.now stamps.now)) }
{
    let mut here = at;
    let mut place: usize = 0;
    for _ in 0..count {
        write_row(out, here, &odds[place..place + width]);
        here += HEAD_SIZE + FLOAT_SIZE * width;
        write_stamps(out, here, &stamps[place..place + width]);
        here += HEAD_SIZE + WORD_SIZE * width;
        place += width;
    }
}
