// Rows of odds and of stamps by turns: tried, and read.
ghost use Rattle.std.specs.Prelude.{◌≡◌, true, ◌+◌, ◌*◌, ◌≤◌, length, drop};
ghost use Rattle.std.proofs.lemmas.List.Edits.{sets};
ghost use Rattle.rules.specs.TheGridAndItsBounds.{most_extent};
ghost use Rattle.rules.specs.EditionTwo.{row_size};
ghost use Rattle.checks.specs.Checking.{check_of};
ghost use Rattle.types.specs.Models.{model_of};
ghost use Rattle.open_rows.specs.OpenRows.{open_refusal, open_odds, open_stamps};

use crate::stamps::{read_stamps, stamps_sound};
use fields::{FLOAT_SIZE, HEAD_SIZE, WORD_SIZE};
use rows::{read_row, record_broken, row_sound};
use types::{Frame, Model, Refusal};

// So many rows, or 10 with the offset of the first field that is not sound. The extents have passed, so a row is short.
pub fn open_rows_check(
    bytes: &[u8],
    at: usize,
    width: usize,
    count: usize,
    model: Model,
    frame: Frame,
) -> Result<(), Refusal>
    requires short { width ≤ most_extent }
    ensures { check_of result ≡ open_refusal (model_of model) frame.0 width count at (drop at bytes.now) }
{
    let mut here = at;
    for _ in 0..count {
        if !row_sound(bytes, here, width, model) {
            return Err(record_broken(here));
        }
        let stamps = here + (HEAD_SIZE + FLOAT_SIZE * width);
        if !stamps_sound(bytes, stamps, width, frame) {
            return Err(record_broken(stamps));
        }
        here = stamps + (HEAD_SIZE + WORD_SIZE * width);
    }
    Ok(())
}

// All rows into the lent lists. The rows' fields stand whole, and the lists have the room.
pub fn read_open_rows(
    bytes: &[u8],
    at: usize,
    width: usize,
    count: usize,
    odds: &mut [f64],
    stamps: &mut [u32],
)
    requires whole { at + count * row_size true width ≤ length bytes.now }
    requires odds_room { count * width ≤ length odds.old }
    requires stamps_room { count * width ≤ length stamps.old }
    ensures odds { odds.new ≡ sets odds.old 0 (open_odds width count (drop at bytes.now)) }
    ensures stamps { stamps.new ≡ sets stamps.old 0 (open_stamps width count (drop at bytes.now)) }
{
    let mut here = at;
    let mut place: usize = 0;
    for _ in 0..count {
        read_row(bytes, here + HEAD_SIZE, &mut odds[place..place + width]);
        here += HEAD_SIZE + FLOAT_SIZE * width;
        read_stamps(bytes, here + HEAD_SIZE, &mut stamps[place..place + width]);
        here += HEAD_SIZE + WORD_SIZE * width;
        place += width;
    }
}
