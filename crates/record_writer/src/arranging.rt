// Edition 1's arrangement of a record's fields: how many bytes there are, whether they can be written, and the fields
// after the extents' one after another.
ghost use Rattle.std.specs.Prelude.{◌≡◌, ◌+◌, ◌*◌, ◌^◌, ◌≤◌, ◌<◌, length};
ghost use Rattle.std.proofs.lemmas.List.Edits.{sets};
ghost use Rattle.rules.specs.TheGridAndItsBounds.{most_extent};
ghost use Rattle.rules.specs.Fields.{field_size};
ghost use Rattle.rules.specs.MapRecord.{model_length, frame_length};
ghost use Rattle.types.specs.Answers.{count_answer};
ghost use Rattle.types.specs.Models.{model_of};
ghost use Rattle.record_writer.specs.Writing.{size_of, writable_rows, rest_bytes};

use crate::parts::{put_end, put_frame, put_model};
use fields::{END_SIZE, FLOAT_SIZE, FRAME_SIZE, HEAD_SIZE, MODEL_SIZE};
use rows::{rows_writable, write_rows};
use types::{Frame, Model, Refusal};

// The record's size, or why it cannot be written. The rows are the list's and short, and the bytes can be counted.
pub fn size_if_writable(
    odds: &[f64],
    width: usize,
    count: usize,
    model: Model,
    at: usize,
    room: usize,
) -> Result<u64, Refusal>
    requires all_there { count * width ≤ length odds.now }
    requires countable { size_of at width count < 2 ^ 64 }
    requires short { width ≤ most_extent }
    ensures { count_answer result ≡ writable_rows (model_of model) width count at odds.now room }
{
    rows_writable(odds, width, count, model, at)?;
    let size = at + count * (HEAD_SIZE + FLOAT_SIZE * width) + END_SIZE;
    if size <= room {
        return Ok(size as u64);
    }
    Err(Refusal::Room {
        needed: size as u64,
    })
}

// The fields after the extents'. The rows are the list's and short, and there is room for all.
pub fn put_rest(
    out: &mut [u8],
    at: usize,
    model: Model,
    frame: Frame,
    odds: &[f64],
    width: usize,
    count: usize,
)
    requires room { size_of (at + field_size model_length + field_size frame_length) width count ≤ length out.old }
    requires all_there { count * width ≤ length odds.now }
    requires short { width ≤ most_extent }
    ensures { out.new
        ≡ sets out.old at (rest_bytes (model_of model) frame.0 width count odds.now) }
{
    let frame_at = at + MODEL_SIZE;
    let rows = frame_at + FRAME_SIZE;
    let end = rows + count * (HEAD_SIZE + FLOAT_SIZE * width);
    put_model(out, at, model);
    put_frame(out, frame_at, frame);
    write_rows(out, rows, odds, width, count);
    put_end(out, end);
}
