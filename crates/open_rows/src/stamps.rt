// One row of stamps: tried, read, and written. A stamp's frame is no higher than the record's: stamps get marks, as
// numbers do in `rows`, and the marks of a row are looked at once.
ghost use Rattle.std.specs.Prelude.{◌≡◌, cond, ◌+◌, ◌*◌, ◌≤◌, leb, length, drop};
ghost use Rattle.std.proofs.lemmas.List.Edits.{sets};
ghost use Rattle.rules.specs.TheGridAndItsBounds.{most_extent};
ghost use Rattle.rules.specs.MarksAndFrames.{frame_of};
ghost use Rattle.rules.specs.Fields.{field, field_size, sound_here};
ghost use Rattle.rules.specs.EditionTwo.{stamps_tag, stamps_length, stamps_in, stamp_bytes, none_above, stamps_field};

use fields::{HEAD_SIZE, STAMPS_TAG, WORD_SIZE, field_here, put_field, put_words, u32_at};
use types::Frame;

// The highest bit of 32.
const HIGHEST: u32 = 0x8000_0000;

// A stamp's mark: its highest bit says that the frame is not this one or an earlier one.
fn mark_of(stamp: u32, frame: Frame) -> u32
    ensures { result ≡ cond (leb (frame_of stamp) frame.0) 0 0x8000_0000 }
{
    if stamp / 2 <= frame.0 {
        return 0;
    }
    HIGHEST
}

// The stamps of a row, none above the frame. The row's field stands whole.
fn row_not_above(bytes: &[u8], at: usize, width: usize, frame: Frame) -> bool
    requires whole { at + stamps_length width ≤ length bytes.now }
    ensures { result ≡ none_above frame.0 (stamps_in width (drop at bytes.now)) }
{
    let mut marks: u32 = 0;
    for i in 0..width {
        marks |= mark_of(u32_at(bytes, at + WORD_SIZE * i), frame);
    }
    marks < HIGHEST
}

// Whether a field of stamps stands whole at a place, none above the frame. The extents have passed, so a row is short.
pub fn stamps_sound(bytes: &[u8], at: usize, width: usize, frame: Frame) -> bool
    requires short { width ≤ most_extent }
    ensures { result ≡ sound_here (stamps_field frame.0 width) (drop at bytes.now) }
{
    field_here(bytes, at, STAMPS_TAG, WORD_SIZE * width)
        && row_not_above(bytes, at + HEAD_SIZE, width, frame)
}

// The stamps of a row into the lent ones. The row's field stands whole.
pub fn read_stamps(bytes: &[u8], at: usize, row: &mut [u32])
    requires whole { at + stamps_length (length row.old) ≤ length bytes.now }
    ensures { row.new ≡ stamps_in (length row.old) (drop at bytes.now) }
{
    for (i, n) in row.iter_mut().enumerate() {
        *n = u32_at(bytes, at + WORD_SIZE * i);
    }
}

// The lent stamps of one row, none above the frame.
pub fn stamps_not_above(row: &[u32], frame: Frame) -> bool
    ensures { result ≡ none_above frame.0 row.now }
{
    let mut marks: u32 = 0;
    for n in row {
        marks |= mark_of(*n, frame);
    }
    marks < HIGHEST
}

// A field of stamps. The row is short, and there is room for it.
pub fn write_stamps(out: &mut [u8], at: usize, row: &[u32])
    requires room { at + field_size (stamps_length (length row.now)) ≤ length out.old }
    requires short { length row.now ≤ most_extent }
    ensures { out.new ≡ sets out.old at (field stamps_tag (stamp_bytes row.now)) }
{
    put_field(out, at, STAMPS_TAG, WORD_SIZE * row.len());
    put_words(out, at + HEAD_SIZE, row);
}
