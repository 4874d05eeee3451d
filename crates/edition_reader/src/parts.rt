// The fields that edition 2 adds, each wherever it stands: what it holds, and whether it is sound, that is whole and
// within its bounds. Those of edition 1 are record_reader's.
ghost use Rattle.std.specs.Prelude.{◌≡◌, ◌+◌, ◌≤◌, length, drop};
ghost use Rattle.rules.specs.Fields.{field_size, contents, sound_here};
ghost use Rattle.rules.specs.EditionTwo.{byte_length, edition_field, pair_field, open_field, marks_running};

use fields::{BYTE_LENGTH, EDITION_TAG, EDITION_TWO, HEAD_SIZE, OPEN_TAG, bits_of, field_here};
use record_reader::{model_field_at, model_sound};
use types::{Model, Pair};

pub fn edition_sound(bytes: &[u8], at: usize) -> bool
    ensures { result ≡ sound_here edition_field (drop at bytes.now) }
{
    field_here(bytes, at, EDITION_TAG, BYTE_LENGTH) && bytes[at + HEAD_SIZE] == EDITION_TWO
}

// A pair after the first: its ceiling is the first's.
pub fn pair_sound(bytes: &[u8], at: usize, ceiling: f64) -> bool
    ensures { result ≡ sound_here (pair_field ceiling) (drop at bytes.now) }
{
    if model_sound(bytes, at) {
        let model = model_field_at(bytes, at);
        return bits_of(model.ceiling) == bits_of(ceiling);
    }
    false
}

// The steps of a band, without the ceiling.
pub fn pair_of(model: Model) -> Pair
    ensures { result ≡ record { occupied = model.occupied; free = model.free } }
{
    Pair {
        occupied: model.occupied,
        free: model.free,
    }
}

// The mark's field stands whole.
pub fn is_open_at(bytes: &[u8], at: usize) -> bool
    requires whole { at + field_size byte_length ≤ length bytes.now }
    ensures { result ≡ marks_running (contents open_field (drop at bytes.now)) }
{
    bytes[at + HEAD_SIZE] == 1
}

pub fn mark_sound(bytes: &[u8], at: usize) -> bool
    ensures { result ≡ sound_here open_field (drop at bytes.now) }
{
    field_here(bytes, at, OPEN_TAG, BYTE_LENGTH) && bytes[at + HEAD_SIZE] <= 1
}
