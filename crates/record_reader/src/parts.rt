// The fields of a map record, each wherever it stands: what it holds, and whether it is sound, that is whole and within
// its bounds.
ghost use Rattle.std.specs.Prelude.{◌≡◌, ◌+◌, ◌≤◌, length, drop};
ghost use Rattle.rules.specs.Fields.{field_size, contents, sound_here};
ghost use Rattle.rules.specs.MapRecord.{extents_field, model_length, model_field, frame_length, frame_field};
ghost use Rattle.checks.specs.Checking.{check_of};
ghost use Rattle.types.specs.Models.{model_of};
ghost use Rattle.record_reader.specs.Reading.{end_refusal};

use crate::reads::Reads;
use checks::{is_bounded, is_open};
use fields::{
    END_LENGTH, END_SIZE, END_TAG, EXTENTS_TAG, FLOAT_SIZE, FRAME_LENGTH, FRAME_TAG, HEAD_SIZE,
    MODEL_LENGTH, MODEL_TAG, f64_at, field_here, u32_at,
};
use rows::record_broken;
use types::{Frame, Model, Refusal};

pub fn extents_sound<E: Reads>(bytes: &[u8], at: usize) -> bool
    ensures { result ≡ sound_here (extents_field E.AXES) (drop at bytes.now) }
{
    field_here(bytes, at, EXTENTS_TAG, E::extents_length())
        && E::extents_field_at(bytes, at).extents_check().is_ok()
}

// The model's field stands whole.
pub fn model_field_at(bytes: &[u8], at: usize) -> Model
    requires whole { at + field_size model_length ≤ length bytes.now }
    ensures { model_of result ≡ contents model_field (drop at bytes.now) }
{
    let occupied = at + HEAD_SIZE;
    let free = occupied + FLOAT_SIZE;
    let ceiling = free + FLOAT_SIZE;
    Model {
        occupied: f64_at(bytes, occupied),
        free: f64_at(bytes, free),
        ceiling: f64_at(bytes, ceiling),
    }
}

pub fn model_sound(bytes: &[u8], at: usize) -> bool
    ensures { result ≡ sound_here model_field (drop at bytes.now) }
{
    field_here(bytes, at, MODEL_TAG, MODEL_LENGTH) && is_bounded(model_field_at(bytes, at))
}

// The frame's field stands whole.
pub fn frame_field_at(bytes: &[u8], at: usize) -> Frame
    requires whole { at + field_size frame_length ≤ length bytes.now }
    ensures { result.0 ≡ contents frame_field (drop at bytes.now) }
{
    Frame(u32_at(bytes, at + HEAD_SIZE))
}

pub fn frame_sound(bytes: &[u8], at: usize) -> bool
    ensures { result ≡ sound_here frame_field (drop at bytes.now) }
{
    field_here(bytes, at, FRAME_TAG, FRAME_LENGTH) && is_open(frame_field_at(bytes, at))
}

// The end's field, and nothing after it.
pub fn end_check(bytes: &[u8], at: usize) -> Result<(), Refusal>
    ensures { check_of result ≡ end_refusal at (drop at bytes.now) }
{
    if !field_here(bytes, at, END_TAG, END_LENGTH) {
        return Err(record_broken(at));
    }
    if bytes.len() - at == END_SIZE {
        return Ok(());
    }
    Err(record_broken(at + END_SIZE))
}
