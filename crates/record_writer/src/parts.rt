// The fields of a map record after the extents', each written wherever it is to stand: those bytes change and no other.
// Whoever writes has seen that there is room.
ghost use Rattle.std.specs.Prelude.{◌≡◌, [], ◌+◌, ◌≤◌, length};
ghost use Rattle.std.proofs.lemmas.List.Edits.{sets};
ghost use Rattle.rules.specs.Fields.{field, field_size};
ghost use Rattle.rules.specs.MapRecord.{model_length, frame_length, end_tag, end_length};
ghost use Rattle.types.specs.Models.{model_of};
ghost use Rattle.record_writer.specs.Writing.{model_written, frame_written};

use fields::{
    END_LENGTH, END_TAG, FLOAT_SIZE, FRAME_LENGTH, FRAME_TAG, HEAD_SIZE, MODEL_LENGTH, MODEL_TAG,
    put_f64, put_field, put_u32,
};
use types::{Frame, Model};

pub fn put_model(out: &mut [u8], at: usize, model: Model)
    requires room { at + field_size model_length ≤ length out.old }
    ensures { out.new ≡ sets out.old at (model_written (model_of model)) }
{
    let occupied = at + HEAD_SIZE;
    let free = occupied + FLOAT_SIZE;
    let ceiling = free + FLOAT_SIZE;
    put_field(out, at, MODEL_TAG, MODEL_LENGTH);
    put_f64(out, occupied, model.occupied);
    put_f64(out, free, model.free);
    put_f64(out, ceiling, model.ceiling);
}

pub fn put_frame(out: &mut [u8], at: usize, frame: Frame)
    requires room { at + field_size frame_length ≤ length out.old }
    ensures { out.new ≡ sets out.old at (frame_written frame.0) }
{
    put_field(out, at, FRAME_TAG, FRAME_LENGTH);
    put_u32(out, at + HEAD_SIZE, frame.0);
}

pub fn put_end(out: &mut [u8], at: usize)
    requires room { at + field_size end_length ≤ length out.old }
    ensures { out.new ≡ sets out.old at (field end_tag []) }
{
    put_field(out, at, END_TAG, END_LENGTH);
}
