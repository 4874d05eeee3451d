// What writing a record of edition 1 does by axes: the field of the extents, and the model, of which the record has
// room for one pair.
ghost use Rattle.std.specs.Prelude.{◌≡◌, ◌&&◌, ◌+◌, ◌≤◌, length};
ghost use Rattle.std.proofs.lemmas.List.Edits.{sets};
ghost use Rattle.rules.specs.Fields.{field, field_size};
ghost use Rattle.rules.specs.MapRecord.{extents_tag, extents_length, extent_bytes, same_pair};
ghost use Rattle.laws.specs.Checks.{AxesInBounds};
ghost use Rattle.types.specs.Answers.{found_of};
ghost use Rattle.types.specs.Models.{model_of, pair_of};
ghost use Rattle.record_writer.specs.Writing.{one_model};

use fields::{
    EXTENTS_LENGTH2, EXTENTS_LENGTH3, EXTENTS_TAG, HEAD_SIZE, SHORT_SIZE, bits_of, put_field,
    put_u16,
};
use grid_map::Grid;
use rows::Shaped;
use types::{Bands, Extents2, Extents3, Model, Pair};

pub trait Writes: Grid + Shaped {
    // The extents' field: those bytes change and no other. The extents have passed, and there is room.
    fn put_extents(self, out: &mut [u8], at: usize)
        requires room { at + field_size (extents_length Self.AXES) ≤ length out.old }
        requires in_bounds { AxesInBounds (Self.extents self) }
        ensures { out.new ≡ sets out.old at (field extents_tag (extent_bytes (Self.extents self))) };

    // The model that stands for all bands, or nothing where their pairs are unequal. A map of two axes has one pair.
    fn one_model(self, model: Self::Model) -> Option<Model>
        ensures { found_of model_of result ≡ one_model (Self.model_of self model) };
}

// Finite numbers and not zero, so that equal bits are equal numbers: the head has passed its checks where this is
// asked.
fn same_pair(a: Pair, b: Pair) -> bool
    ensures { result ≡ same_pair (pair_of a) (pair_of b) }
{
    bits_of(a.occupied) == bits_of(b.occupied) && bits_of(a.free) == bits_of(b.free)
}

// The record of this edition has room for one pair.
pub fn equal_pairs(bands: Bands) -> bool
    ensures { result ≡ (same_pair (pair_of bands.low) (pair_of bands.middle)
        && same_pair (pair_of bands.low) (pair_of bands.high)) }
{
    same_pair(bands.low, bands.middle) && same_pair(bands.low, bands.high)
}

impl Writes for Extents2 {
    fn put_extents(self, out: &mut [u8], at: usize) {
        let x = at + HEAD_SIZE;
        let y = x + SHORT_SIZE;
        put_field(out, at, EXTENTS_TAG, EXTENTS_LENGTH2);
        put_u16(out, x, self.x as u16);
        put_u16(out, y, self.y as u16);
    }

    fn one_model(self, model: Model) -> Option<Model> {
        Some(model)
    }
}

impl Writes for Extents3 {
    fn put_extents(self, out: &mut [u8], at: usize) {
        let x = at + HEAD_SIZE;
        let y = x + SHORT_SIZE;
        let z = y + SHORT_SIZE;
        put_field(out, at, EXTENTS_TAG, EXTENTS_LENGTH3);
        put_u16(out, x, self.x as u16);
        put_u16(out, y, self.y as u16);
        put_u16(out, z, self.z as u16);
    }

    fn one_model(self, bands: Bands) -> Option<Model> {
        if equal_pairs(bands) {
            return Some(bands.lowest());
        }
        None
    }
}
