// What reading a record of edition 2 does by axes: the fields of the bands, one pair for two axes, and three pairs and
// the cuts for three.
ghost use Rattle.std.specs.Prelude.{◌≡◌, ◌+◌, ◌≤◌, length, drop};
ghost use Rattle.rules.specs.EditionTwo.{bands_size, cuts_for};
ghost use Rattle.checks.specs.Checking.{check_of};
ghost use Rattle.types.specs.Points.{extents3};
ghost use Rattle.edition_reader.specs.Editions.{bands_broken, bands_here, cuts_at, cuts_broken};

use crate::parts::{pair_of, pair_sound};
use checks::cuts_in_bounds;
use fields::{CUTS_LENGTH, CUTS_TAG, HEAD_SIZE, MODEL_SIZE, SHORT_SIZE, field_here, u16_at};
use record_reader::{Reads, model_field_at, model_sound};
use rows::record_broken;
use types::{Bands, Cuts, Extents2, Extents3, Model, Refusal};

pub trait Loads: Reads {
    // Whether they are sound, each after the one before it.
    fn bands_check(self, bytes: &[u8], at: usize) -> Result<(), Refusal>
        ensures { check_of result ≡ bands_broken (cuts_for Self.AXES) (Self.extents self) at (drop at bytes.now) };

    // What they hold. They stand whole.
    fn bands_at(bytes: &[u8], at: usize) -> Self::Model
        requires whole { at + bands_size (cuts_for Self.AXES) ≤ length bytes.now }
        ensures { (e : Self) → Self.model_of e result
            ≡ bands_here (cuts_for Self.AXES) (Self.extents e) (drop at bytes.now) };
}

impl Loads for Extents2 {
    fn bands_check(self, bytes: &[u8], at: usize) -> Result<(), Refusal> {
        if model_sound(bytes, at) {
            return Ok(());
        }
        Err(record_broken(at))
    }

    fn bands_at(bytes: &[u8], at: usize) -> Model {
        model_field_at(bytes, at)
    }
}

// The cuts' field behind three pairs, which stand whole.
fn cuts_check(bytes: &[u8], at: usize, e: Extents3) -> Result<(), Refusal>
    requires pairs { at + cuts_at 2 ≤ length bytes.now }
    ensures { check_of result ≡ cuts_broken 2 (extents3 e) at (drop at bytes.now) }
{
    let cuts = at + 3 * MODEL_SIZE;
    if !field_here(bytes, cuts, CUTS_TAG, CUTS_LENGTH) {
        return Err(record_broken(cuts));
    }
    if cuts_in_bounds(e, Extents3::bands_at(bytes, at)) {
        return Ok(());
    }
    Err(record_broken(cuts))
}

impl Loads for Extents3 {
    fn bands_check(self, bytes: &[u8], at: usize) -> Result<(), Refusal> {
        if !model_sound(bytes, at) {
            return Err(record_broken(at));
        }
        let low = model_field_at(bytes, at);
        let middle = at + MODEL_SIZE;
        if !pair_sound(bytes, middle, low.ceiling) {
            return Err(record_broken(middle));
        }
        let high = middle + MODEL_SIZE;
        if !pair_sound(bytes, high, low.ceiling) {
            return Err(record_broken(high));
        }
        cuts_check(bytes, at, self)
    }

    fn bands_at(bytes: &[u8], at: usize) -> Bands {
        let middle = at + MODEL_SIZE;
        let high = middle + MODEL_SIZE;
        let first = high + MODEL_SIZE + HEAD_SIZE;
        let second = first + SHORT_SIZE;
        let low = model_field_at(bytes, at);
        Bands {
            low: pair_of(low),
            middle: pair_of(model_field_at(bytes, middle)),
            high: pair_of(model_field_at(bytes, high)),
            ceiling: low.ceiling,
            cuts: Cuts {
                first: u16_at(bytes, first) as u64,
                second: u16_at(bytes, second) as u64,
            },
        }
    }
}
