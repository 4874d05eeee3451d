// What writing a record of edition 2 does by axes: the fields of the bands, one pair for two axes, and three pairs and
// the cuts for three.
ghost use Rattle.std.specs.Prelude.{◌≡◌, ◌+◌, ◌≤◌, ◌<◌, length, T};
ghost use Rattle.std.proofs.lemmas.List.Edits.{sets};
ghost use Rattle.rules.specs.TheGridAndItsBounds.{cuts_in_bounds, plain_model};
ghost use Rattle.rules.specs.EditionTwo.{bands_bytes, bands_size, cuts_for};
ghost use Rattle.laws.specs.Checks.{InBounds};
ghost use Rattle.types.specs.Models.{model_of, bands_of};
ghost use Rattle.types.specs.declared.points.Extents3 as Points;
ghost use Rattle.edition_writer.specs.Bands.{above2, above3};

use crate::parts::put_cuts;
use fields::MODEL_SIZE;
use record_writer::{Writes, put_model};
use types::{Bands, Extents2, Extents3, Model};

pub trait Stores: Writes {
    // The fields of the bands: those bytes change and no other. Extents and cuts have passed, and there is room.
    fn put_bands(self, model: Self::Model, out: &mut [u8], at: usize)
        requires room { at + bands_size (cuts_for Self.AXES) ≤ length out.old }
        requires in_bounds { InBounds (Self.extents self) }
        requires cuts { T (cuts_in_bounds (Self.extents self) (Self.model_of self model)) }
        ensures { out.new ≡ sets out.old at (bands_bytes (Self.model_of self model)) };

    // The model of one band, by which odds are tried: every band has its bounds.
    fn lowest(self, model: Self::Model) -> Model
        ensures { model_of result
            ≡ plain_model (Self.model_of self model).lowest (Self.model_of self model).ceiling };

    // as many bands above the lowest as there are cuts
    ghost bands_each: { (e : Self) (m : Self.Model) → length (Self.model_of e m).above ≡ cuts_for Self.AXES };
}

impl Stores for Extents2 {
    fn put_bands(self, model: Model, out: &mut [u8], at: usize) {
        put_model(out, at, model);
    }

    fn lowest(self, model: Model) -> Model {
        model
    }

    ghost bands_each = { λ e m. above2 };
}

// The three pairs, each with the ceiling, and the cuts, which two bytes hold each.
pub fn put_bands(out: &mut [u8], at: usize, bands: Bands)
    requires room { at + bands_size 2 ≤ length out.old }
    requires first_short { bands.cuts.first < 65_536 }
    requires second_short { bands.cuts.second < 65_536 }
    ensures { (e : Points.Extents3) → out.new ≡ sets out.old at (bands_bytes (bands_of e bands)) }
{
    let low = bands.low;
    let middle = bands.middle;
    let high = bands.high;
    put_model(out, at, low.with(bands.ceiling));
    put_model(out, at + MODEL_SIZE, middle.with(bands.ceiling));
    put_model(out, at + 2 * MODEL_SIZE, high.with(bands.ceiling));
    put_cuts(out, at + 3 * MODEL_SIZE, bands.cuts);
}

impl Stores for Extents3 {
    fn put_bands(self, bands: Bands, out: &mut [u8], at: usize) {
        put_bands(out, at, bands);
    }

    fn lowest(self, bands: Bands) -> Model {
        bands.lowest()
    }

    ghost bands_each = { λ e m. above3 };
}
