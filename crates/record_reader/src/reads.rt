// What reading a record of edition 1 does by axes: the field of the extents, and the model, which has one pair and no
// cuts there.
ghost use Rattle.std.specs.Prelude.{◌≡◌, ℕ, List, [], ◌+◌, ◌≤◌, length, drop};
ghost use Rattle.rules.specs.Fields.{field_size, contents};
ghost use Rattle.rules.specs.MapRecord.{extents_length, extents_field, model_with_cuts};
ghost use Rattle.types.specs.Models as Models;

use fields::{HEAD_SIZE, SHORT_SIZE, u16_at};
use grid_map::Grid;
use rows::Shaped;
use types::{Bands, Cuts, Extents2, Extents3, Model, Pair};

pub trait Reads: Grid + Shaped {
    // What whoever reads a record of edition 1 gives beside it: the cuts between bands, where there are bands.
    type Cuts: Copy;

    ghost cuts_of: { Self.Cuts → List ℕ };

    // The extents' field stands whole.
    fn extents_field_at(bytes: &[u8], at: usize) -> Self
        requires whole { at + field_size (extents_length Self.AXES) ≤ length bytes.now }
        ensures { Self.extents result ≡ contents (extents_field Self.AXES) (drop at bytes.now) };

    // Every band with this model's pair.
    fn alike(model: Model, cuts: Self::Cuts) -> Self::Model
        ensures { (e : Self) → Self.model_of e result
            ≡ model_with_cuts (Self.extents e) (cuts_of cuts) (Models.model_of model) };
}

impl Reads for Extents2 {
    type Cuts = ();

    ghost cuts_of = { λ cuts. [] };

    fn extents_field_at(bytes: &[u8], at: usize) -> Extents2 {
        let x = at + HEAD_SIZE;
        let y = x + SHORT_SIZE;
        Extents2 {
            x: u16_at(bytes, x) as u64,
            y: u16_at(bytes, y) as u64,
        }
    }

    fn alike(model: Model, _cuts: ()) -> Model {
        model
    }
}

impl Reads for Extents3 {
    type Cuts = Cuts;

    ghost cuts_of = { Models.cuts_of };

    fn extents_field_at(bytes: &[u8], at: usize) -> Extents3 {
        let x = at + HEAD_SIZE;
        let y = x + SHORT_SIZE;
        let z = y + SHORT_SIZE;
        Extents3 {
            x: u16_at(bytes, x) as u64,
            y: u16_at(bytes, y) as u64,
            z: u16_at(bytes, z) as u64,
        }
    }

    fn alike(model: Model, cuts: Cuts) -> Bands {
        let pair = Pair {
            occupied: model.occupied,
            free: model.free,
        };
        Bands {
            low: pair,
            middle: pair,
            high: pair,
            ceiling: model.ceiling,
            cuts,
        }
    }
}
