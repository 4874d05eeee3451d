// What the moves do by axes: how many bytes the one edition has more than the other, and what is handed over on the
// way back.
ghost use Rattle.std.specs.Prelude.{◌≡◌, ◌+◌, ◌*◌, []};
ghost use Rattle.rules.specs.Fields.{field_size};
ghost use Rattle.rules.specs.MapRecord.{model_length};
ghost use Rattle.rules.specs.EditionTwo.{byte_length, bands_size, cuts_for, cuts_of};
ghost use Rattle.rules.specs.RefusalNumbers.Editions as Editions;
ghost use Rattle.types.specs.Answers.{moved_of};

use edition_reader::Loads;
use edition_writer::Stores;
use fields::{BYTE_SIZE, MODEL_SIZE};
use open_rows::bands_size;
use rows::Shaped;
use types::{Bands, Extents2, Extents3, Model, Moved};

pub trait Moves: Loads + Stores {
    // What whoever moves a record back is told: how many bytes it has, and the cuts, where there are bands.
    type Moved: Copy;

    ghost moved_of: { Self.Moved → Editions.Moved };

    fn moved(self, size: u64, model: Self::Model) -> Self::Moved
        ensures { moved_of result ≡ record { size = size; cuts = cuts_of (Self.model_of self model).above } };
}

// How many bytes edition 2 has more, where it is closed: the edition's field and the mark's, and the bands' behind the
// first pair.
pub fn more<E: Shaped>() -> usize
    ensures { result + field_size model_length ≡ 2 * field_size byte_length + bands_size (cuts_for E.AXES) }
{
    2 * BYTE_SIZE + bands_size::<E>() - MODEL_SIZE
}

impl Moves for Extents2 {
    type Moved = u64;

    ghost moved_of = { λ size. record { size = size; cuts = [] } };

    fn moved(self, size: u64, _model: Model) -> u64 {
        size
    }
}

impl Moves for Extents3 {
    type Moved = Moved;

    ghost moved_of = { moved_of };

    fn moved(self, size: u64, bands: Bands) -> Moved {
        Moved {
            size,
            cuts: bands.cuts,
        }
    }
}
