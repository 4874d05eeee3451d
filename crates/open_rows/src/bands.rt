// The bands of a record of edition 2, which stand before its frame: one pair for two axes, and three pairs and the cuts
// for three.
ghost use Rattle.std.specs.Prelude.{◌≡◌};
ghost use Rattle.rules.specs.EditionTwo.{bands_size, cuts_for};

use fields::{BANDS_SIZE, MODEL_SIZE};
use rows::Shaped;

// How many bytes their fields have.
pub fn bands_size<E: Shaped>() -> usize
    ensures { result ≡ bands_size (cuts_for E.AXES) }
{
    if E::AXES == 3 {
        return BANDS_SIZE;
    }
    MODEL_SIZE
}
