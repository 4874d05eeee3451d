// Odds from the floor to the ceiling, a whole row at a time. A branch for each number would take most of the time of a
// record, so each number gets a mark instead: its highest bit says that the number is not within the bounds. The marks
// of a row are put together by "or", and what they come to is looked at once.
ghost use Rattle.std.specs.Prelude.{◌≡◌, cond};
ghost use Rattle.rules.specs.MapRecord.{from_floor_to_ceiling};
ghost use Rattle.types.specs.Models.{model_of};
ghost use Rattle.rows.specs.Marks.{highest, first_above};

use fields::bits_of;
use types::Model;

// The highest bit of 64: of a mark, and of a float's pattern, where it is the sign.
pub const HIGHEST: u64 = 0x8000_0000_0000_0000;

// From the floor to the ceiling, both included; a NaN is not.
fn from_floor_to_ceiling(model: Model, x: f64) -> bool
    ensures { result ≡ from_floor_to_ceiling (model_of model) x }
{
    let ceiling = model.ceiling;
    if -ceiling <= x {
        return x <= ceiling;
    }
    false
}

// The mark of a number.
pub fn mark_of(model: Model, x: f64) -> u64
    ensures { result ≡ cond (from_floor_to_ceiling (model_of model) x) 0 highest }
{
    if from_floor_to_ceiling(model, x) {
        return 0;
    }
    HIGHEST
}

// The first pattern, without its sign, that is above the ceiling's; 0 if the ceiling is below zero or NaN, since no
// number is from the floor to the ceiling then. The mark of a pattern is how far it is above this one, plus the highest
// bit.
pub fn first_above(model: Model) -> u64
    ensures { result ≡ first_above model.ceiling }
{
    let ceiling = model.ceiling;
    if 0.0 <= ceiling {
        return bits_of(ceiling) % HIGHEST + 1;
    }
    0
}
