// Whether one axis of a cell or of a point is off the grid, and the set of such axes: a number whose bit k is 1 where
// axis k is.
ghost use Rattle.std.specs.Prelude.{◌≡◌, ◌≤◌, not, if◌then◌else◌};
ghost use Rattle.std.specs.Float.{binary64};
ghost use Rattle.std.specs.Float.Ieee.Scale.{finite};
ghost use Rattle.rules.specs.Coordinates.{within as withinRule, along, with_bit, is_off};

use crate::containing::within;
use floats::is_finite;

// One axis of a cell.
pub fn is_off(index: i64, extent: u64) -> bool
    ensures { result ≡ is_off (along extent index) }
{
    if index < 0 {
        return true;
    }
    let n = index as u64;
    !(n < extent)
}

// An axis and the set of those after it, which are two at most.
pub fn with_bit(first: bool, others: u16) -> u16
    requires { others ≤ 3 }
    ensures { result ≡ with_bit first others }
{
    if first {
        return 1 + 2 * others;
    }
    2 * others
}

// A coordinate and the set of those after it, which are two at most; no axis from the first coordinate on that is not
// finite.
pub fn with_coordinate(extent: u64, x: f64, others: u16) -> u16
    requires { others ≤ 3 }
    ensures { result ≡ (if finite x then with_bit (not (withinRule binary64 extent x)) others else 0) }
{
    if is_finite(x) {
        return with_bit(!within(extent, x), others);
    }
    0
}
