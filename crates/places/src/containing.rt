// The index of a coordinate's cell along one axis. Refusing is explicit, because a float cast to an integer saturates
// and maps NaN to zero.
ghost use Rattle.std.specs.Prelude.{◌≡◌};
ghost use Rattle.std.specs.Float.{binary64};
ghost use Rattle.rules.specs.Coordinates.{within as withinRule, axis_containing};
ghost use Rattle.places.specs.Places.{containing_of};

use floats::{cell_of, is_finite};
use types::Refusal;

// In [0, extent): a coordinate of exactly the extent is already past the last cell.
pub fn within(extent: u64, x: f64) -> bool
    ensures { result ≡ withinRule binary64 extent x }
{
    if x >= 0.0 {
        return x < std::num::nearest_u64_to_f64(extent);
    }
    false
}

// `axes` is the set of the axes that a refusal with 5 reports.
pub(crate) fn axis_containing(axis: u64, extent: u64, x: f64, axes: u16) -> Result<i64, Refusal>
    ensures { containing_of result ≡ axis_containing binary64 axes axis extent x }
{
    if is_finite(x) {
        let index = cell_of(x);
        if within(extent, x) {
            return Ok(index);
        }
        return Err(Refusal::OutOfBounds {
            axis,
            index,
            extent,
            axes,
        });
    }
    Err(Refusal::NonFiniteCoordinate { axis })
}
