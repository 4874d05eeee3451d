// Where indices stand in the lent lists. Each axis is tested alone before it counts: testing only the sum is unsound,
// since an overshoot on one axis lands on a valid cell of the next row.
ghost use Rattle.std.specs.Prelude.{◌≡◌, ◌<◌, [], ◌∷◌, pos};
ghost use Rattle.rules.specs.RefusalNumbers.{given};
ghost use Rattle.rules.specs.Coordinates.{along, or_off, flat_index};
ghost use Rattle.types.specs.Points.{extents2, extents3};
ghost use Rattle.laws.specs.Checks.{InBounds};
ghost use Rattle.places.specs.Places.{along_of};

use crate::off::is_off;
use types::{Extents2, Extents3, Refusal};

// `axes` is the set of all axes that are off, which a refusal reports.
pub(crate) fn axis_at(axis: u64, index: i64, extent: u64, axes: u16) -> Result<u64, Refusal>
    ensures { along_of result ≡ or_off axes axis extent index (along extent index) }
{
    if is_off(index, extent) {
        return Err(Refusal::OutOfBounds {
            axis,
            index,
            extent,
            axes,
        });
    }
    Ok(index as u64)
}

// The place of a cell whose indices were tested. Extents in bounds, so that no product wraps: the entries refuse others
// with 1 and 2.
pub fn place_within2(extents: Extents2, x: u64, y: u64) -> usize
    requires in_bounds { InBounds (extents2 extents) }
    requires x_within { x < extents.x }
    requires y_within { y < extents.y }
    ensures { flat_index (extents2 extents) (pos x ∷ pos y ∷ []) ≡ given result }
{
    (x + y * extents.x) as usize
}

// As for two axes.
pub fn place_within3(extents: Extents3, x: u64, y: u64, z: u64) -> usize
    requires in_bounds { InBounds (extents3 extents) }
    requires x_within { x < extents.x }
    requires y_within { y < extents.y }
    requires z_within { z < extents.z }
    ensures { flat_index (extents3 extents) (pos x ∷ pos y ∷ pos z ∷ []) ≡ given result }
{
    (x + y * extents.x + z * (extents.x * extents.y)) as usize
}
