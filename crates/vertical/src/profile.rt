// The profile: which vertical beams are in it, and where one of them ends.
ghost use Rattle.std.specs.Prelude.{◌≡◌, true};
ghost use Rattle.rules.specs.VerticalBeam.{in_profile, ends_occupied, cells_above};
ghost use Rattle.types.specs.Beams.{vertical};
ghost use Rattle.types.specs.Points.{extents3};

use types::{Extents3, VerticalBeam};

// All cells on the grid, and the top not below the bottom; the extent itself is a top height too.
pub fn in_profile(extents: Extents3, beam: VerticalBeam) -> bool
    ensures { result ≡ in_profile (extents3 extents) (vertical beam) }
{
    if beam.x >= extents.x {
        return false;
    }
    if beam.y >= extents.y {
        return false;
    }
    if beam.bottom >= extents.z {
        return false;
    }
    if beam.bottom > beam.top {
        return false;
    }
    beam.top <= extents.z
}

// The cells above the first: up to the top, or up to the highest where the beam ran out. In the profile, so that
// nothing wraps: the entry refuses others with 18.
pub fn cells_above(extents: Extents3, beam: VerticalBeam) -> u64
    requires { in_profile (extents3 extents) (vertical beam) ≡ true }
    ensures { result ≡ cells_above (extents3 extents) (vertical beam) }
{
    if beam.top < extents.z {
        return beam.top - beam.bottom;
    }
    extents.z - 1 - beam.bottom
}

// A beam that ran out found no cloud, Hit or not.
pub fn ends_occupied(extents: Extents3, beam: VerticalBeam) -> bool
    ensures { result ≡ ends_occupied (extents3 extents) (vertical beam) }
{
    let termination = beam.termination;
    if termination.0 {
        return beam.top < extents.z;
    }
    false
}
