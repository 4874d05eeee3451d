// A beam, tried and clipped. Any coordinate that is not finite refuses it, and that is tried before clipping: a beam
// that misses on another axis would pass in silence. A beam that starts and ends on the map, as most do, is finite and
// is not cut: its fractions are 0 and 1, and no slab need be worked out. Other beams go by the slabs, which stay the
// definition.
ghost use Rattle.std.specs.Prelude.{◌≡◌, true, cond, ◌&&◌};
ghost use Rattle.std.proofs.Math.Option.{some, none};
ghost use Rattle.std.specs.Float.{binary64};
ghost use Rattle.laws.specs.Checks.{AxesInBounds};
ghost use Rattle.rules.specs.Floats.{all_finite};
ghost use Rattle.rules.specs.OneBeam as OneBeam;
ghost use Rattle.clip.specs.Clips.{clip_of, tried_of};

use crate::clip::{clip_segment, clipped_at};
use crate::clips::Clips;
use types::Clipped;

// Both points are on the map, and its extents have passed their check.
fn uncut<E: Clips>(extents: E, origin: E::Point, endpoint: E::Point) -> Option<Clipped<E::Point>>
    requires in_bounds { AxesInBounds (E.extents extents) }
    requires starts_within { OneBeam.all_within binary64 (E.extents extents) (E.point origin) ≡ true }
    requires ends_within { OneBeam.all_within binary64 (E.extents extents) (E.point endpoint) ≡ true }
    ensures { clip_of E.point result ≡ OneBeam.clip binary64 (E.extents extents) (E.point origin) (E.point endpoint) }
{
    let direction = E::directions(origin, endpoint);
    clipped_at(
        extents,
        1.0,
        E::point_at(origin, direction, 0.0),
        E::point_at(origin, direction, 1.0),
    )
}

// Nothing for a beam with a coordinate that is not finite. On extents that have passed their check, as the entries'
// have: that the slabs change nothing is shown of numbers that are exact as floats.
pub fn clip_beam<E: Clips>(
    extents: E,
    origin: E::Point,
    endpoint: E::Point,
) -> Option<Option<Clipped<E::Point>>>
    requires in_bounds { AxesInBounds (E.extents extents) }
    ensures { tried_of E.point result ≡ cond (all_finite (E.point origin) && all_finite (E.point endpoint))
        (some (OneBeam.clip binary64 (E.extents extents) (E.point origin) (E.point endpoint))) none }
{
    if extents.all_within(origin) {
        if extents.all_within(endpoint) {
            return Some(uncut(extents, origin, endpoint));
        }
    }
    if E::all_finite(origin) {
        if E::all_finite(endpoint) {
            return Some(clip_segment(extents, origin, endpoint));
        }
    }
    None
}
