// Clipping a beam to the map's box by slabs. This is what bounds a beam's work: a step count follows from a length, so
// an absurd but finite endpoint would otherwise be walked cell by cell only to be discarded.
ghost use Rattle.std.specs.Prelude.{◌≡◌};
ghost use Rattle.std.specs.Float.{binary64};
ghost use Rattle.rules.specs.OneBeam as OneBeam;
ghost use Rattle.clip.specs.Clips.{clip_of};

use crate::clips::Clips;
use types::Clipped;

fn is_inside<E: Clips>(extents: E, t: f64, exit: E::Point) -> bool
    ensures { result ≡ OneBeam.is_inside binary64 (E.extents extents) t (E.point exit) }
{
    if t >= 1.0 {
        return extents.all_within(exit);
    }
    false
}

pub fn clipped_at<E: Clips>(
    extents: E,
    t: f64,
    entry: E::Point,
    exit: E::Point,
) -> Option<Clipped<E::Point>>
    ensures { clip_of E.point result ≡ OneBeam.clipped_at binary64 (E.extents extents) t (E.point entry)
        (E.point exit) }
{
    if extents.both_beyond(entry, exit) {
        return None;
    }
    Some(Clipped {
        entry: extents.clamp_to_addressable_cell(entry),
        exit: extents.clamp_to_addressable_cell(exit),
        inside: is_inside(extents, t, exit),
    })
}

pub fn clip_segment<E: Clips>(
    extents: E,
    origin: E::Point,
    endpoint: E::Point,
) -> Option<Clipped<E::Point>>
    ensures { clip_of E.point result ≡ OneBeam.clip binary64 (E.extents extents) (E.point origin) (E.point endpoint) }
{
    let direction = E::directions(origin, endpoint);
    let s = extents.slabs(origin, direction)?;
    clipped_at(
        extents,
        s.exit,
        E::point_at(origin, direction, s.entry),
        E::point_at(origin, direction, s.exit),
    )
}
