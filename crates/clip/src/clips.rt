// Clipping a beam to the box of some extents, axis by axis: what each axis does stands in `slabs`, and here two or
// three of them are joined.
ghost use Rattle.std.specs.Prelude.{◌≡◌, length, refl};
ghost use Rattle.std.specs.Float.{binary64};
ghost use Rattle.rules.specs.Floats.{all_finite};
ghost use Rattle.rules.specs.OneBeam as OneBeam;
ghost use Rattle.clip.specs.Spans.{passage_of};

use crate::slabs::{Span, beyond, clamp_axis, point_on, slab};
use floats::is_finite;
use places::within;
use types::{Axes, Extents2, Extents3, Point2, Point3, Vector2, Vector3};

pub trait Clips: Axes {
    fn directions(origin: Self::Point, endpoint: Self::Point) -> Self::Vector
        ensures { Self.vector result ≡ OneBeam.directions binary64 (Self.point origin) (Self.point endpoint) };

    // The fractions of a beam between which it lies in all slabs.
    fn slabs(self, origin: Self::Point, direction: Self::Vector) -> Option<Span>
        ensures { passage_of result ≡ OneBeam.slabs binary64 (Self.extents self) (Self.point origin)
            (Self.vector direction) OneBeam.whole_span };

    fn point_at(origin: Self::Point, direction: Self::Vector, t: f64) -> Self::Point
        ensures { Self.point result ≡ OneBeam.point_at binary64 t (Self.point origin) (Self.vector direction) };

    fn both_beyond(self, entry: Self::Point, exit: Self::Point) -> bool
        ensures { result ≡ OneBeam.both_beyond binary64 (Self.extents self) (Self.point entry) (Self.point exit) };

    fn all_within(self, p: Self::Point) -> bool
        ensures { result ≡ OneBeam.all_within binary64 (Self.extents self) (Self.point p) };

    fn clamp_to_addressable_cell(self, p: Self::Point) -> Self::Point
        ensures { Self.point result ≡ OneBeam.clamp_point binary64 (Self.extents self) (Self.point p) };

    fn all_finite(p: Self::Point) -> bool
        ensures { result ≡ all_finite (Self.point p) };
}

impl Clips for Extents2 {
    fn directions(origin: Point2, endpoint: Point2) -> Vector2 {
        let x = endpoint.x - origin.x;
        let y = endpoint.y - origin.y;
        Vector2 { x, y }
    }

    fn slabs(self, origin: Point2, direction: Vector2) -> Option<Span> {
        let s = slab(self.x, origin.x, direction.x, Span::WHOLE)?;
        slab(self.y, origin.y, direction.y, s)
    }

    fn point_at(origin: Point2, direction: Vector2, t: f64) -> Point2 {
        let at_x = point_on(origin.x, direction.x, t);
        let at_y = point_on(origin.y, direction.y, t);
        Point2 { x: at_x, y: at_y }
    }

    fn both_beyond(self, entry: Point2, exit: Point2) -> bool {
        if beyond(self.x, entry.x, exit.x) {
            return true;
        }
        beyond(self.y, entry.y, exit.y)
    }

    fn all_within(self, p: Point2) -> bool {
        if within(self.x, p.x) {
            return within(self.y, p.y);
        }
        false
    }

    fn clamp_to_addressable_cell(self, p: Point2) -> Point2 {
        let x = clamp_axis(self.x, p.x);
        let y = clamp_axis(self.y, p.y);
        Point2 { x, y }
    }

    fn all_finite(p: Point2) -> bool {
        if is_finite(p.x) {
            return is_finite(p.y);
        }
        false
    }
}

impl Clips for Extents3 {
    fn directions(origin: Point3, endpoint: Point3) -> Vector3 {
        let x = endpoint.x - origin.x;
        let y = endpoint.y - origin.y;
        let z = endpoint.z - origin.z;
        Vector3 { x, y, z }
    }

    fn slabs(self, origin: Point3, direction: Vector3) -> Option<Span> {
        let s = slab(self.x, origin.x, direction.x, Span::WHOLE)?;
        let t = slab(self.y, origin.y, direction.y, s)?;
        slab(self.z, origin.z, direction.z, t)
    }

    fn point_at(origin: Point3, direction: Vector3, t: f64) -> Point3 {
        let at_x = point_on(origin.x, direction.x, t);
        let at_y = point_on(origin.y, direction.y, t);
        let at_z = point_on(origin.z, direction.z, t);
        Point3 {
            x: at_x,
            y: at_y,
            z: at_z,
        }
    }

    fn both_beyond(self, entry: Point3, exit: Point3) -> bool {
        if beyond(self.x, entry.x, exit.x) {
            return true;
        }
        if beyond(self.y, entry.y, exit.y) {
            return true;
        }
        beyond(self.z, entry.z, exit.z)
    }

    fn all_within(self, p: Point3) -> bool {
        if within(self.x, p.x) {
            if within(self.y, p.y) {
                return within(self.z, p.z);
            }
        }
        false
    }

    fn clamp_to_addressable_cell(self, p: Point3) -> Point3 {
        let x = clamp_axis(self.x, p.x);
        let y = clamp_axis(self.y, p.y);
        let z = clamp_axis(self.z, p.z);
        Point3 { x, y, z }
    }

    fn all_finite(p: Point3) -> bool {
        if is_finite(p.x) {
            if is_finite(p.y) {
                return is_finite(p.z);
            }
        }
        false
    }
}
