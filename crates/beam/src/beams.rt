// What extents of any number of axes are to a beam: its parts, and the place of the cells that a line is followed by.
ghost use Rattle.std.specs.Prelude.{◌≡◌, ◌<◌, IfSome, length};
ghost use Rattle.std.proofs.Common.{rules};
ghost use Rattle.laws.specs.Checks.{InBounds};
ghost use Rattle.beam.specs.Walking.{FollowedTo};

use bresenham::{Cells2, Cells3, Lines};
use clip::Clips;
use grid_map::Grid;
use places::{place_within2, place_within3};
use types::{Extents2, Extents3, Point2, Point3, ScanBeam2, ScanBeam3};

pub trait Beams: Grid + Clips + Lines {
    fn origin(beam: Self::Beam) -> Self::Point
        ensures { Self.point result ≡ (Self.beam_of beam).origin };

    fn endpoint(beam: Self::Beam) -> Self::Point
        ensures { Self.point result ≡ (Self.beam_of beam).endpoint };

    fn is_hit(beam: Self::Beam) -> bool
        ensures { result ≡ (Self.beam_of beam).hit };

    // The place of a followed line's cells, or nothing where one of them is off the grid. Each axis is tested alone.
    fn place_followed(self, cells: Self::Cells) -> Option<usize>
        requires in_bounds { InBounds (Self.extents self) }
        ensures { IfSome result (FollowedTo (Self.extents self) (Self.cells cells)) };

    // a line needs one
    ghost some_axis: { (p : Self.Point) → 0 < length (Self.point p) };
}

impl Beams for Extents2 {
    ghost some_axis = { λ p. Prim.search rules };

    fn origin(beam: ScanBeam2) -> Point2 {
        beam.origin
    }

    fn endpoint(beam: ScanBeam2) -> Point2 {
        beam.endpoint
    }

    fn is_hit(beam: ScanBeam2) -> bool {
        let termination = beam.termination;
        termination.0
    }

    fn place_followed(self, cells: Cells2) -> Option<usize> {
        if cells.x >= self.x {
            return None;
        }
        if cells.y >= self.y {
            return None;
        }
        Some(place_within2(self, cells.x, cells.y))
    }
}

impl Beams for Extents3 {
    ghost some_axis = { λ p. Prim.search rules };

    fn origin(beam: ScanBeam3) -> Point3 {
        beam.origin
    }

    fn endpoint(beam: ScanBeam3) -> Point3 {
        beam.endpoint
    }

    fn is_hit(beam: ScanBeam3) -> bool {
        let termination = beam.termination;
        termination.0
    }

    fn place_followed(self, cells: Cells3) -> Option<usize> {
        if cells.x >= self.x {
            return None;
        }
        if cells.y >= self.y {
            return None;
        }
        if cells.z >= self.z {
            return None;
        }
        Some(place_within3(self, cells.x, cells.y, cells.z))
    }
}
