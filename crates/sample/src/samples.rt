// The stencil that contains a point, and the sample in it. Extents of two axes and of three each say how their axes are
// joined; what names no axis stands once, in the trait. The original's stencil_containing and sample_log_odds.
ghost use Rattle.std.specs.Prelude.{◌≡◌, ◌<◌, true, List, length};
ghost use Rattle.std.specs.Float.{binary64};
ghost use Rattle.rules.specs.TheGridAndItsBounds.{least_extent, all_at_least, cells};
ghost use Rattle.rules.specs.Coordinates as Coordinates;
ghost use Rattle.rules.specs.Coordinates.{stencil, sample};
ghost use Rattle.types.specs.Samples.{sample2, sample3};
ghost use Rattle.types.specs.Answers.{found_of};
ghost use Rattle.sample.specs.Stencil.{stencil2, stencil3};
ghost use Rattle.sample.specs.Sampling.{highest_corner};

use crate::sample::{cube_at, gradient2, gradient3, square_at, value2, value3};
use crate::stencil::{Stencil2, Stencil3, stencil_axis};
use types::{Axes, Extents2, Extents3, MapSample2, MapSample3, Point2, Point3};

pub trait Samples: Axes {
    type Stencil: Copy;

    type Sample: Copy;

    ghost stencil_of: { Self.Stencil → List Coordinates.StencilAxis };

    ghost sample_of: { Self.Sample → Coordinates.Sample };

    // The stencil of a point, or nothing if the point is off the domain of stencils along some axis. Whoever calls has
    // refused extents below two cells with 1.
    fn stencil_containing(self, point: Self::Point) -> Option<Self::Stencil>
        requires { all_at_least least_extent (Self.extents self) ≡ true }
        ensures { found_of stencil_of result ≡ stencil binary64 (Self.extents self) (Self.point point) };

    // The value and the gradient in a stencil that was found: its highest corner is a cell, and so is every other.
    fn sample_at(self, odds: &[f64], found: Self::Stencil) -> Self::Sample
        requires { highest_corner (Self.extents self) (stencil_of found) < length odds.now }
        ensures { sample_of result ≡ Coordinates.sample_at binary64 (Self.extents self) odds.now (stencil_of found) };

    // The interpolated log-odds and their gradient at a point, or nothing if the point is off the domain of stencils.
    // Whoever calls has refused extents below two cells with 1, and odds that are not one per cell with 4.
    final fn sample_log_odds(self, odds: &[f64], point: Self::Point) -> Option<Self::Sample>
        requires two_cells { all_at_least least_extent (Self.extents self) ≡ true }
        requires one_per_cell { length odds.now ≡ cells (Self.extents self) }
        ensures { found_of sample_of result ≡ sample binary64 (Self.extents self) odds.now (Self.point point) }
    {
        let found = self.stencil_containing(point)?;
        Some(self.sample_at(odds, found))
    }
}

impl Samples for Extents2 {
    type Stencil = Stencil2;

    type Sample = MapSample2;

    ghost stencil_of = { stencil2 };

    ghost sample_of = { sample2 };

    fn stencil_containing(self, point: Point2) -> Option<Stencil2> {
        let x = stencil_axis(self.x, point.x)?;
        let y = stencil_axis(self.y, point.y)?;
        Some(Stencil2 { x, y })
    }

    fn sample_at(self, odds: &[f64], found: Stencil2) -> MapSample2 {
        let x = found.x;
        let y = found.y;
        let row = self.x;
        let base = x.cell + y.cell * row;
        let square = square_at(odds, base as usize, row as usize);
        MapSample2 {
            value: value2(x.offset, y.offset, square),
            gradient: gradient2(x.offset, y.offset, square),
        }
    }
}

impl Samples for Extents3 {
    type Stencil = Stencil3;

    type Sample = MapSample3;

    ghost stencil_of = { stencil3 };

    ghost sample_of = { sample3 };

    fn stencil_containing(self, point: Point3) -> Option<Stencil3> {
        let x = stencil_axis(self.x, point.x)?;
        let y = stencil_axis(self.y, point.y)?;
        let z = stencil_axis(self.z, point.z)?;
        Some(Stencil3 { x, y, z })
    }

    fn sample_at(self, odds: &[f64], found: Stencil3) -> MapSample3 {
        let x = found.x;
        let y = found.y;
        let z = found.z;
        let row = self.x;
        let plane = row * self.y;
        let base = x.cell + y.cell * row + z.cell * plane;
        let cube = cube_at(odds, base as usize, row as usize, plane as usize);
        MapSample3 {
            value: value3(x.offset, y.offset, z.offset, cube),
            gradient: gradient3(x.offset, y.offset, z.offset, cube),
        }
    }
}
