// How points and samples lie in flat lists: a point is a number for each axis; a slot holds a sample's value and then
// its gradient, so it is one number longer.
ghost use Rattle.std.specs.Prelude.{◌≡◌, ◌+◌, ◌≤◌, ◌<◌, length, take, drop};
ghost use Rattle.std.proofs.Math.Option.{some};
ghost use Rattle.sample_list.specs.Slots.{stored};

use grid_map::Grid;

pub trait Listed: Grid {
    // The point whose numbers start here. They are the list's.
    fn listed_point(self, points: &[f64], at: usize) -> Self::Point
        requires { at + length (Self.extents self) ≤ length points.now }
        ensures { Self.point result ≡ take (length (Self.extents self)) (drop at points.now) };

    // A sample into the slot that starts here. The slot is the list's.
    fn store(self, samples: &mut [f64], at: usize, sample: Self::Sample)
        requires { at + length (Self.extents self) + 1 ≤ length samples.old }
        ensures { samples.new ≡ stored at (some (Self.sample_of sample)) samples.old };
}
