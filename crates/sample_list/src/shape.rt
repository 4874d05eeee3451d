// Whether flat lists are for the same number of points.
ghost use Rattle.std.specs.Prelude.{◌≡◌, ◌<◌};
ghost use Rattle.rules.specs.ManySamples.{same_counts};

use checks::so_many_each;

// The lists of a map of so many axes, which is few: its points, its slots and its marks.
pub fn same_counts(axes: usize, points: usize, samples: usize, found: usize) -> bool
    requires { axes < 4 }
    ensures { result ≡ same_counts axes points samples found }
{
    if so_many_each(points, axes, found) {
        return so_many_each(samples, axes + 1, found);
    }
    false
}
