// Points and samples of three axes in flat lists: 3 numbers a point, 4 a slot.
use crate::listed::Listed;
use types::{Extents3, MapSample3, Point3};

impl Listed for Extents3 {
    fn listed_point(self, points: &[f64], at: usize) -> Point3 {
        Point3 {
            x: points[at],
            y: points[at + 1],
            z: points[at + 2],
        }
    }

    fn store(self, samples: &mut [f64], at: usize, sample: MapSample3) {
        let gradient = sample.gradient;
        samples[at] = sample.value;
        samples[at + 1] = gradient.x;
        samples[at + 2] = gradient.y;
        samples[at + 3] = gradient.z;
    }
}
