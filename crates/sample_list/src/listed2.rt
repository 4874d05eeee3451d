// Points and samples of two axes in flat lists: 2 numbers a point, 3 a slot.
use crate::listed::Listed;
use types::{Extents2, MapSample2, Point2};

impl Listed for Extents2 {
    fn listed_point(self, points: &[f64], at: usize) -> Point2 {
        Point2 {
            x: points[at],
            y: points[at + 1],
        }
    }

    fn store(self, samples: &mut [f64], at: usize, sample: MapSample2) {
        let gradient = sample.gradient;
        samples[at] = sample.value;
        samples[at + 1] = gradient.x;
        samples[at + 2] = gradient.y;
    }
}
