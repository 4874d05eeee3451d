// The steps of a cell: those of the one pair of a map of two axes, or of the band that the cell lies in.
ghost use Rattle.std.specs.Prelude.{◌≡◌, T};
ghost use Rattle.rules.specs.TheGridAndItsBounds.{cuts_in_bounds};
ghost use Rattle.rules.specs.MarksAndFrames as Marks;
ghost use Rattle.laws.specs.Checks.{InBounds};
ghost use Rattle.types.specs.Models.{model_of, bands_of};
ghost use Rattle.types.specs.Points.{extents3};
ghost use Rattle.marks.specs.Marking.{steps_of};

use crate::marks::{Steps, steps_of};
use types::{Axes, Bands, Extents2, Extents3, Model};

pub trait Stepped: Axes {
    // Extents and cuts have passed their checks: the entries refuse others with 1, 2 and 15.
    fn steps_at(self, model: Self::Model, place: usize) -> Steps
        requires in_bounds { InBounds (Self.extents self) }
        requires cuts { T (cuts_in_bounds (Self.extents self) (Self.model_of self model)) }
        ensures { steps_of result ≡ Marks.steps_at (Self.model_of self model) place };

    // The model of the cell's band, as above.
    fn model_at(self, model: Self::Model, place: usize) -> Model
        requires in_bounds { InBounds (Self.extents self) }
        requires cuts { T (cuts_in_bounds (Self.extents self) (Self.model_of self model)) }
        ensures { Marks.steps_at (model_of result) place ≡ Marks.steps_at (Self.model_of self model) place };

    fn ceiling(self, model: Self::Model) -> f64
        ensures { result ≡ (Self.model_of self model).ceiling };
}

impl Stepped for Extents2 {
    fn steps_at(self, model: Model, _place: usize) -> Steps {
        steps_of(model)
    }

    fn model_at(self, model: Model, _place: usize) -> Model {
        model
    }

    fn ceiling(self, model: Model) -> f64 {
        model.ceiling
    }
}

impl Stepped for Extents3 {
    fn steps_at(self, model: Bands, place: usize) -> Steps {
        steps_of(model_at(self, model, place))
    }

    fn model_at(self, model: Bands, place: usize) -> Model {
        model_at(self, model, place)
    }

    fn ceiling(self, model: Bands) -> f64 {
        model.ceiling
    }
}

// By the cell's place: one below all the layers under a cut lies below the cut, and nothing is divided. Extents and
// cuts have passed their checks: the entries refuse others with 1, 2 and 15.
pub fn model_at(extents: Extents3, bands: Bands, place: usize) -> Model
    requires in_bounds { InBounds (extents3 extents) }
    requires cuts { T (cuts_in_bounds (extents3 extents) (bands_of extents bands)) }
    ensures { Marks.steps_at (model_of result) place ≡ Marks.steps_at (bands_of extents bands) place }
{
    let cuts = bands.cuts;
    let low = bands.low;
    let middle = bands.middle;
    let high = bands.high;
    let layer = extents.x * extents.y;
    if place < (cuts.first * layer) as usize {
        return low.with(bands.ceiling);
    }
    if place < (cuts.second * layer) as usize {
        return middle.with(bands.ceiling);
    }
    high.with(bands.ceiling)
}
