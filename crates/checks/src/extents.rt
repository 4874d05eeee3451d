// What the checks of a head ask of extents and of the model laid on them, for two axes and for three.
ghost use Rattle.std.specs.Prelude.{◌≡◌};
ghost use Rattle.rules.specs.RefusalNumbers.Entries.{extents_refusal};
ghost use Rattle.rules.specs.TheGridAndItsBounds.{fits_capacity, bounded, cuts_in_bounds, cells};
ghost use Rattle.laws.specs.Checks.{InBounds};
ghost use Rattle.types.specs.Points.{extents2, extents3};
ghost use Rattle.checks.specs.Checking.{check_of};

use crate::model::{all_bounded, cuts_in_bounds, is_bounded};
use types::{Axes, Bands, Extents2, Extents3, Model, Refusal};

pub trait Checked: Axes {
    // All axes for 1, the first that is too short, and then 2.
    fn extents_check(self) -> Result<(), Refusal>
        ensures { check_of result ≡ extents_refusal (Self.extents self) };

    // The extents have passed, so that no product wraps.
    fn cells(self) -> usize
        requires { InBounds (Self.extents self) }
        ensures { result ≡ cells (Self.extents self) };

    // The pair of every band, with the ceiling that all have.
    fn model_bounded(self, model: Self::Model) -> bool
        ensures { result ≡ bounded (Self.model_of self model) };

    // A map of two axes has no cuts.
    fn cuts_bounded(self, model: Self::Model) -> bool
        ensures { result ≡ cuts_in_bounds (Self.extents self) (Self.model_of self model) };
}

const LEAST_EXTENT: u64 = 2;

const MOST_EXTENT: u64 = 4_096;

const MOST_CELLS: u64 = 16_777_216;

fn fits_capacity2(e: Extents2) -> bool
    ensures { result ≡ fits_capacity (extents2 e) }
{
    if e.x > MOST_EXTENT {
        return false;
    }
    if e.y > MOST_EXTENT {
        return false;
    }
    e.x * e.y <= MOST_CELLS
}

fn fits_capacity3(e: Extents3) -> bool
    ensures { result ≡ fits_capacity (extents3 e) }
{
    if e.x > MOST_EXTENT {
        return false;
    }
    if e.y > MOST_EXTENT {
        return false;
    }
    if e.z > MOST_EXTENT {
        return false;
    }
    e.x * (e.y * e.z) <= MOST_CELLS
}

impl Checked for Extents2 {
    fn extents_check(self) -> Result<(), Refusal> {
        if self.x < LEAST_EXTENT {
            return Err(Refusal::DimensionTooSmall {
                axis: 0,
                extent: self.x,
            });
        }
        if self.y < LEAST_EXTENT {
            return Err(Refusal::DimensionTooSmall {
                axis: 1,
                extent: self.y,
            });
        }
        if fits_capacity2(self) {
            return Ok(());
        }
        Err(Refusal::CapacityOverflow)
    }

    fn cells(self) -> usize {
        (self.x * self.y) as usize
    }

    fn model_bounded(self, model: Model) -> bool {
        is_bounded(model)
    }

    fn cuts_bounded(self, _model: Model) -> bool {
        true
    }
}

impl Checked for Extents3 {
    fn extents_check(self) -> Result<(), Refusal> {
        if self.x < LEAST_EXTENT {
            return Err(Refusal::DimensionTooSmall {
                axis: 0,
                extent: self.x,
            });
        }
        if self.y < LEAST_EXTENT {
            return Err(Refusal::DimensionTooSmall {
                axis: 1,
                extent: self.y,
            });
        }
        if self.z < LEAST_EXTENT {
            return Err(Refusal::DimensionTooSmall {
                axis: 2,
                extent: self.z,
            });
        }
        if fits_capacity3(self) {
            return Ok(());
        }
        Err(Refusal::CapacityOverflow)
    }

    fn cells(self) -> usize {
        (self.x * (self.y * self.z)) as usize
    }

    fn model_bounded(self, model: Bands) -> bool {
        all_bounded(self, model)
    }

    fn cuts_bounded(self, model: Bands) -> bool {
        cuts_in_bounds(self, model)
    }
}
