// The inverse sensor model, resolved: what one vote of each kind adds to a cell's odds, and where a cell saturates. A
// map of two axes has one pair of steps; a map of three axes has one for each of three bands along its last axis, since
// high cloud returns less light than low cloud.
ghost use Rattle.std.specs.Prelude.{◌≡◌};
ghost use Rattle.rules.specs.TheGridAndItsBounds.{plain_model};
ghost use Rattle.types.specs.Models.{pair_of, model_of};

#[repr(C)]
#[derive(Clone, Copy)]
pub struct Model {
    pub occupied: f64,
    pub free: f64,
    pub ceiling: f64,
}

// The steps of one band.
#[repr(C)]
#[derive(Clone, Copy)]
pub struct Pair {
    pub occupied: f64,
    pub free: f64,
}

// The heights at which the middle and the high band begin.
#[repr(C)]
#[derive(Clone, Copy, Debug, PartialEq, Eq)]
pub struct Cuts {
    pub first: u64,
    pub second: u64,
}

#[repr(C)]
#[derive(Clone, Copy)]
pub struct Bands {
    pub low: Pair,
    pub middle: Pair,
    pub high: Pair,
    pub ceiling: f64,
    pub cuts: Cuts,
}

impl Pair {
    // The model of a band alone.
    pub fn with(self, ceiling: f64) -> Model
        ensures { model_of result ≡ plain_model (pair_of self) ceiling }
    {
        Model {
            occupied: self.occupied,
            free: self.free,
            ceiling,
        }
    }
}

impl Bands {
    // The model of the lowest band. Every band has its bounds.
    pub fn lowest(self) -> Model
        ensures { model_of result ≡ plain_model (pair_of self.low) self.ceiling }
    {
        let low = self.low;
        low.with(self.ceiling)
    }
}
