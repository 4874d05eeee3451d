// The interpolation stencil that contains a point: the lowest cell of it, and how far along each axis the point lies in
// it. One axis is worked out alone; `samples` joins two and three. Reading the odds of the corners is `sample`'s.
ghost use Rattle.std.specs.Prelude.{◌≡◌, ◌^◌, ◌≤◌};
ghost use Rattle.std.specs.Float.{binary64};
ghost use Rattle.rules.specs.TheGridAndItsBounds.{least_extent};
ghost use Rattle.rules.specs.Coordinates.{folded_axis, stencil_axis};
ghost use Rattle.sample.specs.Stencil.{axis_of, on_axis};

// The stencil along one axis: its lower cell, and the point's offset from it, which is the weight of the upper one.
#[derive(Clone, Copy)]
pub struct StencilAxis {
    pub cell: u64,
    pub offset: f64,
}

#[derive(Clone, Copy)]
pub struct Stencil2 {
    pub x: StencilAxis,
    pub y: StencilAxis,
}

#[derive(Clone, Copy)]
pub struct Stencil3 {
    pub x: StencilAxis,
    pub y: StencilAxis,
    pub z: StencilAxis,
}

// The top of the domain has no cell above it. Folding it into the last stencil at full weight yields the same value,
// and stops the corners from running off the end of the row into the next one. The caller has a cell by truncation to
// an i64, and an extent of two cells or more.
fn folded_axis(extent: u64, x: f64, cell: u64) -> StencilAxis
    requires two_cells { least_extent ≤ extent }
    requires an_i64 { cell ≤ 2 ^ 63 }
    ensures { axis_of result ≡ folded_axis binary64 extent x cell }
{
    if cell + 1 >= extent {
        StencilAxis {
            cell: extent - 2,
            offset: 1.0,
        }
    } else {
        StencilAxis {
            cell,
            offset: x - floats::number_of(cell),
        }
    }
}

// Where a coordinate lies in [0, extent - 1], its stencil. Every comparison with a NaN is false, so a NaN has none.
// A stencil has two cells along an axis: whoever calls has refused a shorter one with 1.
pub fn stencil_axis(extent: u64, x: f64) -> Option<StencilAxis>
    requires { least_extent ≤ extent }
    ensures { on_axis result ≡ stencil_axis binary64 extent x }
{
    let limit = std::num::nearest_u64_to_f64(extent - 1);
    if 0.0 <= x {
        if x <= limit {
            // No coordinate below zero is left, so truncation is a floor.
            let cell = floats::cell_of(x) as u64;
            Some(folded_axis(extent, x, cell))
        } else {
            None
        }
    } else {
        None
    }
}
