// A model's bounds, and those of the cuts between bands.
ghost use Rattle.std.specs.Prelude.{◌≡◌};
ghost use Rattle.rules.specs.TheGridAndItsBounds.{bounded, cuts_in_bounds};
ghost use Rattle.checks.specs.ModelBounds.{sizes_bounded};
ghost use Rattle.types.specs.Models.{model_of, bands_of};
ghost use Rattle.types.specs.Points.{extents3};

use types::{Bands, Extents3, Model};

// Each number within its bounds; being finite follows.
pub fn is_bounded(m: Model) -> bool
    ensures { result ≡ bounded (model_of m) }
{
    if m.occupied > 0.0 {
        if m.free < 0.0 {
            if m.ceiling > 0.0 {
                return sizes_bounded(m);
            }
        }
    }
    false
}

fn sizes_bounded(m: Model) -> bool
    ensures { result ≡ sizes_bounded m.ceiling (record { occupied = m.occupied; free = m.free }) }
{
    if m.occupied <= 1_048_576.0 {
        if m.free >= -1_048_576.0 {
            return m.ceiling <= 1_048_576.0;
        }
    }
    false
}

// The pair of every band, with the ceiling that all have.
pub fn all_bounded(e: Extents3, bands: Bands) -> bool
    ensures { result ≡ bounded (bands_of e bands) }
{
    let low = bands.low;
    let middle = bands.middle;
    let high = bands.high;
    if is_bounded(low.with(bands.ceiling)) {
        if is_bounded(middle.with(bands.ceiling)) {
            return is_bounded(high.with(bands.ceiling));
        }
    }
    false
}

// Each band has a height at least: 0 < first < second < extent.
pub fn cuts_in_bounds(e: Extents3, bands: Bands) -> bool
    ensures { result ≡ cuts_in_bounds (extents3 e) (bands_of e bands) }
{
    let cuts = bands.cuts;
    if 0 < cuts.first {
        if cuts.first < cuts.second {
            return cuts.second < e.z;
        }
    }
    false
}
