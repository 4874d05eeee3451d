// The two totals of a column's three bands: by maximum overlap, of 8, and by random overlap, of 512. A chart writes
// them, and a season's report tries them.
ghost use Rattle.std.specs.Prelude.{◌≡◌, ◌≤◌};
ghost use Rattle.rules.specs.LayerChart.{maximum_overlap, random_overlap};

pub fn maximum_overlap(low: u16, middle: u16, high: u16) -> u16
    ensures { result ≡ maximum_overlap low middle high }
{
    low.max(middle).max(high)
}

// No band is above 8: whoever asks has seen to that.
pub fn random_overlap(low: u16, middle: u16, high: u16) -> u16
    requires low_most { low ≤ 8 }
    requires middle_most { middle ≤ 8 }
    requires high_most { high ≤ 8 }
    ensures { result ≡ random_overlap low middle high }
{
    512 - (8 - low) * (8 - middle) * (8 - high)
}
