// The entries. A map of three axes has a chart; one of two has no cuts and is refused. The head is checked as far as it
// is used: the ceiling and the cuts, which are the model's, and the odds.
ghost use Rattle.std.specs.Prelude.{◌≡◌};
ghost use Rattle.rules.specs.LayerChart.{layer_chart_entry, no_cuts_entry};
ghost use Rattle.grid_map.specs.Heads.{head2, head3};
ghost use Rattle.chart.specs.Charts.{chart_outcome};

use crate::columns::chart_of;
use checks::Uses;
use grid_map::{GridMap2, GridMap3};
use types::Refusal;

const CHART: Uses = Uses {
    model: true,
    odds: true,
    stamps: false,
    frame: false,
};

const NO_CHART: Uses = Uses {
    model: true,
    odds: false,
    stamps: false,
    frame: false,
};

// The chart, five numbers a column from the first of the list on: the low, middle and high band and the total by
// maximum overlap, each of 8, and the total by random overlap, of 512. What follows them in the list stays.
pub fn layer_chart3(map: GridMap3, odds: &[f64], chart: &mut [u16]) -> Result<(), Refusal>
    ensures { chart_outcome result chart.new ≡ layer_chart_entry (head3 map) odds.now chart.old }
{
    map.check(CHART, odds.len(), 0)?;
    let bands = map.model;
    chart_of(map.extents, bands.ceiling, bands.cuts, odds, chart)
}

// A map of two axes has no cuts.
pub fn layer_chart2(map: GridMap2, chart: &mut [u16]) -> Result<(), Refusal>
    ensures { chart_outcome result chart.new ≡ no_cuts_entry (head2 map) chart.old }
{
    map.check(NO_CHART, 0, 0)?;
    Err(Refusal::Cuts)
}
