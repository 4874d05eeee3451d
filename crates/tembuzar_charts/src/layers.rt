// The layer chart. Each entry is the one of its name in chart; only the head's and the answer's form is another.
ghost use Rattle.rules.specs.LayerChart.{layer_chart_entry, no_cuts_entry};
ghost use Rattle.c_types.specs.Answers.{Told, c_set};
ghost use Rattle.c_types.specs.Heads.{head2, head3};

use c_types::{CMap2, CMap3, CRefusal};
use chart::{layer_chart2, layer_chart3};
use grid_map::{GridMap2, GridMap3};

#[unsafe(no_mangle)]
pub extern "C" fn tembuzar_layer_chart2(map: CMap2, chart: &mut [u16]) -> CRefusal
    ensures { Told c_set (no_cuts_entry (head2 map) chart.old) result chart.new }
{
    CRefusal::from(layer_chart2(GridMap2::from(map), chart))
}

#[unsafe(no_mangle)]
pub extern "C" fn tembuzar_layer_chart3(map: CMap3, odds: &[f64], chart: &mut [u16]) -> CRefusal
    ensures { Told c_set (layer_chart_entry (head3 map) odds.now chart.old) result chart.new }
{
    CRefusal::from(layer_chart3(GridMap3::from(map), odds, chart))
}
