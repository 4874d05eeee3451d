// The columns one after another: first for NaN, then for the chart. Column (x, y) is number x + y * extent x, and its
// cells lie as far apart in the lent odds as there are columns.
ghost use Rattle.std.specs.Prelude.{◌≡◌, true, ◌++◌, ◌*◌, ◌≤◌, ◌<◌, length, drop};
ghost use Rattle.rules.specs.LayerChart.{any_nan, cells_between, chart_of, charted, first_nan, good_cuts};
ghost use Rattle.rules.specs.TheGridAndItsBounds.{cells, last_extent, layer_of};
ghost use Rattle.laws.specs.Checks.{InBounds};
ghost use Rattle.types.specs.Points.{extents3};
ghost use Rattle.checks.specs.Checking.{check_of};
ghost use Rattle.chart.specs.Charts.{cuts_of, chart_outcome};

use crate::grades::{band_cover, put_column};
use types::{Cuts, Extents3, Refusal};

// Whether a column holds NaN, which alone differs from itself.
fn holds_nan(odds: &[f64], columns: usize, layers: usize, column: usize) -> bool
    requires within { column < columns }
    requires layers_in_odds { layers * columns ≤ length odds.now }
    ensures { result ≡ any_nan (cells_between columns odds.now column 0 layers) }
{
    for z in 0..layers {
        let x = odds[column + z * columns];
        if x != x {
            return true;
        }
    }
    false
}

// The first column that does is refused.
fn nan_check(odds: &[f64], columns: usize, layers: usize) -> Result<(), Refusal>
    requires { layers * columns ≤ length odds.now }
    ensures { check_of result ≡ first_nan columns layers odds.now columns 0 }
{
    for column in 0..columns {
        if holds_nan(odds, columns, layers, column) {
            return Err(Refusal::Column {
                column: column as u64,
            });
        }
    }
    Ok(())
}

// Each column's numbers. The cuts are good, and there is room.
fn fill(odds: &[f64], columns: usize, layers: usize, ceiling: f64, cuts: Cuts, chart: &mut [u16])
    requires cuts_good { good_cuts (cuts_of cuts) layers ≡ true }
    requires layers_in_odds { layers * columns ≤ length odds.now }
    requires room { 5 * columns ≤ length chart.old }
    ensures { chart.new
        ≡ chart_of columns layers ceiling (cuts_of cuts) odds.now columns ++ drop (5 * columns) chart.old }
{
    let first = cuts.first as usize;
    let second = cuts.second as usize;
    for column in 0..columns {
        let low = band_cover(odds, ceiling, columns, column, 0, first);
        let middle = band_cover(odds, ceiling, columns, column, first, second);
        let high = band_cover(odds, ceiling, columns, column, second, layers);
        put_column(chart, 5 * column, low, middle, high);
    }
}

// The chart of a map whose head has passed its checks and whose cuts are good: the entry refuses others with 1, 2, 3,
// 15 and 4. All that is refused here is tried before the first number is written.
pub fn chart_of(
    extents: Extents3,
    ceiling: f64,
    cuts: Cuts,
    odds: &[f64],
    chart: &mut [u16],
) -> Result<(), Refusal>
    requires in_bounds { InBounds (extents3 extents) }
    requires cuts_good { good_cuts (cuts_of cuts) (last_extent (extents3 extents)) ≡ true }
    requires one_per_cell { length odds.now ≡ cells (extents3 extents) }
    ensures { chart_outcome result chart.new
        ≡ charted (layer_of (extents3 extents)) (last_extent (extents3 extents)) ceiling (cuts_of cuts) odds.now chart.old }
{
    let columns = (extents.x * extents.y) as usize;
    let layers = extents.z as usize;
    let needed = 5 * columns;
    if chart.len() < needed {
        return Err(Refusal::Room {
            needed: needed as u64,
        });
    }
    nan_check(odds, columns, layers)?;
    fill(odds, columns, layers, ceiling, cuts, chart);
    Ok(())
}
