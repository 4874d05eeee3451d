// One cell's eighths, one band's cover, and a column's five numbers.
ghost use Rattle.std.specs.Prelude.{◌≡◌, ◌+◌, ◌*◌, ◌≤◌, ◌<◌, length};
ghost use Rattle.std.proofs.lemmas.List.Edits.{sets};
ghost use Rattle.rules.specs.LayerChart.{reaches, eighths, band_cover, cells_between, five_of};

use crate::overlap::{maximum_overlap, random_overlap};

// 1 where the odds are at or above a limit.
fn at_limit(odds: f64, limit: f64) -> u16
    ensures { result ≡ reaches odds limit }
{
    if odds >= limit {
        return 1;
    }
    0
}

// The ceiling first: it may lie below some of the limits, which are the log-odds of 1/8, 2/8 and so on to 7/8.
fn cell_eighths(ceiling: f64, odds: f64) -> u16
    ensures { result ≡ eighths ceiling odds }
{
    if odds >= ceiling {
        return 8;
    }
    at_limit(odds, -1.9459101490553132)
        + (at_limit(odds, -1.0986122886681098)
            + (at_limit(odds, -0.5108256237659907)
                + (at_limit(odds, 0.0)
                    + (at_limit(odds, 0.5108256237659907)
                        + (at_limit(odds, 1.0986122886681098)
                            + at_limit(odds, 1.9459101490553132))))))
}

// The largest cell of a column from one height up to below another, from the top down. Column and heights are the
// map's: the lent odds have a number for each cell under `to`.
pub fn band_cover(
    odds: &[f64],
    ceiling: f64,
    columns: usize,
    column: usize,
    from: usize,
    to: usize,
) -> u16
    requires within { column < columns }
    requires upwards { from ≤ to }
    requires layers_in_odds { to * columns ≤ length odds.now }
    ensures { result ≡ band_cover ceiling (cells_between columns odds.now column from to) }
{
    let mut most: u16 = 0;
    for z in (from..to).rev() {
        let cell = cell_eighths(ceiling, odds[column + z * columns]);
        most = cell.max(most);
    }
    most
}

// A column's numbers from this place on: its bands, and the two totals of them. No band is above 8, and there is room.
pub fn put_column(chart: &mut [u16], at: usize, low: u16, middle: u16, high: u16)
    requires room { at + 5 ≤ length chart.old }
    requires low_most { low ≤ 8 }
    requires middle_most { middle ≤ 8 }
    requires high_most { high ≤ 8 }
    ensures { chart.new ≡ sets chart.old at (five_of low middle high) }
{
    chart[at] = low;
    chart[at + 1] = middle;
    chart[at + 2] = high;
    chart[at + 3] = maximum_overlap(low, middle, high);
    chart[at + 4] = random_overlap(low, middle, high);
}
