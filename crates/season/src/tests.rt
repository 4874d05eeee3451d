// Whether a chart can be one, and whether a report can be one of so many charts: column by column, from the last to the
// first.
ghost use Rattle.std.specs.Prelude.{◌≡◌, ◌+◌, ◌*◌, ◌≤◌, ◌<◌, length};
ghost use Rattle.rules.specs.SeasonReport.{most_charts, good_column, good_columns, nine_counts, good_report_column, good_report};

use chart::{maximum_overlap, random_overlap};

// Three bands of at most 8, and the totals that they give. The column is the list's.
#[tactic(auto, unfolding(rules::specs::SeasonReport::good_column))]
fn good_column(chart: &[u16], at: usize) -> bool
    requires { at + 5 ≤ length chart.now }
    ensures { result ≡ good_column chart.now at }
{
    let low = chart[at];
    let middle = chart[at + 1];
    let high = chart[at + 2];
    low <= 8
        && middle <= 8
        && high <= 8
        && chart[at + 3] == maximum_overlap(low, middle, high)
        && chart[at + 4] == random_overlap(low, middle, high)
}

// The first so many columns of a run, which are the list's.
#[tactic(auto, unfolding(rules::specs::SeasonReport::good_columns))]
pub fn good_columns(chart: &[u16], columns: usize) -> bool
    requires { 5 * columns ≤ length chart.now }
    ensures { result ≡ good_columns chart.now columns }
{
    for n in (0..columns).rev() {
        if !good_column(chart, 5 * n) {
            return false;
        }
    }
    true
}

// The sum of a column's nine counts. The column is the list's.
#[tactic(auto, unfolding(rules::specs::SeasonReport::nine_counts))]
fn nine_counts(report: &[u32], at: usize) -> u64
    requires { at + 12 ≤ length report.now }
    ensures { result ≡ nine_counts report.now at }
{
    u64::from(report[at])
        + u64::from(report[at + 1])
        + u64::from(report[at + 2])
        + u64::from(report[at + 3])
        + u64::from(report[at + 4])
        + u64::from(report[at + 5])
        + u64::from(report[at + 6])
        + u64::from(report[at + 7])
        + u64::from(report[at + 8])
}

// The nine counts add up to the charts, and no other number is above 512 a chart. The column is the list's, and the
// charts are few.
#[tactic(auto, unfolding(rules::specs::SeasonReport::good_report_column))]
fn good_report_column(charts: u64, report: &[u32], at: usize) -> bool
    requires few { charts ≤ most_charts }
    requires within { at + 12 ≤ length report.now }
    ensures { result ≡ good_report_column charts report.now at }
{
    let most = 512 * charts;
    nine_counts(report, at) == charts
        && u64::from(report[at + 9]) <= most
        && u64::from(report[at + 10]) <= most
        && u64::from(report[at + 11]) <= most
}

// The first so many columns, which are the list's.
#[tactic(auto, unfolding(rules::specs::SeasonReport::good_report))]
pub fn good_report(charts: u64, report: &[u32], columns: usize) -> bool
    requires few { charts ≤ most_charts }
    requires twelve_each { 12 * columns ≤ length report.now }
    ensures { result ≡ good_report charts report.now columns }
{
    for n in (0..columns).rev() {
        if !good_report_column(charts, report, 12 * n) {
            return false;
        }
    }
    true
}
