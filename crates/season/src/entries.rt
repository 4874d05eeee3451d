// The entries. Each tries all it is given before it writes a number, in this order: sizes (19), how many charts (20),
// and the charts and reports themselves (21). It answers how many charts the report has afterwards.
ghost use Rattle.std.specs.Prelude.{◌≡◌, ◌+◌, leb};
ghost use Rattle.rules.specs.SeasonReport.{most_charts, start_report_entry, add_charts_entry, add_chart_entry, join_reports_entry};
ghost use Rattle.season.specs.Reports.{report_outcome};

use crate::adding::{add_all, add_run, clear};
use crate::sizes::{is_report, same_reports, same_sizes};
use crate::tests::{good_columns, good_report};
use types::Refusal;

const MOST_CHARTS: u64 = 4_096;

// Together not too many: by a difference, as a sum could wrap.
fn few(charts: u64, more: u64) -> bool
    ensures { result ≡ leb (charts + more) most_charts }
{
    charts <= MOST_CHARTS && more <= MOST_CHARTS - charts
}

// An empty report of so many columns: no charts, and every number 0.
#[tactic(auto, unfolding(rules::specs::SeasonReport::start_report_entry))]
pub fn start_report(columns: u64, report: &mut [u32]) -> Result<u64, Refusal>
    ensures { report_outcome result report.new ≡ start_report_entry columns report.old }
{
    if !is_report(report.len()) {
        return Err(Refusal::Sizes);
    }
    if report.len() / 12 != columns as usize {
        return Err(Refusal::Sizes);
    }
    clear(report);
    Ok(0)
}

// A run of so many charts, one after another in one list.
#[tactic(auto, unfolding(rules::specs::SeasonReport::add_charts_entry))]
pub fn add_charts(charts: u64, report: &mut [u32], count: u64, run: &[u16]) -> Result<u64, Refusal>
    ensures { report_outcome result report.new ≡ add_charts_entry charts report.old count run.now }
{
    let columns = report.len() / 12;
    if !same_sizes(report.len(), count as usize, run.len()) {
        return Err(Refusal::Sizes);
    }
    if !few(charts, count) {
        return Err(Refusal::Charts);
    }
    if !good_columns(run, columns * count as usize) {
        return Err(Refusal::Chart);
    }
    if !good_report(charts, report, columns) {
        return Err(Refusal::Chart);
    }
    add_run(charts, report, columns, count as usize, run);
    Ok(charts + count)
}

// One night.
pub fn add_chart(charts: u64, report: &mut [u32], chart: &[u16]) -> Result<u64, Refusal>
    ensures { report_outcome result report.new ≡ add_chart_entry charts report.old chart.now }
{
    add_charts(charts, report, 1, chart)
}

// Another report, of so many charts, into this one.
#[tactic(auto, unfolding(rules::specs::SeasonReport::join_reports_entry))]
pub fn join_reports(
    charts: u64,
    report: &mut [u32],
    more: u64,
    other: &[u32],
) -> Result<u64, Refusal>
    ensures { report_outcome result report.new ≡ join_reports_entry charts report.old more other.now }
{
    let columns = report.len() / 12;
    if !same_reports(report.len(), other.len()) {
        return Err(Refusal::Sizes);
    }
    if !few(charts, more) {
        return Err(Refusal::Charts);
    }
    if !good_report(charts, report, columns) {
        return Err(Refusal::Chart);
    }
    if !good_report(more, other, columns) {
        return Err(Refusal::Chart);
    }
    add_all(report, other);
    Ok(charts + more)
}
