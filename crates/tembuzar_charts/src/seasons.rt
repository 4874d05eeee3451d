// The season report. Each entry is the one of its name in season; only the answer's form is another.
ghost use Rattle.rules.specs.SeasonReport.{start_report_entry, add_chart_entry, add_charts_entry, join_reports_entry};
ghost use Rattle.c_types.specs.Answers.{Told, c_count};

use c_types::CCountAnswer;
use season::{add_chart, add_charts, join_reports, start_report};

#[unsafe(no_mangle)]
pub extern "C" fn tembuzar_start_report(columns: u64, report: &mut [u32]) -> CCountAnswer
    ensures { Told c_count (start_report_entry columns report.old) result report.new }
{
    CCountAnswer::from(start_report(columns, report))
}

#[unsafe(no_mangle)]
pub extern "C" fn tembuzar_add_chart(charts: u64, report: &mut [u32], chart: &[u16]) -> CCountAnswer
    ensures { Told c_count (add_chart_entry charts report.old chart.now) result report.new }
{
    CCountAnswer::from(add_chart(charts, report, chart))
}

#[unsafe(no_mangle)]
pub extern "C" fn tembuzar_add_charts(
    charts: u64,
    report: &mut [u32],
    count: u64,
    run: &[u16],
) -> CCountAnswer
    ensures { Told c_count (add_charts_entry charts report.old count run.now) result report.new }
{
    CCountAnswer::from(add_charts(charts, report, count, run))
}

#[unsafe(no_mangle)]
pub extern "C" fn tembuzar_join_reports(
    charts: u64,
    report: &mut [u32],
    more: u64,
    other: &[u32],
) -> CCountAnswer
    ensures { Told c_count (join_reports_entry charts report.old more other.now) result report.new }
{
    CCountAnswer::from(join_reports(charts, report, more, other))
}
