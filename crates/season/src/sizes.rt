// Whether lists are of one size, in columns.
ghost use Rattle.std.specs.Prelude.{◌≡◌, ◌&&◌, ◌*◌, eqb};
ghost use Rattle.rules.specs.SeasonReport.{is_report, report_columns};

use checks::so_many_each;

// Twelve numbers a column and none over.
pub fn is_report(size: usize) -> bool
    ensures { result ≡ is_report size }
{
    size == 12 * (size / 12)
}

// A report's list, and so many charts of its columns.
pub fn same_sizes(report: usize, count: usize, run: usize) -> bool
    ensures { result ≡ (is_report report && eqb run (5 * report_columns report * count)) }
{
    is_report(report) && so_many_each(run, 5 * (report / 12), count)
}

// A report's list, and another as long.
pub fn same_reports(report: usize, other: usize) -> bool
    ensures { result ≡ (is_report report && eqb other report) }
{
    is_report(report) && other == report
}
