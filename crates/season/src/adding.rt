// A night into a report, a run of nights, and one report into another. What is added has been tried, and no number can
// wrap.
ghost use Rattle.std.specs.Prelude.{◌≡◌, true, ◌+◌, ◌*◌, ◌≤◌, ◌<◌, length, drop, replicate};
ghost use Rattle.rules.specs.SeasonReport.{most_charts, differs, night, plus, run_report, good_columns, good_report};
ghost use Rattle.season.specs.Reports.{added_column, Roomy, RoomyWith};

// Whether the two totals of a column differ, over 512.
fn differ(total: u16, random: u16) -> u32
    requires { total ≤ 8 }
    ensures { result ≡ differs total random }
{
    if 64 * total == random {
        return 0;
    }
    1
}

// One night of one column. Its numbers are the list's.
fn add_column(report: &mut [u32], at: usize, total: u16, random: u16)
    requires within { at + 12 ≤ length report.old }
    requires total_most { total ≤ 8 }
    requires random_most { random ≤ 512 }
    requires roomy { Roomy report.old at }
    ensures { report.new ≡ added_column report.old at total random }
{
    let grade = at + total as usize;
    let stood = report[grade];
    let differing = report[at + 9];
    let maximum = report[at + 10];
    let sum = report[at + 11];
    report[grade] = stood + 1;
    report[at + 9] = differing + differ(total, random);
    report[at + 10] = maximum + 64 * total as u32;
    report[at + 11] = sum + random as u32;
}

// One night: a chart of so many columns, which begins at this column of the run. It is a good one.
fn add_night(report: &mut [u32], columns: usize, run: &[u16], from: usize)
    requires twelve_each { length report.old ≡ 12 * columns }
    requires charts_in_run { 5 * (from + columns) ≤ length run.now }
    requires all_good { good_columns run.now (from + columns) ≡ true }
    requires roomy { Roomy report.old 0 }
    ensures { report.new ≡ plus report.old (night (drop (5 * from) run.now) columns) }
{
    for n in 0..columns {
        let at = 5 * (from + n);
        add_column(report, 12 * n, run[at + 3], run[at + 4]);
    }
}

// A run of so many nights. The charts and the report are good, and together not too many.
pub fn add_run(charts: u64, report: &mut [u32], columns: usize, count: usize, run: &[u16])
    requires twelve_each { length report.old ≡ 12 * columns }
    requires five_each { length run.now ≡ 5 * columns * count }
    requires few { charts + count ≤ most_charts }
    requires run_good { good_columns run.now (columns * count) ≡ true }
    requires report_good { good_report charts report.old columns ≡ true }
    ensures { report.new ≡ plus report.old (run_report columns count run.now) }
{
    for n in 0..count {
        add_night(report, columns, run, columns * n);
    }
}

// Another report, number by number. It is as long.
pub fn add_all(report: &mut [u32], other: &[u32])
    requires as_long { length other.now ≡ length report.old }
    requires roomy { RoomyWith report.old other.now }
    ensures { report.new ≡ plus report.old other.now }
{
    for (i, sum) in report.iter_mut().enumerate() {
        *sum += other[i];
    }
}

// Every number 0.
pub fn clear(report: &mut [u32])
    ensures { report.new ≡ replicate (length report.old) 0 }
{
    report.fill(0);
}
