// crates.txt: YOURS: hub_reports
use hub_reports::Report;

/// How many of the sessions ended with their input.
pub fn count_ended(report: &Report) -> usize {
    report.results.iter().filter(|it| it.is_ok()).count()
}
