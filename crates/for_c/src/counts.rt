//! The counts of a report as numbers.
ghost use Rattle.std.specs.Prelude.{◌≡◌};
ghost use Rattle.for_c.specs.ReportNumbers.{counts_for_c, malformed_cause, malformed_line};

use crate::verdict::number_of_cause;
use bidtests::verdict::Cause;
use report::case_counts::CaseCounts;

/// The counts of a report on a file up to its first malformed line, each at most 2^64 - 1, and that line.
#[repr(C)]
#[derive(Clone, Copy)]
pub struct BidiCounts {
    /// The rows.
    pub rows: u64,
    /// The cases: one for each direction that a row names.
    pub cases: u64,
    /// The rows that are wrong under at least one of their directions.
    pub wrong_rows: u64,
    /// The cases that are wrong.
    pub wrong_cases: u64,
    /// The wrong cases under left-to-right.
    pub ltr: u64,
    /// The wrong cases under right-to-left.
    pub rtl: u64,
    /// The wrong cases by the first strong character, or left-to-right.
    pub auto_ltr: u64,
    /// The wrong cases by the first strong character, or right-to-left.
    pub auto_rtl: u64,
    /// The wrong cases whose paragraph level differs first.
    pub para_level: u64,
    /// The wrong cases whose levels differ first.
    pub levels: u64,
    /// The wrong cases whose order differs first.
    pub order: u64,
    /// The number of the first malformed line, from 1; 0 if no line is malformed.
    pub malformed: u64,
    /// The number of the cause for which it is malformed, from 1; 0 if no line is malformed.
    pub cause: u32,
}

/// Returns the number of the malformed line, and that of its cause; both 0 if there is none.
fn malformed_for_c(malformed: Option<(u64, Cause)>) -> (u64, u32)
    ensures line { result.0 ≡ malformed_line malformed }
    ensures cause { result.1 ≡ malformed_cause malformed }
{
    match malformed {
        None => (0, 0),
        Some((line, cause)) => (line, number_of_cause(cause)),
    }
}

/// Returns counts as C gets them, with the first malformed line and its cause.
pub(crate) fn counts_for_c(
    case_counts: &CaseCounts,
    first_malformed: Option<(u64, Cause)>,
) -> BidiCounts
    ensures { result ≡ counts_for_c case_counts.now first_malformed }
{
    let (malformed, cause) = malformed_for_c(first_malformed);
    BidiCounts {
        rows: case_counts.rows,
        cases: case_counts.cases,
        wrong_rows: case_counts.wrong_rows,
        wrong_cases: case_counts.wrong_cases,
        ltr: case_counts.by_direction.ltr,
        rtl: case_counts.by_direction.rtl,
        auto_ltr: case_counts.by_direction.auto,
        auto_rtl: case_counts.by_direction.auto_rtl,
        para_level: case_counts.by_part.para_level,
        levels: case_counts.by_part.levels,
        order: case_counts.by_part.order,
        malformed,
        cause,
    }
}
