//! The counts of a report.
ghost use Rattle.std.specs.Prelude.{◌≡◌};
ghost use Rattle.std.specs.List.{count_by};
ghost use Rattle.report.specs.ReportCounts.{is_under, is_of, part_of, with_row};

use crate::wrong_case::WrongCase;
use bidtests::verdict::Place;
use units::level::Direction;

/// How many wrong cases there are under each direction.
#[derive(Clone, Copy, Debug, PartialEq, Eq)]
pub struct ByDirection {
    pub auto: u64,
    pub ltr: u64,
    pub rtl: u64,
    pub auto_rtl: u64,
}

/// How many wrong cases there are by which of the row's expected values differs first.
#[derive(Clone, Copy, Debug, PartialEq, Eq)]
pub struct ByPart {
    pub para_level: u64,
    pub levels: u64,
    pub order: u64,
}

/// Which of a row's expected values can differ from the layout.
#[derive(Clone, Copy, Debug, PartialEq, Eq)]
pub enum Part {
    /// The level of the first paragraph.
    ParaLevel,
    /// The levels of the positions.
    Levels,
    /// The order.
    Order,
}

/// The counts of a report, each at most 2^64 - 1.
#[derive(Clone, Copy, Debug, PartialEq, Eq)]
pub struct CaseCounts {
    /// The rows.
    pub rows: u64,
    /// The cases: one for each direction that a row names.
    pub cases: u64,
    /// The rows that are wrong under at least one of their directions.
    pub wrong_rows: u64,
    /// The cases that are wrong.
    pub wrong_cases: u64,
    /// The wrong cases by direction.
    pub by_direction: ByDirection,
    /// The wrong cases by what differs first.
    pub by_part: ByPart,
}

/// Returns the part that a place belongs to.
fn part_at(place: Place) -> Part
    ensures { result ≡ part_of place }
{
    match place {
        Place::ParaLevel => Part::ParaLevel,
        Place::Levels(_) => Part::Levels,
        Place::Order(_) => Part::Order,
    }
}

/// Returns how many of these cases are wrong under the direction.
fn count_under(found: &[WrongCase], direction: Direction) -> u64
    ensures { result ≡ count_by (is_under direction) found.now }
{
    let mut count = 0;
    for i in 0..found.len() {
        if found[i].direction == direction {
            count += 1;
        }
    }
    count
}

/// Returns in how many of these cases this part differs first.
fn count_of(found: &[WrongCase], differs: Part) -> u64
    ensures { result ≡ count_by (is_of differs) found.now }
{
    let mut count = 0;
    for i in 0..found.len() {
        if part_at(found[i].place) == differs {
            count += 1;
        }
    }
    count
}

impl ByDirection {
    ghost use Rattle.report.specs.ReportCounts.{more_by_direction};

    /// Returns the counts with these cases added.
    fn with(self, found: &[WrongCase]) -> ByDirection
        ensures { result ≡ more_by_direction found.now self }
    {
        ByDirection {
            auto: self
                .auto
                .saturating_add(count_under(found, Direction::Auto)),
            ltr: self.ltr.saturating_add(count_under(found, Direction::Ltr)),
            rtl: self.rtl.saturating_add(count_under(found, Direction::Rtl)),
            auto_rtl: self
                .auto_rtl
                .saturating_add(count_under(found, Direction::AutoRtl)),
        }
    }
}

impl ByPart {
    ghost use Rattle.report.specs.ReportCounts.{more_by_part};

    /// Returns the counts with these cases added.
    fn with(self, found: &[WrongCase]) -> ByPart
        ensures { result ≡ more_by_part found.now self }
    {
        ByPart {
            para_level: self
                .para_level
                .saturating_add(count_of(found, Part::ParaLevel)),
            levels: self.levels.saturating_add(count_of(found, Part::Levels)),
            order: self.order.saturating_add(count_of(found, Part::Order)),
        }
    }
}

impl CaseCounts {
    ghost use Rattle.report.specs.ReportCounts.{nothing_counted};

    /// Returns the counts before the first row.
    pub fn new() -> CaseCounts
        ensures { result ≡ nothing_counted }
    {
        CaseCounts {
            rows: 0,
            cases: 0,
            wrong_rows: 0,
            wrong_cases: 0,
            by_direction: ByDirection {
                auto: 0,
                ltr: 0,
                rtl: 0,
                auto_rtl: 0,
            },
            by_part: ByPart {
                para_level: 0,
                levels: 0,
                order: 0,
            },
        }
    }

    /// Returns the counts with one row added that has so many cases, including these wrong ones.
    pub fn with_row(self, cases: usize, found: &[WrongCase]) -> CaseCounts
        ensures { result ≡ with_row cases found.now self }
    {
        let wrong = found.len() as u64;
        CaseCounts {
            rows: self.rows.saturating_add(1),
            cases: self.cases.saturating_add(cases as u64),
            wrong_rows: self.wrong_rows.saturating_add(wrong.min(1)),
            wrong_cases: self.wrong_cases.saturating_add(wrong),
            by_direction: self.by_direction.with(found),
            by_part: self.by_part.with(found),
        }
    }
}
