//! A theorem about reports that return their wrong cases one by one.
ghost use Rattle.for_c.specs.ReportsForC.{ReturnsAll};

/// States that the wrong cases that a report has returned, followed by those of the last line that it has not returned
/// yet, are all that are known, in their order. Before the end of the file these are the wrong cases of the final
/// lines, which no further bytes change, up to the first malformed line. After the end they are all wrong cases of the
/// report on the file.
pub fn wrong_cases_are_returned()
    ensures { ReturnsAll }
{}
