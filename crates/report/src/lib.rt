//! A report on a test file: all of its wrong cases, each with what is expected and what is defined, and their counts.
//!
//! A judge stops at the first wrong case. Whoever repairs an engine wants the others too, so a report goes on after a
//! wrong row, up to the end of the file or the first malformed line. It reads lines by the judge's grammar. It takes
//! its memory when it is made, and none after that.
#![tactic(auto)]

pub mod case_counts;
mod comparing;
mod line_report;
pub mod print;
mod read_order;
pub mod report;
pub mod report_text;
mod row_cases;
pub mod terms;
pub mod theorems;
pub mod wrong_case;
