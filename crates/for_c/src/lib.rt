//! The values that C gets (errors and statuses, limits, directions, lines, runs, level bytes, verdicts, wrong cases,
//! counts), and what its calls do with the contents of a handle: a room, tables, a judge or a report. This crate has no
//! handles and no pointers.
#![tactic(auto)]

pub mod base;
pub mod call_error;
pub mod columns;
pub mod counts;
pub mod directions;
pub mod fronts;
pub mod in_units;
pub mod limits;
pub mod line;
pub mod line_runs;
pub mod pairs;
pub mod positions;
pub mod properties;
pub mod read_tables;
pub mod reasons;
pub mod report_for_c;
pub mod room_for_c;
pub mod runs;
pub mod shown;
pub mod theorems;
pub mod verdict;
pub mod verdict_text;
pub mod version;
pub mod wrong_case;
