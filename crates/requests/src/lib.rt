//! Performs what the command `bidi` is asked to do, with the files and writers that the caller passes: lays out
//! bidirectional text, shows what each rule does to it, and judges, reports on and writes conformance files of the
//! bidirectional algorithm.
#![tactic(auto)]

mod directions;
mod enumerating;
pub mod fault;
mod fault_line;
pub mod files;
mod items;
mod judging;
mod lengths;
mod opening;
pub mod outcome;
pub mod performing;
mod reading;
mod reason;
mod reporting;
pub mod request;
mod row_explaining;
mod row_tables;
pub mod run;
mod table_files;
mod table_source;
mod text_printing;
mod text_rows;
pub mod verdict_line;
