//! Shows what each rule of the algorithm does to a text.
//!
//! `print` explains a text, or a row of classes. `row_print` explains a row of a test file: for each direction that the
//! row names, what each rule does to its text, and the expected results beside the defined ones. `find` finds a row by
//! its line number, as a report prints it. It reads lines by the grammar of the judge, one at a time, up to that line.
#![tactic(auto)]

mod cell;
mod characters;
pub mod chosen_row;
mod code;
pub mod find;
mod foot;
mod heading;
mod paragraph_text;
mod position;
pub mod print;
pub mod row_fault;
pub mod row_print;
mod row_reader;
mod search;
