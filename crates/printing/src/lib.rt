//! Prints a text, using the tables: its levels, position by position, or its lines as they are shown.
#![tactic(auto)]

mod begun;
mod columns;
mod cutting;
pub mod decimals;
pub mod fault;
pub mod feeding;
pub mod form;
mod layout_text;
pub mod output;
mod paragraphs;
mod passed;
pub mod pieces;
pub mod place;
mod position_line;
pub mod print;
pub mod reading;
mod reorder_text;
mod settings;
mod unfinished;
mod waiting;
pub mod written;
