//! Test files with right answers: hard texts that are enumerated or drawn, or the lines of a text, with the levels and
//! the order that the rules give.
#![tactic(auto)]

pub mod case_text;
mod character_text;
mod drawn;
pub mod exhaustive;
pub mod fault;
pub mod form;
mod item_text;
pub mod letter;
pub mod letters;
pub mod naming;
mod numbered;
pub mod print;
pub mod print_lines;
pub mod print_random;
pub mod random;
mod room;
pub mod text_lines;
pub mod theorems;
mod under_directions;
