//! The readers of the property files: DerivedBidiClass.txt, BidiBrackets.txt and BidiMirroring.txt.
#![tactic(auto)]

pub mod bracket_table;
mod class_line;
pub mod class_table;
pub mod fault;
pub mod files;
mod keys;
pub mod mirror_table;
mod pair_line;
mod reading;
mod sided_bracket;
pub mod small;
pub mod span;
mod spans;
mod statements;
pub mod tables;
pub mod two_stage;
