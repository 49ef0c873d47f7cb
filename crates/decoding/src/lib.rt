//! Decodes texts in UTF-8 and UTF-16: the unit of each character, and the offset of code units at which it begins.
#![tactic(auto)]

mod blocks;
pub mod breaking;
pub mod decoded;
pub mod fault;
pub mod fours;
pub mod indices;
pub mod known;
pub mod lossy;
mod reached;
pub mod spelling;
pub mod utf16;
pub mod utf8;
