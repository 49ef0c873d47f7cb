//! The isolating run sequences of a paragraph (BD13, X10).
#![tactic(auto)]

mod heads;
mod leveled;
mod linking;
mod one_sequence;
pub mod sequence;
pub mod sequences;
pub mod theorems;
