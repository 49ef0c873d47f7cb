//! A text as its caller has it, in code points, classes, units or code units: whether it is well formed, and its units,
//! one after another.
#![tactic(auto)]

pub mod class_numbers;
pub mod codes;
pub mod numbered_units;
pub mod source;
pub mod splitting;
