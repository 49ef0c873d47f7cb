//! A flat paragraph compressed: few of its units are resolved in its place, and their levels are spread (X1 to I2).
#![tactic(auto)]

pub mod levels;
pub mod pass;
mod passed_set;
pub mod rules;
pub mod theorems;
