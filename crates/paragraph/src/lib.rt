//! A paragraph, from its units to its resolved levels (P1 to I2).
#![tactic(auto)]

pub mod class_set;
pub mod contents;
mod fast_paths;
mod few;
mod found;
mod left_to_right;
pub mod one_unit;
pub mod resolver;
mod rooms;
pub mod theorems;
pub mod uniform;
