//! The lines of a text: where they begin, their levels, the order of their positions, and how they are shown.
#![tactic(auto)]

pub mod alone;
mod arranging;
mod bounds;
pub mod breaks;
mod columns;
mod cutting;
mod filling;
pub mod lay_out;
pub mod layout;
pub mod order;
mod positions;
mod recutting;
pub mod resets;
mod resolving;
pub mod runs;
pub mod scratch;
pub mod shown;
pub mod spans;
pub mod theorems;
mod writing;
