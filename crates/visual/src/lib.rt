//! The visual runs of a line: stretches of one level, with removed positions, from left to right. Also L1 and L2 for
//! levels that a caller gives.
#![tactic(auto)]

pub mod by_levels;
pub mod line;
pub mod line_runs;
pub mod own_resets;
pub mod runs;
