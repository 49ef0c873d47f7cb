//! The results of each rule for a paragraph, by position: the explicit levels, the sequences, the classes after each of
//! W1 to N2, the bracket pairs, the levels after I1 and I2 and after L1, and the order. A plain pass applies each rule.
#![tactic(auto)]

mod bracketing;
mod class_parts;
mod classes_part;
pub mod columns;
mod current;
mod deciding;
mod explicit_part;
mod implicit_levels;
mod neutral;
mod pass;
mod rewriting;
pub mod rule;
mod runs;
mod shown_part;
pub mod theorems;
pub mod weak;
