//! Texts laid out: one type that owns the scratch, the units of a text and the offsets of its characters; and what is
//! known of a text without a layout.
#![tactic(auto)]

pub mod base_levels;
mod decoded;
pub mod fault;
mod finding;
mod laying_out;
pub mod levels;
pub mod line_of;
pub mod lookups;
pub mod places;
pub mod room;
pub mod runs;
pub mod shown;
pub mod shown_units;
pub mod text;
pub mod theorems;
pub mod whole_levels;
