//! The engine for programs in C: handles that own tables, rooms, judges and reports, and calls that lay out texts, copy
//! out their layouts, judge test files and report on them, and state verdicts.
//!
//! Each export is total for handles that are all zero or were made by these calls. docs/C.md is their manual.
#![tactic(auto)]

pub mod base;
pub mod bidi_handle;
pub mod contents;
pub mod encoded_calls;
pub mod encoded_layouts;
pub mod front_calls;
pub mod handle;
pub mod judge_calls;
pub mod laying_out;
pub mod looking_up;
pub mod properties;
mod putting;
pub mod report_calls;
pub mod room_calls;
pub mod tables_calls;
pub mod verdict_calls;
pub mod visual_calls;
