//! The vocabulary of the bidirectional algorithm: classes, levels, sources of bytes, lines and the text of the files.
#![tactic(auto)]

pub mod bracket;
pub mod class;
pub mod cut_source;
pub mod level;
pub mod limits;
pub mod line_cut;
pub mod memory;
pub mod optional_position;
pub mod reader_source;
pub mod slice_source;
pub mod source;
pub mod steps;
pub mod text;
pub mod unread;
