//! The lexical profile of the five files: content, fields, items, code points, numbers.

pub mod code_point;
pub mod cut;
pub mod items;
pub mod number;
pub mod trim;
