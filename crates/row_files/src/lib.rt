//! Files of rows: each row of a file states an input and what must come out. A program says how to do what a row asks
//! for; this crate reads the files that the program's arguments name, compares, and prints the rows that failed.
//!
//! A file is text in UTF-8. A line that begins with `#` is a comment, and blank lines are skipped. Any other line is a
//! row: fields with `;` between them. The first field is the verb, the last one says what must come out, and the
//! fields between are the inputs of the verb. A `;` between quotation marks is part of its field.
//!
//! The words of a field have blanks between them. `WORD*COUNT` stands for COUNT times WORD, and `A,B*COUNT` for COUNT
//! times A B. What comes out is text too, and is compared word by word.
//!
//! A row that takes several lines is in a file of blocks (`blocks`).
//!
//! A field that states bytes has texts in quotation marks (`bytes`).
#![tactic(auto)]

pub mod blocks;
pub mod bytes;
pub mod files;
pub mod shown;
pub mod words;
