//! The command `bidi`: reads its arguments with `clap`, and performs the request with the files and writers that the
//! caller passes.
#![tactic(auto)]

mod arguments;
mod asked_rows;
mod command_line;
mod explaining;
mod help;
mod invocation;
mod rejection;
mod rejections;
pub mod run;
mod subcommands;
mod values;
mod words;
