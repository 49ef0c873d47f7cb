//! Tests of the command over files, standard input and writers in memory: what is printed by contract, and runs in
//! which allocations fail. They are in a crate of their own, so that no crate is proved a second time with its tests.
#![tactic(auto)]

#[cfg(test)]
mod command_lines;
#[cfg(test)]
mod faults;
#[cfg(test)]
mod known;
#[cfg(test)]
mod memory_files;
#[cfg(test)]
mod writers;
