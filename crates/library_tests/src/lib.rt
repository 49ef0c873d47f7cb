//! Tests of libraries that no row of a file can say: each allocation that fails in turn, layouts again and again in what
//! was made once, and a constant. They are in a crate of their own, so that no library is proved a second time with its
//! tests.
#![tactic(auto)]

#[cfg(test)]
mod characters_rows;
#[cfg(test)]
mod given;
#[cfg(test)]
mod judging;
#[cfg(test)]
mod line_rows;
#[cfg(test)]
mod printed_out_of_memory;
#[cfg(test)]
mod rooms;
#[cfg(test)]
mod small_tables;
#[cfg(test)]
mod table_faults;
