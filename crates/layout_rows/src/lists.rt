//! Lists that a call fills, if they have an item for each of its results.

use anyhow::{Result, bail};
use std::alloc::Global;

/// A position, a length or an offset with which lists are made.
pub const FILLING: usize = 7_777_777;

/// Returns the list that a call fills and that is made of this item. Fails if a list that is too short by one item is
/// not unchanged, or if the call returns another number of items for it or for the right one.
pub fn filled<T: Copy + PartialEq + Drop, F: Fn(&mut [T]) -> usize>(
    alloc: Global,
    filling: T,
    fill: F,
) -> Result<Vec<T>>
    requires { F.IsAlwaysCallable fill }
{
    let count = fill(&mut []);
    let mut short = vec![in alloc; filling; count.saturating_sub(1)]?;
    if fill(&mut short) != count || short.iter().any(|item| *item != filling) {
        bail!("a list that is too short is changed");
    }
    let mut list = vec![in alloc; filling; count]?;
    if fill(&mut list) != count {
        bail!("a list gets another number of items than is said");
    }
    Ok(list)
}
