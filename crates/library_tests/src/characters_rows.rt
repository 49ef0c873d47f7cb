//! A judge of a file of characters, made and used while an allocation fails.
use crate::small_tables::tables;
use bidtests::judge::Judge;
use bidtests::verdict::{Place, Verdict};
use std::alloc::Global;
use ucdfiles::fault::TableFault;
use units::level::Direction;

/// Returns the verdict on a row of characters, with the tables of the small files.
fn characters_verdict(alloc: Global) -> Result<Verdict, TableFault> {
    let tables = tables(alloc)?;
    let Ok(mut judge) = Judge::for_characters(alloc, &tables) else {
        return Err(TableFault::Memory);
    };
    judge.feed(b"0061;0;1;0;0\n");
    Ok(judge.finish())
}

/// Passes whichever allocation fails: a failure in creating the judge is returned as `Memory`, and nothing is allocated
/// later.
#[test]
fn no_growth_comes_after_making(rt: HostRuntime) {
    match characters_verdict(rt.alloc()) {
        Err(fault) => assert_eq!(&rt; fault, TableFault::Memory),
        Ok(verdict) => {
            let wrong = Verdict::Wrong {
                line: 1,
                direction: Direction::Ltr,
                place: Place::ParaLevel,
            };
            assert_eq!(&rt; verdict, wrong);
        }
    }
}
