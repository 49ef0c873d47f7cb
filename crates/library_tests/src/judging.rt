//! A judge of a file of classes, made and used while an allocation fails.
use bidtests::judge::Judge;
use bidtests::verdict::{Place, Verdict};
use std::alloc::Global;
use units::level::Direction;
use units::memory::Memory;

/// Returns the verdict on a file whose third line has 65,535 bytes: 32,767 times `L`, with single blanks between them,
/// then `;2`, and LF.
fn long_row_verdict(alloc: Global) -> Result<Verdict, Memory> {
    let mut judge = Judge::for_classes(alloc)?;
    judge.feed(b"@Levels: 0\n@Reorder: 0\n");
    for _ in 0..32_766 {
        judge.feed(b"L");
        judge.feed(b" ");
    }
    judge.feed(b"L;2\n");
    Ok(judge.finish())
}

/// Passes whichever allocation fails: a failure in creating the judge is returned as `Memory`, and nothing is allocated
/// later.
#[test]
fn no_growth_comes_after_making(rt: HostRuntime) {
    if let Ok(verdict) = long_row_verdict(rt.alloc()) {
        let wrong = Verdict::Wrong {
            line: 3,
            direction: Direction::Ltr,
            place: Place::Levels(1),
        };
        assert_eq!(&rt; verdict, wrong);
    }
}
