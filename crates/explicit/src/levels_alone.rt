//! The explicit levels of a paragraph without R and AL, without its current classes (X1 to X9). The isolates of such a
//! paragraph need not be found (BD9): an FSI asks for what an LRI asks for, whatever it encloses.
ghost use Rattle.std.specs.Prelude.{◌≡◌, ◌+◌, ◌*◌, ◌≤◌, length, true};
ghost use Rattle.units.specs.Classes.{classes_of, is_right_to_left};
ghost use Rattle.units.specs.Runs.{leveled_of};
ghost use Rattle.explicit.specs.IdleRules.{HasNone};
ghost use Rattle.explicit.specs.LevelsAlone.{HoldsLevelsAlone, with_level};
ghost use Rattle.explicit.specs.StatusStacks.{entry_count, is_ordinary};
ghost use Rattle.explicit.specs.Stretches.{IsStretch, IsStretchWithin};

use crate::levels::Explicit;
use crate::roles::is_ordinary;
use crate::status::{LevelRange, StatusStack};
use std::sync::ledger::Ledger;
use units::bracket::Unit;
use units::level::{Level, ParaLevel};
use units::limits::Limits;
use units::steps::Steps;

// Returns whether the class of this position and that of the one after it are ordinary.
fn are_two_ordinary(para: &[Unit], p: usize) -> bool
    requires { p + 2 ≤ length para.now }
    ensures { result ≡ true → IsStretchWithin is_ordinary (classes_of para.now) p (p + 2) (p + 2) }
{
    is_ordinary(para[p].class) && is_ordinary(para[p + 1].class)
}

// Returns whether the classes of the four positions from this one on are ordinary.
fn are_four_ordinary(para: &[Unit], p: usize) -> bool
    requires { p + 4 ≤ length para.now }
    ensures { result ≡ true → IsStretchWithin is_ordinary (classes_of para.now) p (p + 4) (p + 4) }
{
    are_two_ordinary(para, p) && are_two_ordinary(para, p + 2)
}

// Returns whether the classes of the eight positions from this one on are ordinary.
fn are_eight_ordinary(para: &[Unit], p: usize) -> bool
    requires { p + 8 ≤ length para.now }
    ensures { result ≡ true → IsStretchWithin is_ordinary (classes_of para.now) p (p + 8) (p + 8) }
{
    are_four_ordinary(para, p) && are_four_ordinary(para, p + 4)
}

// Writes this level to this position and to the one after it.
fn write_two(p: usize, level: Level, levels: &mut [Option<Level>])
    requires { p + 2 ≤ length levels.old }
    ensures { levels.new ≡ with_level level p (p + 2) levels.old }
{
    levels[p] = Some(level);
    levels[p + 1] = Some(level);
}

// Writes this level to the four positions from this one on.
fn write_four(p: usize, level: Level, levels: &mut [Option<Level>])
    requires { p + 4 ≤ length levels.old }
    ensures { levels.new ≡ with_level level p (p + 4) levels.old }
{
    write_two(p, level, levels);
    write_two(p + 2, level, levels);
}

// Writes this level to the eight positions from this one on.
fn write_eight(p: usize, level: Level, levels: &mut [Option<Level>])
    requires { p + 8 ≤ length levels.old }
    ensures { levels.new ≡ with_level level p (p + 8) levels.old }
{
    write_four(p, level, levels);
    write_four(p + 4, level, levels);
}

// X5a to X6a: writes this level to the positions from `from` on, before the next position whose class is not ordinary,
// or the end. Returns that position. Each written position is a step.
fn write_rest<L: Ledger>(
    para: &[Unit],
    from: usize,
    level: Level,
    levels: &mut [Option<Level>],
    steps: &mut Steps<L>,
) -> usize
    requires from { from ≤ length para.now }
    requires room { length para.now ≤ length levels.old }
    ensures stretch { IsStretch is_ordinary (classes_of para.now) from result }
    ensures levels { levels.new ≡ with_level level from result levels.old }
    ensures steps { steps.new + from ≡ steps.old + result }
{
    let mut p = from;
    while p < para.len() && is_ordinary(para[p].class) {
        steps.tick();
        levels[p] = Some(level);
        p += 1;
    }
    p
}

/// How many positions of ordinary classes get their level together.
const BLOCK: usize = 8;

// Does what `write_rest` does, eight positions at a time as long as the classes of the next eight are ordinary.
fn write_ordinary<L: Ledger>(
    para: &[Unit],
    from: usize,
    level: Level,
    levels: &mut [Option<Level>],
    steps: &mut Steps<L>,
) -> usize
    requires from { from ≤ length para.now }
    requires room { length para.now ≤ length levels.old }
    ensures stretch { IsStretch is_ordinary (classes_of para.now) from result }
    ensures levels { levels.new ≡ with_level level from result levels.old }
    ensures steps { steps.new + from ≡ steps.old + result }
{
    let mut p = from;
    while para.len() - p >= BLOCK && are_eight_ordinary(para, p) {
        steps.add(BLOCK);
        write_eight(p, level, levels);
        p += BLOCK;
    }
    write_rest(para, p, level, levels, steps)
}

// X1 to X9: writes the level of each position. Successive positions of ordinary classes are written at once; each other
// position opens and closes what its class says. The stack is empty before and after.
fn write_levels<L: Ledger>(
    para: &[Unit],
    range: &LevelRange,
    stack: &mut StatusStack,
    levels: &mut [Option<Level>],
    steps: &mut Steps<L>,
)
    requires none { HasNone is_right_to_left (classes_of para.now) }
    requires base { range.now.base ≤ 1 }
    requires within { range.now.depth ≤ 125 }
    requires room { length levels.old ≡ length para.now }
    requires empty { entry_count stack.old ≡ 0 }
    ensures levels { HoldsLevelsAlone levels.new range.now.depth (classes_of para.now) range.now.base }
    ensures room { length levels.new ≡ length para.now }
    ensures empty { entry_count stack.new ≡ 0 }
    ensures least_steps { steps.old + length para.now ≤ steps.new }
    ensures most_steps { steps.new ≤ steps.old + (2 * length para.now + 1) }
{
    stack.begin(range.base);
    let mut p = 0;
    while p < para.len() {
        steps.tick();
        let class = para[p].class;
        if is_ordinary(class) {
            p = write_ordinary(para, p, stack.current().level, levels, steps);
            continue;
        }
        levels[p] = stack.pass(class, false, range, steps).level();
        p += 1;
    }
    stack.clear(steps);
}

/// Writes the explicit levels of a paragraph of level 0 without R and AL, up to the depth of the limits (X1 to X9,
/// BD2). `room` is unchanged. Each position is a step. So is each stretch of successive ordinary classes, and each
/// entry of the stack (X1) that a PDI or the paragraph's end drops.
pub fn explicit_levels_alone<L: Ledger>(
    para: &[Unit],
    limits: Limits,
    room: &mut Explicit,
    levels: &mut [Option<Level>],
    steps: &mut Steps<L>,
)
    requires none { HasNone is_right_to_left (classes_of para.now) }
    requires levels { length levels.old ≡ length para.now }
    ensures unchanged { room.new ≡ room.old }
    ensures levels { levels.new ≡ (leveled_of limits.depth (classes_of para.now) 0).levels }
    ensures least_steps { steps.old + length para.now ≤ steps.new }
    ensures most_steps { steps.new ≤ steps.old + (2 * length para.now + 1) }
{
    let range = LevelRange {
        base: ParaLevel::Zero.level(),
        depth: limits.depth(),
    };
    write_levels(para, &range, &mut room.stack, levels, steps);
}
