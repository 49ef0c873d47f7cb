//! P2 to X10 over a paragraph. If the paragraph is flat, there is a fast path: without initiators it has no isolates
//! and no explicit levels. If nothing can leave the paragraph's level (X1 to I2), this level is written to all
//! positions that remain.
ghost use Rattle.std.specs.Prelude.{◌≡◌, false, true, ◌+◌, ◌*◌, ◌<◌, ◌≤◌, length, map, slice_index_or};
ghost use Rattle.std.specs.List.{list_any};
ghost use Rattle.units.specs.Classes.{classes_of, is_removed};
ghost use Rattle.units.specs.Isolates.{level_of_para, para_level_of};
ghost use Rattle.units.specs.Layout.{no_unit};
ghost use Rattle.units.specs.Paragraphs.{SeparatorOnlyLast};
ghost use Rattle.units.specs.Runs.{leveled_of, sequences_of};
ghost use Rattle.explicit.specs.ExplicitLevels.{HoldsLevels};
ghost use Rattle.explicit.specs.IdleRules.{HasNone};
ghost use Rattle.explicit.specs.IsolateMaps.{IsFilledFrom};
ghost use Rattle.explicit.specs.Uniform.{level_unless_removed_at};
ghost use Rattle.paragraph.specs.Contents.{Describes, are_flat};
ghost use Rattle.paragraph.specs.Covering.{AreDisjoint, HavePositions};
ghost use Rattle.paragraph.specs.KnownLevels.{HasLevelsBefore, classes_at_four};
ghost use Rattle.paragraph.specs.StepBounds.{x_rules_steps};

use crate::class_set::ClassSet;
use crate::contents::{Contents, has_removed};
use crate::rooms::RoomToFind;
use explicit::levels::explicit_levels;
use explicit::para_level::{level_under, para_level};
use std::sync::ledger::Ledger;
use units::bracket::Unit;
use units::class::Class;
use units::level::{Direction, Level, ParaLevel};
use units::limits::Limits;
use units::steps::Steps;

/// BD9, P2, P3: Returns the level of a paragraph with these contents. If the paragraph is flat, no position is in an
/// isolate, and the side of its first strong class gives the level without a step. Otherwise its isolates are found
/// first.
pub fn find_level<L: Ledger>(
    para: &[Unit],
    contents: Contents,
    direction: Direction,
    found: &mut RoomToFind,
    steps: &mut Steps<L>,
) -> ParaLevel
    requires contents { Describes contents (classes_of para.now) }
    requires room { length para.now ≤ found.old.room }
    ensures level { level_of_para result ≡ para_level_of (classes_of para.now) direction }
    ensures isolates { are_flat (classes_of para.now) ≡ false → IsFilledFrom found.new.isolates (classes_of para.now) }
    ensures room { found.new.room ≡ found.old.room }
    ensures at_least { steps.old ≤ steps.new }
    ensures at_most { steps.new ≤ steps.old + length para.now }
    ensures if_uniform { are_flat (classes_of para.now) ≡ true → steps.new ≡ steps.old }
{
    if contents.is_flat() {
        return level_under(direction, contents.side());
    }
    found.isolates.fill(para, steps);
    para_level(para, &found.isolates, direction, steps)
}

/// X1 to X9, BD13, X10: Finds the sequences of a paragraph with these contents and this level. If the paragraph is
/// flat, all positions that remain are one sequence. Otherwise its explicit levels are found first.
pub fn find_sequences<L: Ledger>(
    para: &[Unit],
    contents: Contents,
    level: ParaLevel,
    limits: Limits,
    found: &mut RoomToFind,
    steps: &mut Steps<L>,
)
    requires contents { Describes contents (classes_of para.now) }
    requires separators { SeparatorOnlyLast para.now }
    requires isolates { are_flat (classes_of para.now) ≡ false
        → IsFilledFrom found.old.isolates (classes_of para.now) }
    requires room { length para.now ≤ found.old.room }
    ensures levels { are_flat (classes_of para.now) ≡ false
        → HoldsLevels found.new.explicit limits.depth (classes_of para.now) (level_of_para level) }
    ensures all { found.new.sequences
        ≡ sequences_of (leveled_of limits.depth (classes_of para.now) (level_of_para level)) }
    ensures apart { AreDisjoint (length para.now) found.new.sequences }
    ensures some { HavePositions found.new.sequences }
    ensures room { found.new.room ≡ found.old.room }
    ensures at_least { steps.old ≤ steps.new }
    ensures at_most { steps.new ≤ steps.old + x_rules_steps * length para.now + 1 }
    ensures if_flat { are_flat (classes_of para.now) ≡ true → steps.new ≤ steps.old + 2 * length para.now }
{
    if contents.is_flat() {
        found
            .sequences
            .fill_flat(para, contents.all_remain(), level, steps);
        return;
    }
    let isolates = &found.isolates;
    explicit_levels(para, isolates, level, limits, &mut found.explicit, steps);
    found
        .sequences
        .fill(para, isolates, &found.explicit, level, steps);
}

/// X9: Returns this level, or `None` if the class is removed. If `all_remain`, no class of the paragraph is removed.
pub fn level_unless_removed_at(all_remain: bool, level: Level, class: Class) -> Option<Level>
    requires { all_remain ≡ true → is_removed class ≡ false }
    ensures { result ≡ level_unless_removed_at level class }
{
    if !all_remain && class.is_removed() {
        None
    } else {
        Some(level)
    }
}

/// X9: Returns whether one of the four units from `p` on is removed.
fn removes_one(para: &[Unit], p: usize) -> bool
    requires { p + 4 ≤ length para.now }
    ensures { result ≡ list_any is_removed (classes_at_four para.now p) }
{
    let one = ClassSet::none().with(para[p].class);
    let two = one.with(para[p + 1].class);
    let three = two.with(para[p + 2].class);
    has_removed(three.with(para[p + 3].class))
}

/// X9: Writes the level of one position more: this one, or none if its unit is removed. If `remains`, it isn't.
fn write_level_at(
    para: &[Unit],
    p: usize,
    remains: bool,
    level: Level,
    levels: &mut [Option<Level>],
)
    requires inside { p < length para.now }
    requires len { length levels.old ≡ length para.now }
    requires remains { remains ≡ true → is_removed (slice_index_or para.now p no_unit).class ≡ false }
    requires before { HasLevelsBefore p level para.now levels.old }
    ensures len { length levels.new ≡ length para.now }
    ensures levels { HasLevelsBefore (p + 1) level para.now levels.new }
{
    levels[p] = level_unless_removed_at(remains, level, para[p].class);
}

/// Writes the levels of the four positions from `p` on, as `write_level` does.
fn write_four(para: &[Unit], p: usize, level: Level, levels: &mut [Option<Level>])
    requires within { p + 4 ≤ length para.now }
    requires len { length levels.old ≡ length para.now }
    requires before { HasLevelsBefore p level para.now levels.old }
    ensures len { length levels.new ≡ length para.now }
    ensures levels { HasLevelsBefore (p + 4) level para.now levels.new }
{
    let remain = !removes_one(para, p);
    write_level_at(para, p, remain, level, levels);
    write_level_at(para, p + 1, remain, level, levels);
    write_level_at(para, p + 2, remain, level, levels);
    write_level_at(para, p + 3, remain, level, levels);
}

/// How many positions get their levels together.
const BLOCK: usize = 4;

/// Writes this level for the positions that remain (X9), and `None` for the others, four at a time as long as there are
/// four, with a step for each. Returns how many positions are written.
fn write_fours<L: Ledger>(
    para: &[Unit],
    level: Level,
    levels: &mut [Option<Level>],
    steps: &mut Steps<L>,
) -> usize
    requires { length levels.old ≡ length para.now }
    ensures len { length levels.new ≡ length para.now }
    ensures levels { HasLevelsBefore result level para.now levels.new }
    ensures within { result ≤ length para.now }
    ensures steps { steps.new ≡ steps.old + result }
{
    let mut p = 0;
    while para.len() - p >= BLOCK {
        steps.add(BLOCK);
        write_four(para, p, level, levels);
        p += BLOCK;
    }
    p
}

/// Does what `write_level` does, for a paragraph from which X9 may remove units.
// Inlined, paragraphs from which X9 removes none take more instructions.
#[inline(never)]
fn write_remaining<L: Ledger>(
    para: &[Unit],
    level: Level,
    levels: &mut [Option<Level>],
    steps: &mut Steps<L>,
)
    requires { length levels.old ≡ length para.now }
    ensures levels { levels.new ≡ map (λ unit. level_unless_removed_at level unit.class) para.now }
    ensures steps { steps.new ≡ steps.old + length levels.old }
{
    let start = write_fours(para, level, levels, steps);
    for p in start..para.len() {
        steps.tick();
        write_level_at(para, p, false, level, levels);
    }
}

/// Does what `write_level` does, for a paragraph from which X9 removes no unit.
fn write_all<L: Ledger>(
    para: &[Unit],
    level: Level,
    levels: &mut [Option<Level>],
    steps: &mut Steps<L>,
)
    requires remain { HasNone is_removed (classes_of para.now) }
    requires levels { length levels.old ≡ length para.now }
    ensures levels { levels.new ≡ map (λ unit. level_unless_removed_at level unit.class) para.now }
    ensures steps { steps.new ≡ steps.old + length levels.old }
{
    for p in 0..para.len() {
        steps.tick();
        write_level_at(para, p, true, level, levels);
    }
}

/// Writes this level for the positions that remain (X9), and `None` for the others, with a step for each.
pub fn write_level<L: Ledger>(
    para: &[Unit],
    contents: Contents,
    level: Level,
    levels: &mut [Option<Level>],
    steps: &mut Steps<L>,
)
    requires contents { Describes contents (classes_of para.now) }
    requires levels { length levels.old ≡ length para.now }
    ensures levels { levels.new ≡ map (λ unit. level_unless_removed_at level unit.class) para.now }
    ensures steps { steps.new ≡ steps.old + length levels.old }
{
    if contents.all_remain() {
        write_all(para, level, levels, steps);
    } else {
        write_remaining(para, level, levels, steps);
    }
}
