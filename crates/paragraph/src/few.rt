//! A long flat paragraph by few of its units, which are resolved in its place (X1 to I2).
ghost use Rattle.std.specs.Prelude.{◌≡◌, ◌+◌, ◌*◌, ◌<◌, ◌≤◌, ◌^◌, IfOk, false, length, true};
ghost use Rattle.std.specs.Box.{boxed_slice_len};
ghost use Rattle.units.specs.Classes.{classes_of};
ghost use Rattle.units.specs.Isolates.{level_of_para};
ghost use Rattle.units.specs.Layout.{resolved_levels};
ghost use Rattle.paragraph.specs.Contents.{Describes, are_flat};
ghost use Rattle.paragraph.specs.Resolvers.{few_room};
ghost use Rattle.paragraph.specs.StepBounds.{w_to_i_steps, x_rules_steps};

use crate::contents::{Contents, FirstParagraph};
use crate::found::{KnownParagraph, resolve_sequences};
use crate::rooms::{RoomToFind, RoomToResolve};
use compress::levels::{FlatPara, spread};
use compress::pass::{Few, TurnLimit, append_rest, squeeze};
use std::alloc::Global;
use std::boxed::BoxedSlice;
use std::sync::ledger::Ledger;
use units::bracket::{Bracket, Unit};
use units::class::Class;
use units::level::{Level, ParaLevel};
use units::memory::Memory;
use units::steps::Steps;

/// The least number of units of a paragraph that is resolved by few of them, if X9 removes some. In a shorter one, the
/// search for these costs more than it saves.
const LEAST: usize = 128;

/// The same if all units remain.
const LEAST_REMAINING: usize = 256;

/// The same if there are letters of both directions, so that the direction may change often.
const LEAST_MIXED: usize = 512;

/// Returns whether a paragraph of `n` units with these contents may be resolved by few of them in less time. Letters of
/// both directions without a class that W1 to W7 can change take so few instructions that the search saves none.
fn may_save(contents: Contents, n: usize) -> bool {
    if contents.is_mixed() {
        return n >= LEAST_MIXED && contents.has_weak();
    }
    n >= LEAST && (n >= LEAST_REMAINING || !contents.all_remain())
}

/// Returns how long the search for few units goes on: longer in paragraphs that take more without it.
fn limit_for(contents: Contents) -> TurnLimit {
    if contents.all_remain() {
        TurnLimit::Strict
    } else {
        TurnLimit::Lenient
    }
}

/// Makes a column for the few units of paragraphs of up to `n` positions, of which the last may be all that follow a
/// position, and for the positions at which the others begin: one in six positions at most.
pub fn few_column(alloc: Global, n: usize) -> Result<BoxedSlice<Unit>, Memory>
    ensures { IfOk result (λ few. boxed_slice_len few ≡ few_room n) }
{
    let unused = Unit {
        class: Class::BN,
        bracket: Bracket::No,
    };
    let len = n.checked_add(n.div_ceil(6)).ok_or(Memory)?;
    Ok(vec![in alloc; unused; len]?.into_boxed_slice())
}

/// Applies X1 to I2 to a flat paragraph of this level.
fn resolve_flat<L: Ledger>(
    para: &KnownParagraph,
    level: ParaLevel,
    found: &mut RoomToFind,
    work: &mut RoomToResolve,
    levels: &mut [Option<Level>],
    steps: &mut Steps<L>,
)
    requires contents { Describes para.now.contents (classes_of para.now.units.now) }
    requires flat { are_flat (classes_of para.now.units.now) ≡ true }
    requires found { length para.now.units.now ≤ found.old.room }
    requires work { length para.now.units.now ≤ work.old.room }
    requires levels { length levels.old ≡ length para.now.units.now }
    ensures levels { levels.new ≡ resolved_levels para.now.limits para.now.units.now (level_of_para level) }
    ensures found { found.new.room ≡ found.old.room }
    ensures work { work.new.room ≡ work.old.room }
    ensures at_least { steps.old ≤ steps.new }
    ensures at_most { steps.new ≤ steps.old + 2 * length para.now.units.now
        + w_to_i_steps * length para.now.units.now }
{
    found
        .sequences
        .fill_flat(para.units, para.contents.all_remain(), level, steps);
    resolve_sequences(para, found, work, levels, steps);
}

/// Returns whether so many fewer units are resolved that it takes less time, although the others are copied: a chosen
/// unit takes what three others take, and to resolve a unit takes six times what it takes to copy it.
fn saves(few: Few, n: usize) -> bool
    requires { few.chosen ≤ few.end }
    ensures half { result ≡ true → few.chosen + few.chosen ≤ few.end }
{
    let others = few.end - few.chosen;
    let saved = others.saturating_sub(few.chosen).saturating_sub(few.chosen);
    saved >= n / 6 && others >= few.chosen
}

/// Applies X1 to I2 to a flat paragraph of this level by few of its units: resolves these as a paragraph of their own,
/// and gives their levels to the units after them. Where the search for few units ended, all units from there on are
/// among them. Returns whether it did so; it didn't if the units aren't few.
#[inline(never)]
fn resolve_by_few<L: Ledger>(
    para: &KnownParagraph,
    level: ParaLevel,
    column: &mut [Unit],
    found: &mut RoomToFind,
    work: &mut RoomToResolve,
    levels: &mut [Option<Level>],
    steps: &mut Steps<L>,
) -> bool
    requires contents { Describes para.now.contents (classes_of para.now.units.now) }
    requires flat { are_flat (classes_of para.now.units.now) ≡ true }
    requires short { length para.now.units.now < 2 ^ 32 }
    requires found { length para.now.units.now ≤ found.old.room }
    requires work { length para.now.units.now ≤ work.old.room }
    requires levels { length levels.old ≡ length para.now.units.now }
    ensures levels { result ≡ true
        → levels.new ≡ resolved_levels para.now.limits para.now.units.now (level_of_para level) }
    ensures found { found.new.room ≡ found.old.room }
    ensures work { work.new.room ≡ work.old.room }
    ensures at_least { result ≡ true → steps.old + length para.now.units.now ≤ steps.new }
    ensures at_most { steps.new ≤ steps.old + x_rules_steps * length para.now.units.now
        + w_to_i_steps * length para.now.units.now }
    ensures if_many { result ≡ false → steps.old ≤ steps.new }
    ensures if_many_at_most { result ≡ false → steps.new ≤ steps.old + 2 * length para.now.units.now }
{
    let n = para.units.len();
    let (chosen, starts) = column.split_at_mut(n.min(column.len()));
    let direction = level.level().direction();
    let limit = limit_for(para.contents);
    let few = squeeze(para.units, direction, limit, chosen, starts, steps);
    if !saves(few, n) {
        return false;
    }
    let Some(count) = append_rest(chosen, few.chosen, &para.units[few.end..], steps) else {
        return false;
    };
    let units = &chosen[..count];
    let paragraph = FirstParagraph::of(units, steps);
    if paragraph.length < count || !paragraph.contents.is_flat() {
        return false;
    }
    let few_para = KnownParagraph {
        units,
        contents: paragraph.contents,
        limits: para.limits,
    };
    let first = few.end - few.chosen;
    resolve_flat(&few_para, level, found, work, &mut levels[first..], steps);
    let flat = FlatPara {
        units: para.units,
        all_remain: para.contents.all_remain(),
    };
    spread(&flat, starts, few, levels, steps);
    true
}

/// Applies X1 to I2 to a paragraph of this level by few of its units, if it is long and flat and if they are few.
/// Returns whether it did so.
#[inline(always)]
pub fn resolve_if_few<L: Ledger>(
    para: &KnownParagraph,
    level: ParaLevel,
    few: &mut [Unit],
    found: &mut RoomToFind,
    work: &mut RoomToResolve,
    levels: &mut [Option<Level>],
    steps: &mut Steps<L>,
) -> bool
    requires contents { Describes para.now.contents (classes_of para.now.units.now) }
    requires found { length para.now.units.now ≤ found.old.room }
    requires work { length para.now.units.now ≤ work.old.room }
    requires levels { length levels.old ≡ length para.now.units.now }
    ensures levels { result ≡ true
        → levels.new ≡ resolved_levels para.now.limits para.now.units.now (level_of_para level) }
    ensures if_deep { are_flat (classes_of para.now.units.now) ≡ false → found.new ≡ found.old }
    ensures found { found.new.room ≡ found.old.room }
    ensures work { work.new.room ≡ work.old.room }
    ensures at_least { result ≡ true → steps.old + length para.now.units.now ≤ steps.new }
    ensures at_most { steps.new ≤ steps.old + x_rules_steps * length para.now.units.now
        + w_to_i_steps * length para.now.units.now }
    ensures if_many { result ≡ false → steps.old ≤ steps.new }
    ensures if_many_at_most { result ≡ false → steps.new ≤ steps.old + 2 * length para.now.units.now }
    ensures if_deep_steps { are_flat (classes_of para.now.units.now) ≡ false → steps.new ≡ steps.old }
{
    let n = para.units.len();
    if !may_save(para.contents, n) || n > u32::MAX as usize || !para.contents.is_flat() {
        return false;
    }
    resolve_by_few(para, level, few, found, work, levels, steps)
}
