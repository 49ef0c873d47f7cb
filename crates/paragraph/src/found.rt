//! W1 to I2 over a paragraph whose sequences are known.
ghost use Rattle.std.specs.Prelude.{◌≡◌, ◌↔◌, IsTrue, false, true, ◌+◌, ◌-◌, ◌*◌, ◌<◌, ◌≤◌, ℕ, None, List, drop, length, slice_index_or, take};
ghost use Rattle.std.specs.List.{list_any};
ghost use Rattle.std.specs.Option.{option_map_or};
ghost use Rattle.units.specs.Brackets.{is_open};
ghost use Rattle.units.specs.Classes.{classes_at, classes_of};
ghost use Rattle.explicit.specs.FlatTheorems.{IsUniformSequence};
ghost use Rattle.units.specs.declared.bracket.Unit.{Unit as BidiUnit};
ghost use Rattle.units.specs.declared.class.Class.TheVariants.{BN};
ghost use Rattle.paragraph.specs.Contents.{Describes, are_flat};
ghost use Rattle.paragraph.specs.Covering.{AreDisjoint, HasLevelsBy, HavePositions, classes_before, positions_in};
ghost use Rattle.paragraph.specs.StepBounds.{sequences_steps, w_to_i_steps};
ghost use Rattle.resolve.specs.Raised.{resolved_at};
ghost use Rattle.resolve.specs.Resolved.{HasLevels, KeepsOtherLevels};
ghost use Rattle.resolve.specs.Wanted.{AreOwn, IsWantedIn};

use crate::contents::Contents;
use crate::rooms::{RoomToFind, RoomToResolve};
use explicit::leveled_class::LeveledClass;
use resolve::pairs::Pairs;
use resolve::sequence::{Unresolved, Wanted, resolve_sequence};
use resolve::uniform::{give_level, is_uniform, may_be_uniform};
use sequences::sequence::Sequence;
use sequences::sequences::Sequences;
use std::sync::ledger::Ledger;
use units::bracket::{Bracket, Unit};
use units::class::Class;
use units::level::Level;
use units::limits::Limits;
use units::steps::Steps;

/// X1 to X8: Returns the class of a position before W1: its own if the paragraph is `flat`, else its current one from
/// `explicit`, which is BN if X9 removes the position.
fn class_before(flat: bool, unit: Unit, explicit: &[LeveledClass], p: usize) -> Class
    requires { p < length explicit.now }
    ensures flat { flat ≡ true → result ≡ unit.class }
    ensures found { flat ≡ false → result ≡ option_map_or (λ x. x.1) (slice_index_or explicit.now p None) BN }
{
    if flat {
        return unit.class;
    }
    explicit[p].class()
}

/// BD14: Returns whether the bracket is an opening one.
fn is_open(bracket: Bracket) -> bool
    ensures { result ≡ is_open bracket }
{
    matches!(bracket, Bracket::Open(_))
}

/// X1 to X8: Writes the classes before W1 to the fronts of both columns, and no levels. The classes are the own ones of
/// a `flat` paragraph, else those of `explicit`. Returns whether the paragraph has an opening bracket. Each position is
/// a step, which counts for its copy too.
// Inlined, a position takes 11 instructions in place of 3: the compiler then knows both columns as parts of one, and
// passes one position at a time.
#[inline(never)]
fn write_classes<L: Ledger>(
    para: &[Unit],
    flat: bool,
    explicit: &[LeveledClass],
    before: &mut [Class],
    classes: &mut [Class],
    levels: &mut [Option<Level>],
    steps: &mut Steps<L>,
) -> bool
    requires explicit { length para.now ≤ length explicit.now }
    requires before { length para.now ≤ length before.old }
    requires classes { length para.now ≤ length classes.old }
    requires levels { length levels.old ≡ length para.now }
    ensures opened { result ≡ list_any (λ unit. is_open unit.bracket) para.now }
    ensures before { take (length para.now) before.new ≡ classes_before flat para.now explicit.now }
    ensures copy { take (length para.now) classes.new ≡ take (length para.now) before.new }
    ensures none { (p : ℕ) → resolved_at levels.new p ≡ None }
    ensures steps { steps.new ≡ steps.old + length para.now }
{
    let mut opened = false;
    for p in 0..para.len() {
        steps.tick();
        let unit = para[p];
        opened = opened | is_open(unit.bracket);
        let class = class_before(flat, unit, explicit, p);
        before[p] = class;
        classes[p] = class;
        levels[p] = None;
    }
    opened
}

/// X1 to X8: Does what `write_classes` does, for the columns of a room.
fn begin<L: Ledger>(
    para: &[Unit],
    flat: bool,
    found: &RoomToFind,
    work: &mut RoomToResolve,
    levels: &mut [Option<Level>],
    steps: &mut Steps<L>,
) -> bool
    requires found { length para.now ≤ found.now.room }
    requires room { length para.now ≤ work.old.room }
    requires levels { length levels.old ≡ length para.now }
    ensures opened { result ≡ list_any (λ unit. is_open unit.bracket) para.now }
    ensures before { take (length para.now) work.new.before ≡ classes_before flat para.now found.now.explicit }
    ensures copy { take (length para.now) work.new.classes ≡ take (length para.now) work.new.before }
    ensures room { work.new.room ≡ work.old.room }
    ensures none { (p : ℕ) → resolved_at levels.new p ≡ None }
    ensures steps { steps.new ≡ steps.old + length para.now }
{
    let explicit = found.explicit.column();
    let room = work.classes.len() / 2;
    let (before, classes) = work.classes.split_at_mut(room);
    write_classes(para, flat, explicit, before, classes, levels, steps)
}

/// Gives the positions of a sequence its level, if its classes before W1, which are in `classes`, show that it keeps
/// this level (W1 to I2). Returns whether it did so.
// If it is inlined, W1 to I2 take more instructions.
#[inline(never)]
fn give_level_if_uniform<L: Ledger>(
    s: &Sequence,
    classes: &[Class],
    levels: &mut [Option<Level>],
    steps: &mut Steps<L>,
) -> bool
    requires classes { length classes.now ≡ s.now.extent }
    requires levels { length levels.old ≡ s.now.extent }
    ensures uniform { IsTrue result ↔ IsUniformSequence s.now (classes_at classes.now s.now.positions) }
    ensures levels { result ≡ true → (most_open : ℕ) (us : List BidiUnit)
        → HasLevels most_open s.now us classes.now levels.new }
    ensures others { KeepsOtherLevels s.now.positions levels.old levels.new }
    ensures if_not { result ≡ false → levels.new ≡ levels.old }
    ensures at_least { steps.old ≤ steps.new }
    ensures at_most { steps.new ≤ steps.old + 2 * length s.now.positions }
    ensures if_not_at_most { result ≡ false → steps.new ≤ steps.old + (length s.now.positions - 1) }
{
    if !is_uniform(s, classes, steps) {
        return false;
    }
    give_level(s, levels, steps);
    true
}

/// Does what `give_level_if_uniform` does, but tests sos and the first and last class without a call.
#[inline(always)]
fn resolve_if_uniform<L: Ledger>(
    s: &Sequence,
    classes: &[Class],
    levels: &mut [Option<Level>],
    steps: &mut Steps<L>,
) -> bool
    requires classes { length classes.now ≡ s.now.extent }
    requires some { 0 < length s.now.positions }
    requires levels { length levels.old ≡ s.now.extent }
    ensures uniform { IsTrue result ↔ IsUniformSequence s.now (classes_at classes.now s.now.positions) }
    ensures levels { result ≡ true → (most_open : ℕ) (us : List BidiUnit)
        → HasLevels most_open s.now us classes.now levels.new }
    ensures others { KeepsOtherLevels s.now.positions levels.old levels.new }
    ensures if_not { result ≡ false → levels.new ≡ levels.old }
    ensures at_least { steps.old ≤ steps.new }
    ensures at_most { steps.new ≤ steps.old + 2 * length s.now.positions }
    ensures if_not_at_most { result ≡ false → steps.new ≤ steps.old + (length s.now.positions - 1) }
{
    if !may_be_uniform(s, classes) {
        return false;
    }
    give_level_if_uniform(s, classes, levels, steps)
}

/// Applies W1 to I2 to all sequences of a paragraph, in their order; those that keep their level get it at once. The
/// front of `classes` is a copy of the paragraph's classes before W1 to work on, and `levels` has no levels yet.
// If it is inlined, its passes take more instructions.
#[inline(never)]
fn resolve_each<L: Ledger>(
    sequences: &Sequences,
    para: &Unresolved,
    pairs: &mut Pairs,
    classes: &mut [Class],
    levels: &mut [Option<Level>],
    steps: &mut Steps<L>,
)
    requires apart { AreDisjoint (length para.now.units.now) sequences.now.all }
    requires some { HavePositions sequences.now.all }
    requires wanted { IsWantedIn para.now.wanted para.now.units.now }
    requires own { AreOwn (positions_in sequences.now.all) para.now.units.now para.now.before.now }
    requires before { length para.now.before.now ≡ length para.now.units.now }
    requires classes { length para.now.units.now ≤ length classes.old }
    requires copy { take (length para.now.units.now) classes.old ≡ para.now.before.now }
    requires levels { length levels.old ≡ length para.now.units.now }
    requires fresh { (p : ℕ) → resolved_at levels.old p ≡ None }
    requires room { length para.now.units.now ≤ length pairs.old }
    ensures levels { HasLevelsBy para.now.limits.brackets para.now.units.now para.now.before.now
        sequences.now.all levels.new }
    ensures room { length pairs.new ≡ length pairs.old }
    ensures at_least { steps.old + length sequences.now.all ≤ steps.new }
    ensures at_most { steps.new ≤ steps.old + sequences_steps * length para.now.units.now }
{
    let classes = &mut classes[..para.units.len()];
    for k in 0..sequences.count() {
        steps.tick();
        let sequence = sequences.get(k);
        if resolve_if_uniform(&sequence, classes, levels, steps) {
            continue;
        }
        resolve_sequence(&sequence, para, pairs, classes, levels, steps);
    }
}

/// Applies W1 to I2 to the only sequence of a paragraph, as `resolve_each` does to several. Doesn't test whether it
/// keeps its level, since the contents of the paragraph mostly showed before that it doesn't.
// If it is inlined, its passes take more instructions.
#[inline(never)]
fn resolve_only<L: Ledger>(
    sequences: &Sequences,
    para: &Unresolved,
    pairs: &mut Pairs,
    classes: &mut [Class],
    levels: &mut [Option<Level>],
    steps: &mut Steps<L>,
)
    requires apart { AreDisjoint (length para.now.units.now) sequences.now.all }
    requires one { length sequences.now.all ≡ 1 }
    requires wanted { IsWantedIn para.now.wanted para.now.units.now }
    requires own { AreOwn (positions_in sequences.now.all) para.now.units.now para.now.before.now }
    requires before { length para.now.before.now ≡ length para.now.units.now }
    requires classes { length para.now.units.now ≤ length classes.old }
    requires copy { take (length para.now.units.now) classes.old ≡ para.now.before.now }
    requires levels { length levels.old ≡ length para.now.units.now }
    requires fresh { (p : ℕ) → resolved_at levels.old p ≡ None }
    requires room { length para.now.units.now ≤ length pairs.old }
    ensures levels { HasLevelsBy para.now.limits.brackets para.now.units.now para.now.before.now
        sequences.now.all levels.new }
    ensures room { length pairs.new ≡ length pairs.old }
    ensures at_least { steps.old + length sequences.now.all ≤ steps.new }
    ensures at_most { steps.new ≤ steps.old + sequences_steps * length para.now.units.now }
{
    let classes = &mut classes[..para.units.len()];
    steps.tick();
    let sequence = sequences.get(0);
    resolve_sequence(&sequence, para, pairs, classes, levels, steps);
}

/// A paragraph whose contents are known.
#[derive(Clone, Copy)]
pub struct KnownParagraph<'a> {
    /// Its units.
    pub units: &'a [Unit],

    /// Its contents.
    pub contents: Contents,

    /// How many brackets can be open (BD16).
    pub limits: Limits,
}

/// Applies W1 to I2 to the sequences of a paragraph, which has an opening bracket if `openings`. The front of `columns`
/// has its classes before W1, and the front of its second half a copy of these to work on.
#[inline(always)]
fn resolve_begun<L: Ledger>(
    sequences: &Sequences,
    para: &KnownParagraph,
    openings: bool,
    pairs: &mut Pairs,
    columns: &mut [Class],
    levels: &mut [Option<Level>],
    steps: &mut Steps<L>,
)
    requires contents { Describes para.now.contents (classes_of para.now.units.now) }
    requires openings { openings ≡ list_any (λ unit. is_open unit.bracket) para.now.units.now }
    requires apart { AreDisjoint (length para.now.units.now) sequences.now.all }
    requires some { HavePositions sequences.now.all }
    requires own { AreOwn (positions_in sequences.now.all) para.now.units.now
        (take (length para.now.units.now) columns.old) }
    requires columns { length columns.old ≡ length pairs.old + length pairs.old }
    requires copy { take (length para.now.units.now) (drop (length pairs.old) columns.old)
        ≡ take (length para.now.units.now) columns.old }
    requires levels { length levels.old ≡ length para.now.units.now }
    requires fresh { (p : ℕ) → resolved_at levels.old p ≡ None }
    requires room { length para.now.units.now ≤ length pairs.old }
    ensures levels { HasLevelsBy para.now.limits.brackets para.now.units.now
        (take (length para.now.units.now) columns.old) sequences.now.all levels.new }
    ensures room { length pairs.new ≡ length pairs.old }
    ensures at_least { steps.old + length sequences.now.all ≤ steps.new }
    ensures at_most { steps.new ≤ steps.old + sequences_steps * length para.now.units.now }
{
    let room = columns.len() / 2;
    let (before, classes) = columns.split_at_mut(room);
    let unresolved = Unresolved {
        units: para.units,
        before: &before[..para.units.len()],
        wanted: Wanted {
            weak: para.contents.has_weak(),
            openings,
        },
        limits: para.limits,
    };
    if sequences.count() == 1 {
        resolve_only(sequences, &unresolved, pairs, classes, levels, steps);
    } else {
        resolve_each(sequences, &unresolved, pairs, classes, levels, steps);
    }
}

/// Applies W1 to I2 to a paragraph whose sequences are in `found`.
pub fn resolve_sequences<L: Ledger>(
    para: &KnownParagraph,
    found: &RoomToFind,
    work: &mut RoomToResolve,
    levels: &mut [Option<Level>],
    steps: &mut Steps<L>,
)
    requires contents { Describes para.now.contents (classes_of para.now.units.now) }
    requires found { length para.now.units.now ≤ found.now.room }
    requires apart { AreDisjoint (length para.now.units.now) found.now.sequences }
    requires some { HavePositions found.now.sequences }
    requires own { AreOwn (positions_in found.now.sequences) para.now.units.now
        (classes_before (are_flat (classes_of para.now.units.now)) para.now.units.now found.now.explicit) }
    requires room { length para.now.units.now ≤ work.old.room }
    requires levels { length levels.old ≡ length para.now.units.now }
    ensures levels { HasLevelsBy para.now.limits.brackets para.now.units.now
        (classes_before (are_flat (classes_of para.now.units.now)) para.now.units.now found.now.explicit)
        found.now.sequences levels.new }
    ensures room { work.new.room ≡ work.old.room }
    ensures at_least { steps.old + length para.now.units.now ≤ steps.new }
    ensures at_most { steps.new ≤ steps.old + w_to_i_steps * length para.now.units.now }
{
    let flat = para.contents.is_flat();
    let openings = begin(para.units, flat, found, work, levels, steps);
    resolve_begun(
        &found.sequences,
        para,
        openings,
        &mut work.pairs,
        &mut work.classes,
        levels,
        steps,
    );
}
