//! The pass that compresses a flat paragraph.
ghost use Rattle.std.specs.Prelude.{suc, ◌&&◌, ◌||◌, ◌≡◌, ℕ, ◌+◌, ◌<◌, ◌≤◌, ◌^◌, true, false, List, ◌++◌, IfSome, IsNone, length, take, drop, slice_index_or, if◌then◌else◌};
ghost use Rattle.units.specs.Classes.{is_removed, is_strong};
ghost use Rattle.units.specs.Layout.{no_unit};
ghost use Rattle.units.specs.declared.bracket.Unit.{Unit as BidiUnit};
ghost use Rattle.units.specs.declared.class.Class.{Class as BidiClass};
ghost use Rattle.compress.specs.Laid.{start_of, stack_of, class_after, BecomesLetter, IsLaid, IsNextAt, IsApart, IsStateAt, LeadsOn, AreFew, AreUnchangedFrom};
ghost use Rattle.compress.specs.PassedSets.{has};
ghost use Rattle.compress.specs.Remaining.{remaining_units};
ghost use Rattle.compress.specs.Squeeze.{Stack, is_bare, is_open_letter, passes_after, popped, added, next_for, turned, first_unit, known_after};

use crate::passed_set::PassedSet;
use crate::rules::{
    is_apart, is_bare, is_between, is_letter_again, is_mark, is_neutral_unit, is_terminator_unit,
    joins, needs_next, unit_for,
};
use std::sync::ledger::Ledger;
use units::bracket::{Bracket, Key, Unit};
use units::class::Class;
use units::steps::Steps;

/// Stores a position as a unit, so that one column contains both the chosen units and their positions.
fn stored(position: usize) -> Unit
    requires { position < 2 ^ 32 }
    ensures { start_of result ≡ position }
{
    Unit {
        class: Class::ON,
        bracket: Bracket::Open(Key(position as u32)),
    }
}

/// Returns the position that is stored as this unit.
pub fn start_of(stored: Unit) -> usize
    ensures { result ≡ start_of stored }
{
    match stored.bracket {
        Bracket::Open(key) => key.0 as usize,
        _ => 0,
    }
}

/// Returns how many of the first `m` remain chosen once this unit comes next.
fn popped(chosen: &[Unit], m: usize, unit: Unit) -> usize
    requires chosen { m ≤ length chosen.now }
    ensures stack { (us starts : List BidiUnit) (end : ℕ) → IsLaid us starts m end
        → stack_of us chosen.now starts result end ≡ popped (stack_of us chosen.now starts m end) unit }
    ensures laid { (us starts : List BidiUnit) (end : ℕ) → IsLaid us starts m end → IsLaid us starts result end }
    ensures within { result ≤ m }
{
    if m > 1 && is_between(chosen[m - 2], chosen[m - 1], unit) {
        m - 1
    } else {
        m
    }
}

/// Lets the unit at the position `p` join the last chosen one, or chooses it. Returns how many are chosen then.
// Inlined, most turns take more instructions.
#[inline(never)]
fn added(
    direction: Class,
    chosen: &mut [Unit],
    starts: &mut [Unit],
    m: usize,
    unit: Unit,
    p: usize,
) -> usize
    requires chosen { m < length chosen.old }
    requires starts { m < length starts.old }
    requires short { p < 2 ^ 32 }
    ensures stack { (us : List BidiUnit) (end : ℕ) → IsLaid us starts.old m p → IsNextAt us p end
        → stack_of us chosen.new starts.new result end
        ≡ added direction (stack_of us chosen.old starts.old m p) unit }
    ensures laid { (us : List BidiUnit) (end : ℕ) → IsLaid us starts.old m p → IsNextAt us p end
        → IsLaid us starts.new result end }
    ensures within { result ≤ m + 1 }
    ensures some { 0 < result }
    ensures unchanged { AreUnchangedFrom result chosen.old starts.old chosen.new starts.new }
{
    if m > 0 && joins(direction, chosen[m - 1], unit) {
        return m;
    }
    chosen[m] = unit;
    starts[m] = stored(p);
    m + 1
}

/// Returns the class at a position, or L at the end.
fn class_or_l(para: &[Unit], p: usize) -> Class
    ensures { result ≡ (first_unit (drop p para.now)).class }
{
    if p < para.len() {
        para[p].class
    } else {
        Class::L
    }
}

/// Returns the next unit, or what replaces it.
fn next_for(strong: Class, chosen: &[Unit], m: usize, unit: Unit, next: Class) -> Unit
    requires { m ≤ length chosen.now }
    ensures { (sos : BidiClass) (us starts : List BidiUnit) (end : ℕ)
        → strong ≡ (known_after sos (stack_of us chosen.now starts m end)).strong
        → result ≡ next_for sos (stack_of us chosen.now starts m end) unit next }
{
    if m == 0 {
        unit
    } else {
        unit_for(strong, chosen[m - 1], unit, next)
    }
}

/// What is known before a unit.
#[derive(Clone, Copy)]
struct Known {
    /// The embedding direction.
    direction: Class,

    /// The last strong class, or the embedding direction.
    strong: Class,
}

/// How many units are chosen after a unit, and the position from which on the next one is.
#[derive(Clone, Copy)]
struct Turned {
    m: usize,
    end: usize,
}

/// Chooses the unit at the position `p`, or what replaces it, or drops it. A separator or a number depends on the class
/// of the next unit that remains.
#[inline(never)]
fn turn_by_next<L: Ledger>(
    known: Known,
    chosen: &mut [Unit],
    starts: &mut [Unit],
    m: usize,
    para: &[Unit],
    p: usize,
    steps: &mut Steps<L>,
) -> Turned
    requires chosen { m < length chosen.old }
    requires starts { m < length starts.old }
    requires here { p < length para.now }
    requires short { length para.now < 2 ^ 32 }
    ensures later { p < result.end }
    ensures within { result.end ≤ length para.now }
    ensures removed { (q : ℕ) → p + 1 ≤ q → q < result.end
        → is_removed (slice_index_or para.now q no_unit).class ≡ true }
    ensures stack { IsStateAt known para.now chosen.old starts.old m p
        → stack_of para.now chosen.new starts.new result.m result.end
        ≡ turned known.direction known.direction (stack_of para.now chosen.old starts.old m p)
        (slice_index_or para.now p no_unit) (class_after para.now p) }
    ensures laid { IsStateAt known para.now chosen.old starts.old m p
        → IsLaid para.now starts.new result.m result.end }
    ensures more { result.m ≤ m + 1 }
    ensures some { 0 < result.m }
    ensures unchanged { AreUnchangedFrom result.m chosen.old starts.old chosen.new starts.new }
    ensures steps { steps.new + p + 1 ≡ steps.old + result.end }
{
    let end = next_remaining(para, p + 1, steps);
    let unit = next_for(known.strong, chosen, m, para[p], class_or_l(para, end));
    let count = popped(chosen, m, unit);
    let m = added(known.direction, chosen, starts, count, unit, p);
    Turned { m, end }
}

/// Lets the unit at the position `p` join the last chosen one, or chooses it. Returns how many are chosen then.
// It reads the unit by itself, so that no other turn needs a copy of it in memory.
#[inline(never)]
fn added_at(
    direction: Class,
    chosen: &mut [Unit],
    starts: &mut [Unit],
    m: usize,
    para: &[Unit],
    p: usize,
) -> usize
    requires chosen { m < length chosen.old }
    requires starts { m < length starts.old }
    requires here { p < length para.now }
    requires short { length para.now < 2 ^ 32 }
    ensures stack { (us : List BidiUnit) (end : ℕ) → IsLaid us starts.old m p → IsNextAt us p end
        → stack_of us chosen.new starts.new result end
        ≡ added direction (stack_of us chosen.old starts.old m p) (slice_index_or para.now p no_unit) }
    ensures laid { (us : List BidiUnit) (end : ℕ) → IsLaid us starts.old m p → IsNextAt us p end
        → IsLaid us starts.new result end }
    ensures within { result ≤ m + 1 }
    ensures some { 0 < result }
    ensures unchanged { AreUnchangedFrom result chosen.old starts.old chosen.new starts.new }
{
    added(direction, chosen, starts, m, para[p], p)
}

/// Chooses the letter at the position `p`. Returns how many are chosen then.
fn turn_letter(
    direction: Class,
    chosen: &mut [Unit],
    starts: &mut [Unit],
    m: usize,
    para: &[Unit],
    p: usize,
) -> usize
    requires chosen { m < length chosen.old }
    requires starts { m < length starts.old }
    requires here { p < length para.now }
    requires short { length para.now < 2 ^ 32 }
    requires letter { is_strong (slice_index_or para.now p no_unit).class ≡ true }
    ensures stack { (us : List BidiUnit) (end : ℕ) → IsLaid us starts.old m p → IsNextAt us p end
        → IsApart direction chosen.old m (slice_index_or para.now p no_unit)
        → stack_of us chosen.new starts.new result end
        ≡ added direction (popped (stack_of us chosen.old starts.old m p) (slice_index_or para.now p no_unit))
        (slice_index_or para.now p no_unit) }
    ensures laid { (us : List BidiUnit) (end : ℕ) → IsLaid us starts.old m p → IsNextAt us p end
        → IsLaid us starts.new result end }
    ensures within { result ≤ m + 1 }
    ensures some { 0 < result }
    ensures unchanged { AreUnchangedFrom result chosen.old starts.old chosen.new starts.new }
{
    let count = popped(chosen, m, para[p]);
    if count < m {
        return added_at(direction, chosen, starts, count, para, p);
    }
    chosen[m] = para[p];
    starts[m] = stored(p);
    m + 1
}

/// Chooses the unit at the position `p`, which is no letter and which nothing replaces, or drops it. Returns how many
/// are chosen then.
fn turn_other(
    direction: Class,
    chosen: &mut [Unit],
    starts: &mut [Unit],
    m: usize,
    para: &[Unit],
    p: usize,
) -> usize
    requires chosen { m < length chosen.old }
    requires starts { m < length starts.old }
    requires here { p < length para.now }
    requires short { length para.now < 2 ^ 32 }
    requires other { is_strong (slice_index_or para.now p no_unit).class ≡ false }
    ensures stack { (us : List BidiUnit) (end : ℕ) → IsLaid us starts.old m p → IsNextAt us p end
        → IsApart direction chosen.old m (slice_index_or para.now p no_unit)
        → stack_of us chosen.new starts.new result end
        ≡ added direction (popped (stack_of us chosen.old starts.old m p) (slice_index_or para.now p no_unit))
        (slice_index_or para.now p no_unit) }
    ensures laid { (us : List BidiUnit) (end : ℕ) → IsLaid us starts.old m p → IsNextAt us p end
        → IsLaid us starts.new result end }
    ensures within { result ≤ m + 1 }
    ensures some { 0 < result }
    ensures unchanged { AreUnchangedFrom result chosen.old starts.old chosen.new starts.new }
{
    if is_mark(para[p].class) {
        return added_at(direction, chosen, starts, m, para, p);
    }
    chosen[m] = para[p];
    starts[m] = stored(p);
    m + 1
}

/// What is known after a turn: how many units are chosen, the last strong class, and the position from which on the
/// next unit is.
#[derive(Clone, Copy)]
struct AfterTurn {
    m: usize,
    strong: Class,
    end: usize,
}

/// Chooses the unit at the position `p`, or what replaces it, or drops it.
fn turn<L: Ledger>(
    known: Known,
    chosen: &mut [Unit],
    starts: &mut [Unit],
    m: usize,
    para: &[Unit],
    p: usize,
    steps: &mut Steps<L>,
) -> AfterTurn
    requires chosen { m < length chosen.old }
    requires starts { m < length starts.old }
    requires here { p < length para.now }
    requires short { length para.now < 2 ^ 32 }
    ensures later { p < result.end }
    ensures within { result.end ≤ length para.now }
    ensures removed { (q : ℕ) → p + 1 ≤ q → q < result.end
        → is_removed (slice_index_or para.now q no_unit).class ≡ true }
    ensures stack { IsStateAt known para.now chosen.old starts.old m p
        → stack_of para.now chosen.new starts.new result.m result.end
        ≡ turned known.direction known.direction (stack_of para.now chosen.old starts.old m p)
        (slice_index_or para.now p no_unit) (class_after para.now p) }
    ensures laid { IsStateAt known para.now chosen.old starts.old m p
        → IsLaid para.now starts.new result.m result.end }
    ensures strong { result.strong
        ≡ (if is_strong (slice_index_or para.now p no_unit).class then (slice_index_or para.now p no_unit).class
        else known.strong) }
    ensures more { result.m ≤ m + 1 }
    ensures some { 0 < result.m }
    ensures unchanged { AreUnchangedFrom result.m chosen.old starts.old chosen.new starts.new }
    ensures steps { steps.new + p + 1 ≡ steps.old + result.end }
{
    let class = para[p].class;
    if class.is_strong() {
        let m = turn_letter(known.direction, chosen, starts, m, para, p);
        return AfterTurn {
            m,
            strong: class,
            end: p + 1,
        };
    }
    if needs_next(known.strong, class) {
        let turned = turn_by_next(known, chosen, starts, m, para, p, steps);
        return AfterTurn {
            m: turned.m,
            strong: known.strong,
            end: turned.end,
        };
    }
    let m = turn_other(known.direction, chosen, starts, m, para, p);
    AfterTurn {
        m,
        strong: known.strong,
        end: p + 1,
    }
}

/// Returns the classes that are passed after a chosen unit.
fn passed_after(direction: Class, unit: Unit) -> PassedSet
    ensures { (next : BidiClass) → has result next ≡ passes_after direction unit next }
{
    if is_bare(unit.bracket) {
        PassedSet::after(direction, unit.class)
    } else {
        PassedSet::removed()
    }
}

/// X9: Returns whether a unit with a bracket is removed. If it is inlined, all units are tested.
#[inline(never)]
fn is_removed(unit: Unit) -> bool
    ensures { result ≡ is_removed unit.class }
{
    unit.class.is_removed()
}

/// Returns whether a unit is of these classes, and has no bracket unless it is removed (X9).
fn is_passed(set: PassedSet, unit: Unit) -> bool
    ensures { result ≡ (has set unit.class && (is_bare unit.bracket || is_removed unit.class)) }
{
    set.has(unit.class) && (is_bare(unit.bracket) || is_removed(unit))
}

/// How many units are passed together.
const BLOCK: usize = 4;

/// Returns whether the four units from `p` on are of these classes.
fn four_are_of(set: PassedSet, para: &[Unit], p: usize) -> bool
    requires { p + 4 ≤ length para.now }
    ensures { result ≡ true → (q : ℕ) → p ≤ q → q < p + 4
        → has set (slice_index_or para.now q no_unit).class ≡ true }
{
    set.has(para[p].class)
        & set.has(para[p + 1].class)
        & set.has(para[p + 2].class)
        & set.has(para[p + 3].class)
}

/// Returns whether the four units from `p` on have no bracket.
fn four_are_bare(para: &[Unit], p: usize) -> bool
    requires { p + 4 ≤ length para.now }
    ensures { result ≡ true → (q : ℕ) → p ≤ q → q < p + 4
        → is_bare (slice_index_or para.now q no_unit).bracket ≡ true }
{
    is_bare(para[p].bracket)
        & is_bare(para[p + 1].bracket)
        & is_bare(para[p + 2].bracket)
        & is_bare(para[p + 3].bracket)
}

/// Returns whether the four units from `p` on are of these classes and have no bracket.
fn four_pass(set: PassedSet, para: &[Unit], p: usize) -> bool
    requires { p + 4 ≤ length para.now }
    ensures classes { result ≡ true → (q : ℕ) → p ≤ q → q < p + 4
        → has set (slice_index_or para.now q no_unit).class ≡ true }
    ensures bare { result ≡ true → (q : ℕ) → p ≤ q → q < p + 4
        → is_bare (slice_index_or para.now q no_unit).bracket ≡ true }
{
    four_are_of(set, para, p) && four_are_bare(para, p)
}

/// Passes units from `start` on, four at a time, as long as these are of these classes and have no bracket. Returns the
/// position after them.
fn pass_fours<L: Ledger>(para: &[Unit], start: usize, set: PassedSet, steps: &mut Steps<L>) -> usize
    requires { start ≤ length para.now }
    ensures from_start { start ≤ result }
    ensures within { result ≤ length para.now }
    ensures passed { (p : ℕ) → start ≤ p → p < result
        → has set (slice_index_or para.now p no_unit).class ≡ true }
    ensures bare { (p : ℕ) → start ≤ p → p < result → (is_bare (slice_index_or para.now p no_unit).bracket
        || is_removed (slice_index_or para.now p no_unit).class) ≡ true }
    ensures steps { steps.new + start ≡ steps.old + result }
{
    let mut p = start;
    while para.len() - p >= 2 * BLOCK && four_pass(set, para, p) {
        if !four_pass(set, para, p + BLOCK) {
            steps.add(BLOCK);
            return p + BLOCK;
        }
        steps.add(2 * BLOCK);
        p += 2 * BLOCK;
    }
    p
}

/// Passes units from `start` on one by one, as long as they are of these classes and have no bracket. Returns the
/// position after them.
fn pass_singly<L: Ledger>(
    para: &[Unit],
    start: usize,
    set: PassedSet,
    steps: &mut Steps<L>,
) -> usize
    requires { start ≤ length para.now }
    ensures from_start { start ≤ result }
    ensures within { result ≤ length para.now }
    ensures passed { (p : ℕ) → start ≤ p → p < result
        → has set (slice_index_or para.now p no_unit).class ≡ true }
    ensures bare { (p : ℕ) → start ≤ p → p < result → (is_bare (slice_index_or para.now p no_unit).bracket
        || is_removed (slice_index_or para.now p no_unit).class) ≡ true }
    ensures stopped { result < length para.now → (has set (slice_index_or para.now result no_unit).class
        && (is_bare (slice_index_or para.now result no_unit).bracket
        || is_removed (slice_index_or para.now result no_unit).class)) ≡ false }
    ensures steps { steps.new + start ≡ steps.old + result }
{
    let mut p = start;
    while p < para.len() && is_passed(set, para[p]) {
        steps.tick();
        p += 1;
    }
    p
}

/// Passes units from `start` on, as long as they are of these classes and have no bracket, and most of them four at a
/// time. Returns the position after them.
// A function of its own, so that its loops have all registers.
#[inline(never)]
fn pass_by_fours<L: Ledger>(
    para: &[Unit],
    start: usize,
    set: PassedSet,
    steps: &mut Steps<L>,
) -> usize
    requires { start ≤ length para.now }
    ensures from_start { start ≤ result }
    ensures within { result ≤ length para.now }
    ensures passed { (p : ℕ) → start ≤ p → p < result
        → has set (slice_index_or para.now p no_unit).class ≡ true }
    ensures bare { (p : ℕ) → start ≤ p → p < result → (is_bare (slice_index_or para.now p no_unit).bracket
        || is_removed (slice_index_or para.now p no_unit).class) ≡ true }
    ensures stopped { result < length para.now → (has set (slice_index_or para.now result no_unit).class
        && (is_bare (slice_index_or para.now result no_unit).bracket
        || is_removed (slice_index_or para.now result no_unit).class)) ≡ false }
    ensures steps { steps.new + start ≡ steps.old + result }
{
    let p = pass_fours(para, start, set, steps);
    pass_singly(para, p, set, steps)
}

/// Passes units from `start` on, as long as they are of these classes and have no bracket. Returns the position after
/// them.
// The first is tested here, because many have no other after them.
#[inline(always)]
fn pass_first<L: Ledger>(para: &[Unit], start: usize, set: PassedSet, steps: &mut Steps<L>) -> usize
    requires { start ≤ length para.now }
    ensures from_start { start ≤ result }
    ensures within { result ≤ length para.now }
    ensures passed { (p : ℕ) → start ≤ p → p < result
        → has set (slice_index_or para.now p no_unit).class ≡ true }
    ensures bare { (p : ℕ) → start ≤ p → p < result → (is_bare (slice_index_or para.now p no_unit).bracket
        || is_removed (slice_index_or para.now p no_unit).class) ≡ true }
    ensures stopped { result < length para.now → (has set (slice_index_or para.now result no_unit).class
        && (is_bare (slice_index_or para.now result no_unit).bracket
        || is_removed (slice_index_or para.now result no_unit).class)) ≡ false }
    ensures steps { steps.new + start ≡ steps.old + result }
{
    if start >= para.len() || !is_passed(set, para[start]) {
        return start;
    }
    steps.tick();
    pass_by_fours(para, start + 1, set, steps)
}

/// W7: Returns whether the unit at `p` becomes this letter after the letter or after neutrals after it: it is a number,
/// the letter is L, and what comes next joins no number.
fn is_number_as(letter: Class, para: &[Unit], p: usize) -> bool
    requires { p < length para.now }
    ensures { result ≡ true → BecomesLetter letter para.now p }
{
    let next = class_or_l(para, p + 1);
    matches!((letter, para[p].class), (Class::L, Class::EN))
        && is_bare(para[p].bracket)
        && is_apart(next)
        && !PassedSet::removed().has(next)
}

/// Returns the position after the number at `p`, if it becomes this letter, the last chosen one. Otherwise returns `p`.
fn past_number(letter: Class, para: &[Unit], p: usize) -> usize
    requires { p < length para.now }
    ensures later { p ≤ result }
    ensures within { result ≤ length para.now }
    ensures leads { (direction : BidiClass) (chosen starts : List BidiUnit) (k : ℕ)
        → is_open_letter direction (slice_index_or chosen k no_unit) ≡ true
        → letter ≡ (slice_index_or chosen k no_unit).class
        → IsLaid para.now starts (suc k) p
        → LeadsOn direction para.now (stack_of para.now chosen starts (suc k) p) p
        → LeadsOn direction para.now (stack_of para.now chosen starts (suc k) result) result }
{
    if is_number_as(letter, para, p) {
        p + 1
    } else {
        p
    }
}

/// Returns the position after a terminator at `p` and this letter after it, or after a number at `p` that becomes this
/// letter. The letter is the last chosen one, and neutrals after it depend on what comes after them. Otherwise returns
/// `p`.
fn past_weak(letter: Class, para: &[Unit], p: usize) -> usize
    requires { p + 1 < length para.now }
    ensures later { p ≤ result }
    ensures within { result ≤ length para.now }
    ensures leads { (direction : BidiClass) (chosen starts : List BidiUnit) (k : ℕ)
        → is_open_letter direction (slice_index_or chosen k no_unit) ≡ true
        → letter ≡ (slice_index_or chosen k no_unit).class
        → IsLaid para.now starts (suc k) p
        → LeadsOn direction para.now (stack_of para.now chosen starts (suc k) p) p
        → LeadsOn direction para.now (stack_of para.now chosen starts (suc k) result) result }
{
    if is_terminator_unit(para[p]) && is_letter_again(letter, para[p + 1]) {
        return p + 2;
    }
    past_number(letter, para, p)
}

/// Returns the position after up to three neutrals from `p` on and this letter, or a number that becomes it, after
/// them. The letter is the last chosen one, and neutrals after it depend on what comes after them. Returns `p` if
/// another unit comes after them.
#[inline(always)]
fn past_neutrals(letter: Class, para: &[Unit], p: usize) -> usize
    requires { p ≤ length para.now }
    ensures later { p ≤ result }
    ensures within { result ≤ length para.now }
    ensures leads { (direction : BidiClass) (chosen starts : List BidiUnit) (k : ℕ)
        → is_open_letter direction (slice_index_or chosen k no_unit) ≡ true
        → letter ≡ (slice_index_or chosen k no_unit).class
        → IsLaid para.now starts (suc k) p
        → LeadsOn direction para.now (stack_of para.now chosen starts (suc k) p) p
        → LeadsOn direction para.now (stack_of para.now chosen starts (suc k) result) result }
{
    let remaining = para.len() - p;
    if remaining < 2 {
        return p;
    }
    if !is_neutral_unit(para[p]) {
        return past_weak(letter, para, p);
    }
    if is_letter_again(letter, para[p + 1]) || is_number_as(letter, para, p + 1) {
        return p + 2;
    }
    if remaining < 3 || !is_neutral_unit(para[p + 1]) {
        return p;
    }
    if is_letter_again(letter, para[p + 2]) {
        return p + 3;
    }
    if remaining < 4 || !is_neutral_unit(para[p + 2]) || !is_letter_again(letter, para[p + 3]) {
        return p;
    }
    p + 4
}

/// Passes units from `start` on that have the level of the last chosen one, this letter, if neutrals after it depend on
/// what comes after them. `set` are the classes that are passed after it. Returns the position after them.
// A function of its own, so that its loops have all registers.
#[inline(never)]
fn pass_words<L: Ledger>(
    letter: Class,
    set: PassedSet,
    para: &[Unit],
    start: usize,
    steps: &mut Steps<L>,
) -> usize
    requires { start ≤ length para.now }
    ensures from_start { start ≤ result }
    ensures within { result ≤ length para.now }
    ensures leads { (direction : BidiClass) (chosen starts : List BidiUnit) (k : ℕ)
        → is_open_letter direction (slice_index_or chosen k no_unit) ≡ true
        → letter ≡ (slice_index_or chosen k no_unit).class
        → ((next : BidiClass) → has set next ≡ passes_after direction (slice_index_or chosen k no_unit) next)
        → IsLaid para.now starts (suc k) start
        → LeadsOn direction para.now (stack_of para.now chosen starts (suc k) start) start
        → LeadsOn direction para.now (stack_of para.now chosen starts (suc k) result) result }
    ensures stopped { result < length para.now → (has set (slice_index_or para.now result no_unit).class
        && (is_bare (slice_index_or para.now result no_unit).bracket
        || is_removed (slice_index_or para.now result no_unit).class)) ≡ false }
    ensures steps { steps.new + start ≡ steps.old + result }
{
    let mut p = pass_singly(para, start, set, steps);
    let mut next = past_neutrals(letter, para, p);
    while next > p {
        steps.add(next - p);
        p = pass_singly(para, next, set, steps);
        next = past_neutrals(letter, para, p);
    }
    p
}

/// Passes units from `start` on that have the level of the last chosen one, `top`. Returns the position after them.
#[inline(always)]
fn pass_on<L: Ledger>(
    direction: Class,
    top: Unit,
    para: &[Unit],
    start: usize,
    steps: &mut Steps<L>,
) -> usize
    requires { start ≤ length para.now }
    ensures from_start { start ≤ result }
    ensures within { result ≤ length para.now }
    ensures leads { (chosen starts : List BidiUnit) (k : ℕ) → top ≡ slice_index_or chosen k no_unit
        → IsLaid para.now starts (suc k) start
        → LeadsOn direction para.now (stack_of para.now chosen starts (suc k) start) start
        → LeadsOn direction para.now (stack_of para.now chosen starts (suc k) result) result }
    ensures apart { (chosen : List BidiUnit) (k : ℕ) → top ≡ slice_index_or chosen k no_unit
        → result < length para.now → IsApart direction chosen (suc k) (slice_index_or para.now result no_unit) }
    ensures steps { steps.new + start ≡ steps.old + result }
{
    let set = passed_after(direction, top);
    if set.has(Class::WS) {
        return pass_first(para, start, set, steps);
    }
    if is_bare(top.bracket) && top.class.is_strong() {
        return pass_words(top.class, set, para, start, steps);
    }
    pass_singly(para, start, set, steps)
}

/// X9: Returns the first position from `start` on that remains, or the end.
fn next_remaining<L: Ledger>(para: &[Unit], start: usize, steps: &mut Steps<L>) -> usize
    requires { start ≤ length para.now }
    ensures from_start { start ≤ result }
    ensures within { result ≤ length para.now }
    ensures removed { (p : ℕ) → start ≤ p → p < result
        → is_removed (slice_index_or para.now p no_unit).class ≡ true }
    ensures here { result < length para.now → is_removed (slice_index_or para.now result no_unit).class ≡ false }
    ensures steps { steps.new + start ≡ steps.old + result }
{
    let mut p = start;
    while p < para.len() && para[p].class.is_removed() {
        steps.tick();
        p += 1;
    }
    p
}

/// How many units a turn of the pass must pass on average: if it passes fewer, resolving them takes less than the pass.
#[derive(Clone, Copy)]
pub enum TurnLimit {
    /// Ten: for paragraphs from which X9 removes nothing, which take fewer instructions without the pass.
    Strict,
    /// Seven: for paragraphs from which X9 removes some units.
    Lenient,
}

/// How many units a turn must pass after the first bracket, since BD16 and N0 then take more for each unit.
const LEAST_WITH_BRACKETS: usize = 4;

/// Returns how many units a turn must pass before the first bracket.
fn least_passed(limit: TurnLimit) -> usize
    ensures { result ≤ 10 }
{
    match limit {
        TurnLimit::Strict => 10,
        TurnLimit::Lenient => 7,
    }
}

/// Returns how many units a turn must pass after a turn at this unit; before it, it was `least`.
fn least_after(least: usize, unit: Unit) -> usize
    requires { least ≤ 10 }
    ensures { result ≤ 10 }
{
    if is_bare(unit.bracket) {
        least
    } else {
        LEAST_WITH_BRACKETS
    }
}

/// Returns how many units the turns before the next one may have passed too few, in a paragraph of `n` units.
fn most_missing(n: usize) -> usize
    ensures { result ≤ n + 128 }
{
    n / 64 + (n / 10).min(112)
}

/// Returns the position to which the turns must have come before the first one. It is after the start, so that the first
/// turns may pass only some `n / 64` units too few: what they find is lost if the pass ends.
fn first_due(n: usize) -> usize
    ensures { result ≤ 128 }
{
    (n / 10).min(112).saturating_sub(8)
}

/// Returns whether the pass makes another turn at the position `p` of a paragraph of `n` units, after `m` units were
/// chosen, if there is room for `room` of them: whether it came near enough to the position `due`.
fn goes_on(p: usize, n: usize, m: usize, room: usize, due: usize, most: usize) -> bool
    ensures within { result ≡ true → p < n }
    ensures fits { result ≡ true → m < room }
    ensures due { result ≡ true → due ≤ p + most }
{
    p < n && m < room && due.saturating_sub(most) <= p
}

/// The few units that are resolved in place of a paragraph: how many of them were chosen, and the position up to which
/// the pass chose them. All units from there on are resolved too.
#[derive(Clone, Copy)]
pub struct Few {
    /// How many units were chosen.
    pub chosen: usize,
    /// The position up to which the pass came.
    pub end: usize,
}

/// Chooses the few units that are to be resolved in place of this paragraph, in a sequence of this direction, and the
/// position at which each begins. Ends before the paragraph does if there is no room for more, or if its turns pass too
/// few units (`limit`). Each position up to that end is a step.
#[inline(never)]
pub fn squeeze<L: Ledger>(
    para: &[Unit],
    direction: Class,
    limit: TurnLimit,
    chosen: &mut [Unit],
    starts: &mut [Unit],
    steps: &mut Steps<L>,
) -> Few
    requires short { length para.now < 2 ^ 32 }
    ensures few { AreFew direction para.now chosen.new starts.new result.chosen result.end }
    ensures steps { steps.new ≡ steps.old + result.end }
    ensures unchanged { AreUnchangedFrom result.end chosen.old starts.old chosen.new starts.new }
{
    let room = chosen.len().min(starts.len());
    let most = most_missing(para.len());
    let mut due = first_due(para.len());
    let mut least = least_passed(limit);
    let mut m = 0;
    let mut strong = direction;
    let mut p = next_remaining(para, 0, steps);
    while goes_on(p, para.len(), m, room, due, most) {
        steps.tick();
        // Units that earlier turns passed beyond what they had to don't count for later ones.
        due = due.max(p) + least;
        let known = Known { direction, strong };
        let now = turn(known, chosen, starts, m, para, p, steps);
        m = now.m;
        strong = now.strong;
        let top = chosen[m - 1];
        least = least_after(least, top);
        p = pass_on(direction, top, para, now.end, steps);
    }
    Few { chosen: m, end: p }
}

/// How many units one copy moves.
const FOUR: usize = 4;

/// Copies the four units from `p` on to the positions from `m + p` on.
// A copy of constant length is three moves of 16 bytes. Unit by unit it takes 16 moves.
fn copy_four(chosen: &mut [Unit], m: usize, rest: &[Unit], p: usize)
    requires from { p + 4 ≤ length rest.now }
    requires to { m + length rest.now ≤ length chosen.old }
    ensures copied { (front : List BidiUnit) → take (m + p) chosen.old ≡ front ++ take p rest.now
        → take (m + (p + 4)) chosen.new ≡ front ++ take (p + 4) rest.now }
    ensures after { drop (m + length rest.now) chosen.new ≡ drop (m + length rest.now) chosen.old }
{
    let q = m + p;
    chosen[q..q + FOUR].copy_from_slice(&rest[p..p + FOUR]);
}

/// How many units a turn of the loop copies.
const COPIED: usize = 2 * FOUR;

/// Copies these units to the positions from `m` on, eight at a time as long as there are eight, with a step for each.
/// Returns how many are copied.
// With one copy a turn, the compiler makes the loop one call of `memcpy`, whose turns valgrind counts byte by byte.
fn copy_eights<L: Ledger>(
    chosen: &mut [Unit],
    m: usize,
    rest: &[Unit],
    steps: &mut Steps<L>,
) -> usize
    requires { m + length rest.now ≤ length chosen.old }
    ensures within { result ≤ length rest.now }
    ensures copied { take (m + result) chosen.new ≡ take m chosen.old ++ take result rest.now }
    ensures after { drop (m + length rest.now) chosen.new ≡ drop (m + length rest.now) chosen.old }
    ensures steps { steps.new ≡ steps.old + result }
{
    let mut p = 0;
    while rest.len() - p >= COPIED {
        steps.add(COPIED);
        copy_four(chosen, m, rest, p);
        copy_four(chosen, m, rest, p + FOUR);
        p += COPIED;
    }
    p
}

/// Copies these units to the positions from `m` on. Each of them is a step.
fn copy_units<L: Ledger>(chosen: &mut [Unit], m: usize, rest: &[Unit], steps: &mut Steps<L>)
    requires { m + length rest.now ≤ length chosen.old }
    ensures copied { take (m + length rest.now) chosen.new ≡ take m chosen.old ++ rest.now }
    ensures after { drop (m + length rest.now) chosen.new ≡ drop (m + length rest.now) chosen.old }
    ensures steps { steps.new ≡ steps.old + length rest.now }
{
    let start = copy_eights(chosen, m, rest, steps);
    for p in start..rest.len() {
        steps.tick();
        chosen[m + p] = rest[p];
    }
}

/// Appends the units that the pass did not come to, `rest`, to the first `m` chosen ones. Returns how many there are
/// then, or `None` if there is no room for them. Each of them is a step.
pub fn append_rest<L: Ledger>(
    chosen: &mut [Unit],
    m: usize,
    rest: &[Unit],
    steps: &mut Steps<L>,
) -> Option<usize>
    requires { m ≤ length chosen.old }
    ensures count { IfSome result (λ count. count ≡ m + length rest.now) }
    ensures appended { IfSome result (λ count. take count chosen.new ≡ take m chosen.old ++ rest.now) }
    ensures after { IfSome result (λ count. drop count chosen.new ≡ drop count chosen.old) }
    ensures within { IfSome result (λ count. count ≤ length chosen.new) }
    ensures none { IsNone result → length chosen.old < m + length rest.now }
    ensures unchanged { IsNone result → chosen.new ≡ chosen.old }
    ensures steps { IfSome result (λ _. steps.new ≡ steps.old + length rest.now) }
    ensures no_steps { IsNone result → steps.new ≡ steps.old }
{
    if chosen.len() - m < rest.len() {
        return None;
    }
    copy_units(chosen, m, rest, steps);
    Some(m + rest.len())
}
