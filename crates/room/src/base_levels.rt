//! The direction of a text that is not laid out: the levels of its paragraphs, and whether all its levels are 0. It
//! takes no memory.
ghost use Rattle.std.specs.Prelude.{◌≡◌, ◌<◌, ◌≤◌, ◌+◌, true, List, length, IfErr, IfOk, MatchOption, OnOk};
ghost use Rattle.units.specs.Classes.{classes_of};
ghost use Rattle.units.specs.Isolates.{level_of_para};
ghost use Rattle.units.specs.Layout.{para_levels_of};
ghost use Rattle.units.specs.Limits.{LimitsOf};
ghost use Rattle.units.specs.Paragraphs.{paragraphs_of};
ghost use Rattle.units.specs.declared.bracket.Unit.{Unit as BidiUnit};
ghost use Rattle.explicit.specs.FirstParagraph.{first_length};
ghost use Rattle.room.specs.StaysAtZero.{AreLevelsZero, all_stay_at_zero, stays_at_zero};
ghost use Rattle.room.specs.BaseLevels.{IsAfterParagraph, IsNextText, WritesBaseLevels};
ghost use Rattle.room.specs.BaseLevels.{base_level, depth_after, first_side, units_read};
ghost use Rattle.sources.specs.Seen.{source_seen};
ghost use Rattle.sources.specs.Sources.{IsFirstFault, IsWellFormed, size_of, units_of};
ghost use Rattle.sources.specs.Splitting.{IsEmpty};
ghost use Rattle.room.specs.Written.{WritesWhole};

use explicit::para_level::level_under;
use explicit::side::Side;
use sources::source::Source;
use std::marker::Brand;
use std::sync::ledger::{Blank, Ledger};
use ucdfiles::tables::Tables;
use units::class::Class;
use units::level::{Direction, ParaLevel};
use units::steps::Steps;

/// BD9: returns how many isolates are open after a class, if `depth` are open before it.
fn depth_after(class: Class, depth: usize) -> usize
    requires { depth < usize.MAX }
    ensures { result ≡ depth_after class depth }
{
    if class.is_isolate_initiator() {
        depth + 1
    } else if class.is_pdi() {
        depth.saturating_sub(1)
    } else {
        depth
    }
}

/// P1, P2: returns the side of the first strong class of a text's first paragraph outside of all isolates. Reads no
/// further than that class or the paragraph, and takes one step for each character that it reads.
#[tactic(auto, using(crate::proofs::BaseSides::first_side_from, crate::proofs::BaseSides::one_longer, crate::proofs::BaseReads::units_read_from))]
fn first_side<L: Ledger>(tables: &Tables, source: Source<'_>, steps: &mut Steps<L>) -> Side
    requires { IsWellFormed (source_seen source) }
    ensures side { result ≡ first_side (units_of tables.now (source_seen source.entry)) }
    ensures steps { steps.new ≤ steps.old + size_of (source_seen source.entry) }
    ensures paragraph { steps.new ≤ steps.old + first_length (units_of tables.now (source_seen source.entry)) }
    ensures read { steps.new ≡ steps.old + units_read (units_of tables.now (source_seen source.entry)) }
{
    let _size = source.size();
    let mut depth = 0;
    let mut rest = source;
    while let Some((unit, after)) = rest.split_first(tables) {
        steps.tick();
        if unit.class.is_separator() {
            return Side::Unknown;
        }
        if depth == 0 && unit.class.is_strong() {
            return Side::Unknown.noting(unit.class);
        }
        depth = depth_after(unit.class, depth);
        rest = after;
    }
    Side::Unknown
}

/// P1: returns what follows the first paragraph of a text.
#[tactic(auto, using(crate::proofs::BaseParagraphs::after_separator, crate::proofs::BaseParagraphs::after_other))]
fn after_paragraph<'t>(tables: &Tables, source: Source<'t>) -> Source<'t>
    requires { IsWellFormed (source_seen source) }
    ensures { IsAfterParagraph tables.now (source_seen source.entry) (source_seen result) }
{
    let mut rest = source;
    while let Some((unit, after)) = rest.split_first(tables) {
        rest = after;
        if unit.class.is_separator() {
            return rest;
        }
    }
    rest
}

/// P1: returns what follows the first paragraph of a text, if there is one.
#[tactic(auto, using(crate::proofs::BaseParagraphs::after_separator, crate::proofs::BaseParagraphs::after_other))]
fn next_text<'t>(tables: &Tables, source: Source<'t>) -> Option<Source<'t>>
    requires { IsWellFormed (source_seen source) }
    ensures { MatchOption result (IsEmpty tables.now (source_seen source.entry))
        (λ rest. IsNextText tables.now (source_seen source.entry) (source_seen rest)) }
{
    let (unit, after) = source.split_first(tables)?;
    if unit.class.is_separator() {
        return Some(after);
    }
    Some(after_paragraph(tables, after))
}

/// Returns the level of the first paragraph of a well-formed text under a direction (P1 to P3). It takes one step for
/// each character of the paragraph up to its first strong class outside of all isolates, or for all of them if there is
/// no such class. So it takes at most one step for each unit of the text. What comes after the paragraph is not read.
pub fn first_level<L: Ledger>(
    tables: &Tables,
    source: Source<'_>,
    direction: Direction,
    steps: &mut Steps<L>,
) -> ParaLevel
    requires { IsWellFormed (source_seen source) }
    ensures level { level_of_para result ≡ base_level (units_of tables.now (source_seen source.entry)) direction }
    ensures steps { steps.new ≤ steps.old + size_of (source_seen source.entry) }
    ensures paragraph { steps.new ≤ steps.old + first_length (units_of tables.now (source_seen source.entry)) }
    ensures read { steps.new ≡ steps.old + units_read (units_of tables.now (source_seen source.entry)) }
{
    level_under(direction, first_side(tables, source, steps))
}

/// Returns that level. Counts the steps of this call.
fn level_counting<L: Ledger>(
    tables: &Tables,
    source: Source<'_>,
    direction: Direction,
    blank: Blank,
) -> ParaLevel
    requires well_formed { IsWellFormed (source_seen source) }
    requires name { blank.name ≡ L.name }
    requires parts { blank.parts ≡ L.parts }
    requires some { 0 < blank.parts }
    ensures { level_of_para result ≡ base_level (units_of tables.now (source_seen source.entry)) direction }
{
    first_level(tables, source, direction, &mut Steps::<L>::new(blank))
}

/// Returns that level for a caller that counts no steps.
fn level_of_first(tables: &Tables, source: Source<'_>, direction: Direction) -> ParaLevel
    requires { IsWellFormed (source_seen source) }
    ensures { level_of_para result ≡ base_level (units_of tables.now (source_seen source.entry)) direction }
{
    level_counting::<Brand>(tables, source, direction, Blank::new(1))
}

/// P1: returns how many paragraphs a text has.
fn paragraph_count(tables: &Tables, source: Source<'_>) -> usize
    requires { IsWellFormed (source_seen source) }
    ensures { result ≡ length (paragraphs_of (units_of tables.now (source_seen source.entry))) }
{
    let _size = source.size();
    let mut count = 0;
    let mut rest = source;
    while let Some(after) = next_text(tables, rest) {
        rest = after;
        count += 1;
    }
    count
}

/// P1 to P3: writes the level of each paragraph of a text under a direction, if there is an item for each.
fn fill_base_levels(tables: &Tables, source: Source<'_>, direction: Direction, levels: &mut [u8])
    requires well_formed { IsWellFormed (source_seen source) }
    requires items { length levels.old ≡ length (paragraphs_of (units_of tables.now (source_seen source))) }
    ensures { levels.new ≡ para_levels_of (units_of tables.now (source_seen source.entry)) direction }
{
    let mut rest = source;
    for k in 0..levels.len() {
        levels[k] = level_of_first(tables, rest, direction).level().get();
        rest = after_paragraph(tables, rest);
    }
}

/// Writes the levels of the paragraphs of a well-formed text to the front of `levels`, if all fit there. Returns how
/// many there are.
fn write_base_levels(
    tables: &Tables,
    source: Source<'_>,
    direction: Direction,
    levels: &mut [u8],
) -> usize
    requires { IsWellFormed (source_seen source) }
    ensures { WritesWhole (para_levels_of (units_of tables.now (source_seen source.entry)) direction) result
        levels.old levels.new }
{
    let count = paragraph_count(tables, source);
    if count <= levels.len() {
        fill_base_levels(tables, source, direction, &mut levels[..count]);
    }
    count
}

/// Returns whether a class leaves a paragraph of level 0, and each position in it, at that level: it is neither R, AL
/// or AN nor an initiator of an embedding, an override or an isolate.
fn stays_at_zero(class: Class) -> bool
    ensures { result ≡ stays_at_zero class }
{
    !matches!(
        class,
        Class::R
            | Class::AL
            | Class::AN
            | Class::LRE
            | Class::RLE
            | Class::LRO
            | Class::RLO
            | Class::LRI
            | Class::RLI
            | Class::FSI
    )
}

/// Returns whether the classes of a text leave all levels at 0.
fn all_stay_at_zero(tables: &Tables, source: Source<'_>) -> bool
    requires { IsWellFormed (source_seen source) }
    ensures { result ≡ all_stay_at_zero (classes_of (units_of tables.now (source_seen source.entry))) }
{
    let mut rest = source;
    while let Some((unit, after)) = rest.split_first(tables) {
        if !stays_at_zero(unit.class) {
            return false;
        }
        rest = after;
    }
    true
}

/// Returns the level of the first paragraph of a text under a direction (P1 to P3); an empty text is a paragraph
/// without strong classes. Fails with the offset of the first unit that is not part of a character, wherever that is in
/// the text.
pub fn base_level(
    tables: &Tables,
    source: Source<'_>,
    direction: Direction,
) -> Result<ParaLevel, usize>
    ensures well_formed { OnOk result (IsWellFormed (source_seen source.entry)) }
    ensures level { IfOk result (λ level. level_of_para level
        ≡ base_level (units_of tables.now (source_seen source.entry)) direction) }
    ensures fault { IfErr result (IsFirstFault (source_seen source.entry)) }
{
    source.check()?;
    Ok(level_of_first(tables, source, direction))
}

/// Writes the level of each paragraph of a text under a direction (P1 to P3), 0 or 1, to the front of `levels`, in the
/// order of the paragraphs, if all fit there; else nothing is written. Returns how many paragraphs there are.
///
/// Fails with the offset of the first unit that is not part of a character; `levels` is unchanged then.
pub fn base_levels(
    tables: &Tables,
    source: Source<'_>,
    direction: Direction,
    levels: &mut [u8],
) -> Result<usize, usize>
    ensures { WritesBaseLevels tables.now (source_seen source.entry) direction levels.old levels.new result }
{
    source.check()?;
    Ok(write_base_levels(tables, source, direction, levels))
}

/// Returns whether a text has only classes that stay at level 0. Then each of its levels is 0 under `Direction::Auto`
/// and `Direction::Ltr`, whatever the limits and the breaks are (`levels_are_zero`). X9 may still remove some of its
/// positions. Fails with the offset of the first unit that is not part of a character.
pub fn is_left_to_right(tables: &Tables, source: Source<'_>) -> Result<bool, usize>
    ensures well_formed { OnOk result (IsWellFormed (source_seen source.entry)) }
    ensures stays { IfOk result (λ stays. stays
        ≡ all_stay_at_zero (classes_of (units_of tables.now (source_seen source.entry)))) }
    ensures fault { IfErr result (IsFirstFault (source_seen source.entry)) }
{
    source.check()?;
    Ok(all_stay_at_zero(tables, source))
}

/// States that each position of a text with only classes that stay at level 0 has the level 0, unless X9 removes it.
/// The direction must be `Auto` or `Ltr`.
pub fn levels_are_zero()
    ensures { (limits : LimitsOf) (text : List BidiUnit) → all_stay_at_zero (classes_of text) ≡ true
        → AreLevelsZero limits text }
{}
