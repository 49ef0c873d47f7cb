//! The levels of separators, and of white space before separators and at the ends of lines (L1).
ghost use Rattle.std.specs.Prelude.{◌≡◌, true, ◌<◌, ◌≤◌, ◌+◌, ◌-◌, ◌↔◌, ◌||◌, IsTrue, false, length, slice_index, count_by};
ghost use Rattle.units.specs.Classes.{class_at, classes_of, is_line_separator as separates_line, is_separator};
ghost use Rattle.units.specs.Isolates.{level_of_para};
ghost use Rattle.units.specs.Paragraphs.{paragraphs_of};
ghost use Rattle.units.specs.Reordering.{is_trailing_space, reset_to};
ghost use Rattle.lines.specs.LineEnds.{AreAllParagraphEnds, paragraph_start};
ghost use Rattle.lines.specs.Spaces.{HasNoSegments, PassesBack, StaysAtParas, levels_reset, resets_before};

use crate::breaks::Breaks;
use crate::resolving::{ResolvedText, TextWithParagraphs};
use std::sync::ledger::Ledger;
use units::bracket::Unit;
use units::class::Class;
use units::level::{Level, ParaLevel};
use units::steps::Steps;

/// Returns whether spaces before a position of the class are reset. `later` says whether spaces directly after it are.
pub fn resets_spaces_before(class: Class, later: bool) -> bool
    ensures { result ≡ resets_before class later }
{
    match class {
        Class::S | Class::B => true,
        Class::WS | Class::LRI | Class::RLI | Class::FSI | Class::PDI => later,
        Class::LRE | Class::RLE | Class::LRO | Class::RLO | Class::PDF | Class::BN => later,
        _ => false,
    }
}

/// Returns whether a class is reset wherever it occurs.
fn is_line_separator(class: Class) -> bool
    ensures { result ≡ separates_line class }
{
    matches!(class, Class::S | Class::B)
}

/// Returns whether L1 can reset positions of the class.
fn may_be_reset(class: Class) -> bool
    ensures { result ≡ (separates_line class || is_trailing_space class) }
{
    matches!(
        class,
        Class::S | Class::B | Class::WS | Class::LRI | Class::RLI | Class::FSI | Class::PDI
    )
}

/// L1: returns the level of the paragraph if the position is reset and has a level, and else the level that it has.
fn reset_level(reset: bool, para_level: ParaLevel, level: Option<Level>) -> Option<Level>
    ensures { result ≡ reset_to reset (level_of_para para_level) level }
{
    match level {
        Some(_) if reset => Some(para_level.level()),
        other => other,
    }
}

/// Returns whether the last of the first `ahead` breaks is at the position.
fn comes_last(at: &[usize], ahead: usize, position: usize) -> bool
    requires { ahead ≤ length at.now }
    ensures { IsTrue result ↔ ((0 < ahead) × (slice_index at.now (ahead - 1) ≡ position)) }
{
    ahead > 0 && at[ahead - 1] == position
}

/// Returns the last of the first `ahead` breaks, or 0 if there is none.
fn last_coming(at: &[usize], ahead: usize) -> usize
    requires { ahead ≤ length at.now }
    ensures some { 0 < ahead → result ≡ slice_index at.now (ahead - 1) }
    ensures none { ahead ≡ 0 → result ≡ 0 }
{
    if ahead > 0 { at[ahead - 1] } else { 0 }
}

/// How many positions a search for a separator passes at once.
const BLOCK: usize = 4;

/// Passes blocks of positions without a separator of lines, from `end` back to `start`. Returns the position that it
/// reaches. Takes one step for each position that it passes.
fn pass_blocks<L: Ledger>(own: &[Unit], start: usize, end: usize, steps: &mut Steps<L>) -> usize
    requires order { start ≤ end }
    requires within { end ≤ length own.now }
    ensures back { PassesBack (classes_of own.now) start end result }
    ensures steps { steps.new + result ≡ steps.old + end }
{
    let mut position = end;
    while position - start >= BLOCK
        && !is_line_separator(own[position - 1].class)
        && !is_line_separator(own[position - 2].class)
        && !is_line_separator(own[position - 3].class)
        && !is_line_separator(own[position - 4].class)
    {
        steps.add(BLOCK);
        position -= BLOCK;
    }
    position
}

/// Returns the position after the last separator of lines from `start` up to `end`, or `start` if there is none. A pass
/// of L1 from the end continues there if before `end` it resets nothing but a separator and what comes before it. Takes
/// one step for each position that it passes.
fn after_separator<L: Ledger>(own: &[Unit], start: usize, end: usize, steps: &mut Steps<L>) -> usize
    requires order { start ≤ end }
    requires within { end ≤ length own.now }
    ensures back { PassesBack (classes_of own.now) start end result }
    ensures following { start < result → separates_line (class_at (classes_of own.now) (result - 1)) ≡ true }
    ensures steps { steps.new + result ≡ steps.old + end }
{
    let mut position = pass_blocks(own, start, end, steps);
    while position > start && !is_line_separator(own[position - 1].class) {
        steps.tick();
        position -= 1;
    }
    position
}

/// Returns the number of paragraph separators of a text with this number of paragraphs. Each paragraph but the last
/// ends with one.
fn count_separators(own: &[Unit], paragraphs: usize) -> usize
    requires { paragraphs ≡ length (paragraphs_of own.now) }
    ensures { result ≡ count_by is_separator (classes_of own.now) }
{
    if own.is_empty() {
        return paragraphs;
    }
    let closed = own[own.len() - 1].class.is_separator();
    paragraphs - usize::from(!closed)
}

/// Resets levels to that of the paragraph (L1), in one pass from the end of the text. It resets separators, and the
/// white space and isolate formatting characters before a separator or at a line's end. A loop that only searches for a
/// separator passes the positions of a line that nothing after them resets.
///
/// `own` has the units of the text with their own classes. `paras` has the levels of its paragraphs in order. `levels`
/// has the resolved levels of its positions; a removed position has none. Takes one step for each position.
pub fn reset_text<L: Ledger>(
    own: &[Unit],
    breaks: &Breaks,
    paras: &[ParaLevel],
    levels: &mut [Option<Level>],
    steps: &mut Steps<L>,
)
    requires len { breaks.now.len ≡ length own.now }
    requires levels { length levels.old ≡ length own.now }
    requires paras { length paras.now ≡ length (paragraphs_of own.now) }
    ensures levels { levels.new ≡ levels_reset own.now breaks.now.positions paras.now levels.old }
    ensures steps { steps.new ≡ steps.old + length own.now }
{
    let at = breaks.positions();
    let mut ahead = at.len();
    let mut paragraph = count_separators(own, paras.len());
    let mut resets = true;
    let mut position = levels.len();
    while position > 0 {
        steps.tick();
        position -= 1;
        let class = own[position].class;
        let broken = comes_last(at, ahead, position + 1);
        if resets | broken | is_line_separator(class) {
            let ends = class.is_separator();
            paragraph -= usize::from(ends);
            ahead -= usize::from(broken);
            resets = resets_spaces_before(class, ends | broken | resets);
            let reset = resets & may_be_reset(class);
            levels[position] = reset_level(reset, paras[paragraph], levels[position]);
        } else {
            position = after_separator(own, last_coming(at, ahead), position, steps);
        }
    }
}

/// Returns the position at which the paragraph with this number begins. `para_ends` has the ends of the paragraphs.
fn start_of_paragraph(para_ends: &[u32], paragraph: usize) -> usize
    requires { paragraph ≤ length para_ends.now }
    ensures { result ≡ paragraph_start para_ends.now paragraph }
{
    if paragraph > 0 {
        para_ends[paragraph - 1] as usize
    } else {
        0
    }
}

/// Does what `reset_text` does, for a text without segment separators. It takes at most as many steps, and at least one
/// for each paragraph. Once it reaches a position of a line that nothing later resets, it continues before the start of
/// that line. `para_ends` has the ends of the paragraphs.
pub(crate) fn reset_unsegmented<L: Ledger>(
    own: &[Unit],
    breaks: &Breaks,
    para_ends: &[u32],
    paras: &[ParaLevel],
    levels: &mut [Option<Level>],
    steps: &mut Steps<L>,
)
    requires none { HasNoSegments own.now }
    requires len { breaks.now.len ≡ length own.now }
    requires levels { length levels.old ≡ length own.now }
    requires ends { AreAllParagraphEnds own.now para_ends.now }
    requires each { length para_ends.now ≡ length paras.now }
    requires paras { length paras.now ≡ length (paragraphs_of own.now) }
    ensures levels { levels.new ≡ levels_reset own.now breaks.now.positions paras.now levels.old }
    ensures at_least { steps.old + length para_ends.now ≤ steps.new }
    ensures at_most { steps.new ≤ steps.old + length own.now }
{
    let at = breaks.positions();
    let mut ahead = at.len();
    let mut paragraph = count_separators(own, paras.len());
    let mut resets = true;
    let mut position = levels.len();
    while position > 0 {
        steps.tick();
        position -= 1;
        let Unit { class, .. } = own[position];
        let broken = comes_last(at, ahead, position + 1);
        if resets | broken | is_line_separator(class) {
            let ends = class.is_separator();
            paragraph -= usize::from(ends);
            ahead -= usize::from(broken);
            let last = ends | broken;
            resets = resets_spaces_before(class, last | resets);
            let reset = resets & may_be_reset(class);
            levels[position] = reset_level(reset, paras[paragraph], levels[position]);
        } else {
            let start = start_of_paragraph(para_ends, paragraph);
            position = start.max(last_coming(at, ahead));
        }
    }
}

/// Does what `reset_text` does, unless each remaining position is known to have the level of its paragraph. L1 then
/// changes no level.
// Inlined, a short text takes fewer instructions.
#[inline(always)]
pub(crate) fn reset_unless_uniform<L: Ledger>(
    text: TextWithParagraphs<'_>,
    breaks: &Breaks,
    resolved: ResolvedText,
    levels: &mut [Option<Level>],
    steps: &mut Steps<L>,
)
    requires len { breaks.now.len ≡ length text.units.now }
    requires levels { length levels.old ≡ length text.units.now }
    requires paras { length text.paras.now ≡ length (paragraphs_of text.units.now) }
    requires ends { AreAllParagraphEnds text.units.now text.para_ends.now }
    requires each { length text.para_ends.now ≡ length text.paras.now }
    requires uniform { IsTrue resolved.uniform → StaysAtParas text.units.now text.paras.now levels.old }
    requires none { resolved.segmented ≡ false → HasNoSegments text.units.now }
    ensures levels { levels.new
        ≡ levels_reset text.entry.units.now breaks.now.positions text.entry.paras.now levels.old }
    ensures same { IsTrue resolved.uniform → levels.new ≡ levels.old }
    ensures uniform { IsTrue resolved.uniform
        → StaysAtParas text.entry.units.now text.entry.paras.now levels.new }
    ensures at_least { steps.old ≤ steps.new }
    ensures at_most { steps.new ≤ steps.old + length text.entry.units.now }
    ensures if_uniform { IsTrue resolved.uniform → steps.new ≡ steps.old }
{
    if resolved.uniform {
        return;
    }
    let TextWithParagraphs {
        units,
        para_ends,
        paras,
    } = text;
    if resolved.segmented {
        reset_text(units, breaks, paras, levels, steps);
    } else {
        reset_unsegmented(units, breaks, para_ends, paras, levels, steps);
    }
}
