//! The paragraph levels and the resolved levels of a text (P1 to I2), and the ends of its lines.
ghost use Rattle.std.specs.Prelude.{◌≡◌, ◌<◌, ◌≤◌, ◌+◌, ◌*◌, ◌^◌, [], ◌∷◌, IfSome, List, ℕ, false, length, true};
ghost use Rattle.units.specs.Limits.{LimitsOf};
ghost use Rattle.units.specs.declared.level.Direction.{Direction};
ghost use Rattle.lines.specs.Bounds.{bound_at, first_bound};
ghost use Rattle.lines.specs.Columns.{levels_filled, para_ends_filled, paras_filled, HasTextRoom, KeepsTextRoom};
ghost use Rattle.std.specs.List.{list_all};
ghost use Rattle.std.specs.Option.{is_some};
ghost use Rattle.units.specs.Classes.{classes_of};
ghost use Rattle.explicit.specs.FirstParagraph.{first_length};
ghost use Rattle.paragraph.specs.Contents.{Describes, IsFirstOf};
ghost use Rattle.lines.specs.Unchanged.{IsLineAtLevel, IsUnbroken, keeps_own_level};
ghost use Rattle.lines.specs.ResolvedTexts.{IsResolved, one_line};
ghost use Rattle.lines.specs.Spaces.{HasNoSegments, has_segments};
ghost use Rattle.lines.specs.StepBounds.{uniform_text_steps, text_steps};

use crate::bounds::Bound;
use crate::breaks::Breaks;
use crate::columns::TextColumns;
use crate::cutting::{cut_paragraph, start_cut};
use crate::positions::write_level;
use paragraph::contents::{Contents, FirstParagraph};
use paragraph::resolver::Resolver;
use paragraph::uniform::resolve_uniform;
use std::sync::ledger::Ledger;
use units::bracket::Unit;
use units::level::{Direction, Level, ParaLevel};
use units::limits::Limits;
use units::steps::Steps;

/// What is known about a text that was resolved.
#[derive(Clone, Copy)]
pub struct ResolvedText {
    /// The number of its paragraphs.
    pub paragraphs: usize,
    /// The number of its lines.
    pub lines: usize,
    /// True only if each paragraph keeps its level: each remaining position (X9) has the level of its paragraph.
    pub uniform: bool,
    /// True only if X9 removes no position of a uniform text, which is one paragraph and one line.
    pub complete: bool,
    /// False only if the text has no segment separator (L1).
    pub segmented: bool,
}

/// A text and its paragraphs (P1 to P3).
#[derive(Clone, Copy)]
pub struct TextWithParagraphs<'a> {
    /// The units of the text, with their own classes.
    pub units: &'a [Unit],
    /// The end of each paragraph, rising.
    pub para_ends: &'a [u32],
    /// The level of each paragraph.
    pub paras: &'a [ParaLevel],
}

/// How a text is laid out.
#[derive(Drop)]
pub struct LayoutOptions<'a> {
    /// The direction of its paragraphs (P2, P3).
    pub direction: Direction,
    /// Where its lines begin, besides after separators.
    pub breaks: &'a Breaks<'a>,
    /// The limits of explicit levels (BD2) and of open brackets (BD16).
    pub limits: Limits,
}

/// Writes the level and the end of a text's only paragraph, and the ends of its only line, to the fronts of their
/// columns.
fn write_paragraph(level: ParaLevel, end: usize, columns: &mut TextColumns, bounds: &mut [Bound])
    requires small { end < 2 ^ 32 }
    requires room { HasTextRoom columns.old 1 }
    requires bounds { 1 < length bounds.old }
    ensures room { KeepsTextRoom columns.old columns.new }
    ensures paras { paras_filled 1 columns.new ≡ level ∷ [] }
    ensures para_ends { para_ends_filled 1 columns.new ≡ end ∷ [] }
    ensures levels { columns.new.levels ≡ columns.old.levels }
    ensures first { bound_at bounds.new 0 ≡ first_bound }
    ensures last { (bound_at bounds.new 1).position ≡ end }
{
    columns.paras[0] = level;
    columns.para_ends[0] = end as u32;
    bounds[0] = Bound {
        position: 0,
        order: 0,
    };
    bounds[1] = Bound {
        position: end as u32,
        order: 0,
    };
}

/// Returns whether a text whose first paragraph has this length is this paragraph and one line.
fn is_one_line(text: &[Unit], length: usize, breaks: &Breaks) -> bool
    ensures { result ≡ true → IsUnbroken length text.now breaks.now.positions }
{
    !text.is_empty() && length == text.len() && breaks.positions().is_empty()
}

/// P2 to I2: Returns the level of a text with this first paragraph, if the text is this paragraph and one line, X9
/// removes no position, and each one keeps the level of the paragraph.
#[inline(always)]
pub(crate) fn level_of_line(
    text: &[Unit],
    first: FirstParagraph,
    direction: Direction,
    breaks: &Breaks,
) -> Option<ParaLevel>
    requires first { IsFirstOf first text.now }
    ensures { IfSome result (IsLineAtLevel text.now direction breaks.now.positions) }
{
    if !is_one_line(text, first.length, breaks) || !first.contents.all_remain() {
        return None;
    }
    first.contents.uniform_level(direction)
}

/// How many steps a text that is one paragraph and one line takes besides those of its units.
const PARAGRAPH_AND_LINE: usize = 2;

/// Does what `resolve_text` does, for a text that is one line at this level. Its paragraph and its line take one step
/// each, and each unit takes one.
#[inline(always)]
pub(crate) fn resolve_line<L: Ledger>(
    text: &[Unit],
    level: ParaLevel,
    columns: &mut TextColumns,
    bounds: &mut [Bound],
    steps: &mut Steps<L>,
)
    requires some { 0 < length text.now }
    requires small { length text.now < 2 ^ 32 }
    requires room { HasTextRoom columns.old (length text.now) }
    requires bounds { length text.now < length bounds.old }
    ensures room { KeepsTextRoom columns.old columns.new }
    ensures resolved { (limits : LimitsOf) (direction : Direction) (breaks : List ℕ)
        → IsLineAtLevel text.now direction breaks level
        → IsResolved limits text.now direction breaks one_line columns.new bounds.new }
    ensures complete { list_all is_some (levels_filled (length text.now) columns.new) ≡ true }
    ensures steps { steps.new ≡ steps.old + length text.now + 2 }
{
    steps.add(PARAGRAPH_AND_LINE);
    write_level(level.level(), text.len(), &mut columns.levels, steps);
    write_paragraph(level, text.len(), columns, bounds);
}

/// Does what `resolve_text` does, for a text that is one paragraph with these contents and one line, if each position
/// that remains keeps the level of the paragraph. Its paragraph and its line take one step each, and each unit takes
/// one. Returns false, and takes no step, if a position may leave that level.
fn resolve_paragraph<L: Ledger>(
    text: &[Unit],
    contents: Contents,
    direction: Direction,
    columns: &mut TextColumns,
    bounds: &mut [Bound],
    steps: &mut Steps<L>,
) -> bool
    requires some { 0 < length text.now }
    requires small { length text.now < 2 ^ 32 }
    requires one { first_length text.now ≡ length text.now }
    requires contents { Describes contents (classes_of text.now) }
    requires room { HasTextRoom columns.old (length text.now) }
    requires bounds { length text.now < length bounds.old }
    ensures known { result ≡ keeps_own_level direction text.now }
    ensures room { KeepsTextRoom columns.old columns.new }
    ensures resolved { result ≡ true → (limits : LimitsOf)
        → IsResolved limits text.now direction [] one_line columns.new bounds.new }
    ensures steps { result ≡ true → steps.new ≡ steps.old + length text.now + 2 }
    ensures no_steps { result ≡ false → steps.new ≡ steps.old }
{
    let levels = &mut columns.levels;
    match resolve_uniform(text, contents, direction, levels, steps) {
        Some(level) => {
            steps.add(2);
            write_paragraph(level, text.len(), columns, bounds);
            true
        }
        None => false,
    }
}

/// Does what `resolve_text` does, for any text. Its first paragraph is known.
fn resolve_paragraphs<L: Ledger>(
    text: &[Unit],
    first: FirstParagraph,
    options: &LayoutOptions<'_>,
    resolver: &mut Resolver,
    columns: &mut TextColumns,
    bounds: &mut [Bound],
    steps: &mut Steps<L>,
) -> ResolvedText
    requires len { options.now.breaks.now.len ≡ length text.now }
    requires small { length text.now < 2 ^ 32 }
    requires resolver { length text.now ≤ resolver.old }
    requires room { HasTextRoom columns.old (length text.now) }
    requires bounds { length text.now < length bounds.old }
    requires first { IsFirstOf first text.now }
    requires within { first.length ≤ length text.now }
    requires some { 0 < length text.now → 0 < first.length }
    ensures resolver { resolver.new ≡ resolver.old }
    ensures room { KeepsTextRoom columns.old columns.new }
    ensures resolved { IsResolved options.now.limits text.now options.now.direction
        options.now.breaks.now.positions result columns.new bounds.new }
    ensures not_complete { result.complete ≡ false }
    ensures segments { result.segmented ≡ has_segments text.now }
    ensures at_least { steps.old + 2 * length text.now + result.paragraphs + result.lines
        ≤ steps.new + first.length }
    ensures at_most { steps.new + first.length ≤ steps.old + text_steps * length text.now }
    ensures if_uniform { result.uniform ≡ true
        → steps.new + first.length ≤ steps.old + uniform_text_steps * length text.now }
{
    let paras: &mut [ParaLevel] = &mut columns.paras;
    let para_ends: &mut [u32] = &mut columns.para_ends;
    let levels: &mut [Option<Level>] = &mut columns.levels;
    let at = options.breaks.positions();
    let mut cut = start_cut(bounds);
    let mut paragraphs = 0;
    let mut uniform = true;
    let mut segmented = false;
    let mut start = 0;
    let mut next = first;
    while start < text.len() {
        steps.tick();
        let first = next;
        let end = start + first.length;
        cut = cut_paragraph(at, text.len(), start..end, cut, bounds, steps);

        // P2 to I2.
        let resolved = resolver.resolve_known(
            &text[start..end],
            first.contents,
            options.direction,
            options.limits,
            &mut levels[start..end],
            steps,
        );
        paras[paragraphs] = resolved.level;
        para_ends[paragraphs] = end as u32;
        uniform &= resolved.uniform;
        segmented |= first.contents.has_segment_separator();
        paragraphs += 1;
        start = end;

        // P1.
        next = FirstParagraph::of(&text[start..], steps);
    }
    ResolvedText {
        paragraphs,
        lines: cut.lines,
        uniform,
        complete: false,
        segmented,
    }
}

/// Writes the levels of a text's paragraphs, their ends, and the resolved levels of its positions to the fronts of
/// their columns, paragraph by paragraph, with these options. Writes the ends of its lines to the front of `bounds`;
/// each paragraph ends a line. Its first paragraph is known. A paragraph that is one line and keeps its level is
/// resolved at once only if X9 may remove positions: the caller has resolved the others with `resolve_line`.
pub(crate) fn resolve_text<L: Ledger>(
    text: &[Unit],
    first: FirstParagraph,
    options: &LayoutOptions<'_>,
    resolver: &mut Resolver,
    columns: &mut TextColumns,
    bounds: &mut [Bound],
    steps: &mut Steps<L>,
) -> ResolvedText
    requires len { options.now.breaks.now.len ≡ length text.now }
    requires small { length text.now < 2 ^ 32 }
    requires resolver { length text.now ≤ resolver.old }
    requires room { HasTextRoom columns.old (length text.now) }
    requires bounds { length text.now < length bounds.old }
    requires first { IsFirstOf first text.now }
    requires within { first.length ≤ length text.now }
    requires some { 0 < length text.now → 0 < first.length }
    ensures resolver { resolver.new ≡ resolver.old }
    ensures room { KeepsTextRoom columns.old columns.new }
    ensures resolved { IsResolved options.now.limits text.now options.now.direction
        options.now.breaks.now.positions result columns.new bounds.new }
    ensures not_complete { result.complete ≡ false }
    ensures segments { result.segmented ≡ false → HasNoSegments text.now }
    ensures at_least { steps.old + 2 * length text.now + result.paragraphs + result.lines
        ≤ steps.new + first.length }
    ensures at_most { steps.new + first.length ≤ steps.old + text_steps * length text.now }
    ensures if_uniform { result.uniform ≡ true
        → steps.new + first.length ≤ steps.old + uniform_text_steps * length text.now }
{
    if !first.contents.all_remain()
        && is_one_line(text, first.length, options.breaks)
        && resolve_paragraph(
            text,
            first.contents,
            options.direction,
            columns,
            bounds,
            steps,
        )
    {
        return ResolvedText {
            paragraphs: 1,
            lines: 1,
            uniform: true,
            complete: false,
            segmented: true,
        };
    }
    resolve_paragraphs(text, first, options, resolver, columns, bounds, steps)
}
