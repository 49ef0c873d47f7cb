// The text of a paragraph, from the results of each rule.
ghost use Rattle.std.specs.Prelude.{◌≡◌, ◌<◌, ◌≤◌, length, slice_get, OnOk, IfSome};
ghost use Rattle.std.specs.Io.KnownBytes.{Appends};
ghost use Rattle.units.specs.Classes.{class_at};
ghost use Rattle.units.specs.Layout.{longest_text};
ghost use Rattle.printing.specs.LevelsText.{printed};
ghost use Rattle.rule_columns.specs.Columns.{HaveLength, column_after};
ghost use Rattle.rule_columns.specs.Inside.{NamesInside};
ghost use Rattle.explain.specs.Explained.{classes_through, foot_text, levels_through, pair_at, pair_if, paragraph_explained, position_text_at, sequence_line};

use crate::foot::{print_order, print_pair, print_sequence};
use crate::heading::{decider_of, print_heading};
use crate::position::{PositionLevels, print_position};
use rule_columns::columns::Columns;
use rule_columns::rule::Rule;
use std::io;
use std::io::Write;
use units::bracket::Unit;
use units::class::Class;
use units::level::Direction;

/// Where a paragraph is in its text.
#[derive(Clone, Copy)]
pub struct ParagraphPlace {
    /// The number of the paragraph, counted from 0.
    pub number: usize,
    /// The position of the text at which the paragraph begins.
    pub start: usize,
}

/// Returns the class of the position `p` after a rule.
fn class_after(columns: &Columns, rule: Rule, p: usize, size: usize) -> Class
    requires length { HaveLength columns.now size }
    requires inside { p < size }
    ensures { result ≡ class_at (column_after columns.now rule) p }
{
    columns.classes_after(rule)[p]
}

/// Returns the original class of the position `p`, and its class after each rule.
fn classes_through(columns: &Columns, para: &[Unit], p: usize) -> [Class; 12]
    requires length { HaveLength columns.now (length para.now) }
    requires inside { p < length para.now }
    ensures { result ≡ classes_through columns.now para.now p }
{
    let size = para.len();
    [
        para[p].class,
        class_after(columns, Rule::X, p, size),
        class_after(columns, Rule::W1, p, size),
        class_after(columns, Rule::W2, p, size),
        class_after(columns, Rule::W3, p, size),
        class_after(columns, Rule::W4, p, size),
        class_after(columns, Rule::W5, p, size),
        class_after(columns, Rule::W6, p, size),
        class_after(columns, Rule::W7, p, size),
        class_after(columns, Rule::N0, p, size),
        class_after(columns, Rule::N1, p, size),
        class_after(columns, Rule::N2, p, size),
    ]
}

/// Returns the levels of the position `p`.
fn levels_through(columns: &Columns, p: usize, size: usize) -> PositionLevels
    requires length { HaveLength columns.now size }
    requires inside { p < size }
    ensures { result ≡ levels_through columns.now p }
{
    PositionLevels {
        explicit: columns.leveled(p).map(|leveled| leveled.0),
        implicit: columns.implicit()[p],
        line: columns.levels()[p],
    }
}

/// Returns the character at a position of the text, if it is known.
fn character_at(chars: &[char], position: usize) -> Option<char>
    ensures { result ≡ slice_get chars.now position }
{
    chars.get(position).copied()
}

/// Writes the line of the position `p` of a paragraph that begins at `start` of the text.
fn print_position_at<W: Write>(
    w: &mut W,
    chars: &[char],
    para: &[Unit],
    columns: &Columns,
    start: usize,
    p: usize,
) -> io::Result<()>
    requires start { start ≤ longest_text }
    requires small { length para.now ≤ longest_text }
    requires length { HaveLength columns.now (length para.now) }
    requires inside { p < length para.now }
    ensures { OnOk result (Appends (W.contents w.old) (W.contents w.new)
        (position_text_at chars.now para.now columns.now start p)) }
{
    let position = start + p;
    let character = character_at(chars, position);
    let classes = classes_through(columns, para, p);
    let levels = levels_through(columns, p, para.len());
    print_position(w, position, character, &classes, levels)
}

/// Writes the lines of the positions of a paragraph that begins at `start` of the text.
fn print_position_lines<W: Write>(
    w: &mut W,
    chars: &[char],
    para: &[Unit],
    columns: &Columns,
    start: usize,
) -> io::Result<()>
    requires start { start ≤ longest_text }
    requires small { length para.now ≤ longest_text }
    requires length { HaveLength columns.now (length para.now) }
    ensures { OnOk result (Appends (W.contents w.old) (W.contents w.new)
        (printed (position_text_at chars.now para.now columns.now start) 0 (length para.now))) }
{
    for p in 0..para.len() {
        print_position_at(w, chars, para, columns, start, p)?;
    }
    Ok(())
}

/// Writes the lines of the sequences of a paragraph that begins at `start` of the text.
fn print_sequences<W: Write>(w: &mut W, columns: &Columns, start: usize) -> io::Result<()>
    requires start { start ≤ longest_text }
    ensures { OnOk result (Appends (W.contents w.old) (W.contents w.new)
        (printed (sequence_line columns.now start) 0 (length columns.now.explicit.sequences))) }
{
    let sequences = columns.sequences();
    for k in 0..sequences.count() {
        print_sequence(w, k, start, &sequences.get(k))?;
    }
    Ok(())
}

/// Writes the line of the pair that opens at the position `opener` of a paragraph, if there is one.
fn print_pair_if<W: Write>(
    w: &mut W,
    start: usize,
    opener: usize,
    closer: Option<usize>,
) -> io::Result<()>
    requires start { start ≤ longest_text }
    requires opener { opener ≤ longest_text }
    requires closer { IfSome closer (λ p. p ≤ longest_text) }
    ensures { OnOk result (Appends (W.contents w.old) (W.contents w.new) (pair_if start opener closer)) }
{
    match closer {
        Some(closer) => print_pair(w, start + opener, start + closer),
        None => Ok(()),
    }
}

/// Writes the lines of the bracket pairs of a paragraph that begins at `start` of the text.
fn print_pairs<W: Write>(w: &mut W, columns: &Columns, start: usize, size: usize) -> io::Result<()>
    requires start { start ≤ longest_text }
    requires small { size ≤ longest_text }
    requires length { HaveLength columns.now size }
    requires inside { NamesInside columns.now size }
    ensures { OnOk result (Appends (W.contents w.old) (W.contents w.new)
        (printed (pair_at columns.now start) 0 size)) }
{
    for p in 0..size {
        print_pair_if(w, start, p, columns.closer(p))?;
    }
    Ok(())
}

/// Writes the foot of a paragraph that begins at `start` of the text.
fn print_foot<W: Write>(w: &mut W, columns: &Columns, start: usize, size: usize) -> io::Result<()>
    requires start { start ≤ longest_text }
    requires small { size ≤ longest_text }
    requires length { HaveLength columns.now size }
    requires inside { NamesInside columns.now size }
    ensures { OnOk result (Appends (W.contents w.old) (W.contents w.new) (foot_text columns.now start size)) }
{
    print_sequences(w, columns, start)?;
    print_pairs(w, columns, start, size)?;
    print_order(w, start, columns.order())
}

/// Writes the text of a paragraph: its heading, the lines of its positions, and its foot.
///
/// `columns` are the results of each rule, and `chars` are the characters of the whole text, if they are known.
pub fn print_paragraph<W: Write>(
    w: &mut W,
    chars: &[char],
    para: &[Unit],
    columns: &Columns,
    direction: Direction,
    place: ParagraphPlace,
) -> io::Result<()>
    requires start { place.start ≤ longest_text }
    requires small { length para.now ≤ longest_text }
    requires length { HaveLength columns.now (length para.now) }
    requires inside { NamesInside columns.now (length para.now) }
    ensures { OnOk result (Appends (W.contents w.old) (W.contents w.new)
        (paragraph_explained chars.now para.now columns.now direction place.start place.number)) }
{
    let decider = decider_of(direction, para, place.start, columns.first_strong());
    print_heading(w, place.number, columns.para_level(), decider)?;
    print_position_lines(w, chars, para, columns, place.start)?;
    print_foot(w, columns, place.start, para.len())
}
