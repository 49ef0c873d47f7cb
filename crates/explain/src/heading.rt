// The heading of a paragraph: its level, what decided it, and the names of the columns.
ghost use Rattle.std.specs.Prelude.{◌≡◌, ◌<◌, ◌≤◌, length, OnOk, IfSome, Some};
ghost use Rattle.std.specs.Io.KnownBytes.{Appends};
ghost use Rattle.units.specs.Isolates.{level_of_para};
ghost use Rattle.units.specs.Layout.{longest_text};
ghost use Rattle.explain.specs.Headings.{decider_by, decider_of, decider_text, heading_text};

use std::io::Write;
use std::{fmt, io};
use units::bracket::Unit;
use units::class::Class;
use units::level::{Direction, ParaLevel};

/// What decides the level of a paragraph.
#[derive(Clone, Copy)]
pub enum Decider {
    /// The requested direction.
    Given,
    /// There is no strong character outside isolates (P3).
    NoStrong,
    /// The first strong character outside isolates (P2): its class, and its position in the text.
    Strong(Class, usize),
}

impl fmt::Display for Decider {
    ghost output = { λ decider. Some (decider_text decider) };

    fn fmt<W: fmt::Write>(&self, f: &mut fmt::Formatter<W>) -> fmt::Result {
        match self {
            Decider::Given => f.write_str("given"),
            Decider::NoStrong => f.write_str("no strong character"),
            Decider::Strong(class, position) => write!(f, "{} at {position}", class.short()),
        }
    }
}

/// Returns the first strong character outside isolates, if there is one.
fn decider_by(para: &[Unit], start: usize, first_strong: Option<usize>) -> Decider
    requires start { start ≤ longest_text }
    requires small { length para.now ≤ longest_text }
    requires inside { IfSome first_strong (λ p. p < length para.now) }
    ensures { result ≡ decider_by para.now start first_strong }
{
    match first_strong {
        Some(p) => Decider::Strong(para[p].class, start + p),
        None => Decider::NoStrong,
    }
}

/// Returns what decides the level of a paragraph that begins at `start` of the text. `first_strong` is the position, in
/// the paragraph, of its first strong character outside isolates, if it has one.
pub fn decider_of(
    direction: Direction,
    para: &[Unit],
    start: usize,
    first_strong: Option<usize>,
) -> Decider
    requires start { start ≤ longest_text }
    requires small { length para.now ≤ longest_text }
    requires inside { IfSome first_strong (λ p. p < length para.now) }
    ensures { result ≡ decider_of direction para.now start first_strong }
{
    match direction {
        Direction::Ltr | Direction::Rtl => Decider::Given,
        Direction::Auto | Direction::AutoRtl => decider_by(para, start, first_strong),
    }
}

/// Writes the heading of a paragraph: its number, counted from 0, its level, what decides it, and a line with the names
/// of the columns.
pub fn print_heading<W: Write>(
    w: &mut W,
    number: usize,
    level: ParaLevel,
    decider: Decider,
) -> io::Result<()>
    ensures { OnOk result (Appends (W.contents w.old) (W.contents w.new)
        (heading_text number (level_of_para level) decider)) }
{
    let level = level.level().get();
    writeln!(w, "paragraph {number} level {level}: {decider}")?;
    writeln!(
        w,
        "position code class level X W1 W2 W3 W4 W5 W6 W7 N0 N1 N2 I L1"
    )
}
