// The foot of a paragraph: its isolating run sequences, its bracket pairs, and its order.
ghost use Rattle.std.specs.Prelude.{◌<◌, ◌≤◌, OnOk};
ghost use Rattle.std.specs.List.{All};
ghost use Rattle.std.specs.Io.KnownBytes.{Appends};
ghost use Rattle.units.specs.Layout.{longest_text};
ghost use Rattle.explain.specs.Feet.{positions_text, sequence_text, pair_text, order_text};

use sequences::sequence::Sequence;
use std::io;
use std::io::Write;

/// Writes the positions of a paragraph as positions of the text. The paragraph begins at `start` of the text.
fn print_positions<W: Write>(w: &mut W, start: usize, positions: &[u32]) -> io::Result<()>
    requires { start ≤ longest_text }
    ensures { OnOk result (Appends (W.contents w.old) (W.contents w.new) (positions_text start positions.now)) }
{
    for position in positions {
        let shown = start + *position as usize;
        write!(w, " {shown}")?;
    }
    Ok(())
}

/// Writes the line of a sequence: its number, counted from 0, its level, its sos and eos (X10), and its positions in
/// the text.
pub fn print_sequence<W: Write>(
    w: &mut W,
    number: usize,
    start: usize,
    sequence: &Sequence,
) -> io::Result<()>
    requires { start ≤ longest_text }
    ensures { OnOk result (Appends (W.contents w.old) (W.contents w.new) (sequence_text number start sequence.now)) }
{
    let level = sequence.level().get();
    let sos = sequence.sos().short();
    let eos = sequence.eos().short();
    write!(w, "sequence {number} level {level} sos {sos} eos {eos}:")?;
    print_positions(w, start, sequence.as_slice())?;
    writeln!(w)
}

/// Writes the line of a bracket pair: the positions of its opener and its closer in the text.
pub fn print_pair<W: Write>(w: &mut W, opener: usize, closer: usize) -> io::Result<()>
    ensures { OnOk result (Appends (W.contents w.old) (W.contents w.new) (pair_text opener closer)) }
{
    writeln!(w, "pair {opener} {closer}")
}

/// Writes the line of a paragraph's order: its remaining positions in the text, from left to right (L2).
pub fn print_order<W: Write>(w: &mut W, start: usize, order: &[usize]) -> io::Result<()>
    requires start { start ≤ longest_text }
    requires places { All (λ p. p < longest_text) order.now }
    ensures { OnOk result (Appends (W.contents w.old) (W.contents w.new) (order_text start order.now)) }
{
    write!(w, "order")?;
    for position in order {
        let shown = start + *position;
        write!(w, " {shown}")?;
    }
    writeln!(w)
}
