//! Prints what `explain` prints of a text, or of a row of classes.
ghost use Rattle.std.specs.Prelude.{◌≡◌, ◌≤◌, length, map, Err, IfErr, IfOk, IsOk, OnErr, OnOk};
ghost use Rattle.std.specs.Io.KnownBytes.{Appends};
ghost use Rattle.units.specs.Layout.{longest_text};
ghost use Rattle.units.specs.Paragraphs.{SeparatorOnlyLast};
ghost use Rattle.ucdfiles.specs.Tables.{units_by};
ghost use Rattle.printing.specs.Fronts.{FaultLeavesFront};
ghost use Rattle.explain.specs.Explained.{explained, explained_classes, explained_from, explained_units, plain_unit};

use crate::paragraph_text::{ParagraphPlace, print_paragraph};
use explicit::paragraphs;
use printing::fault::PrintFault;
use rule_columns::columns::columns_of;
use std::alloc::Global;
use std::io::{self, Write};
use ucdfiles::tables::Tables;
use units::bracket::{Bracket, Unit};
use units::class::Class;
use units::level::Direction;
use units::memory::Memory;

/// Returns the units of the given classes, none of which has a bracket. Fails if an allocation fails.
fn plain_units(alloc: Global, classes: &[Class]) -> Result<Vec<Unit>, Memory>
    ensures { IfOk result (λ units. units.items ≡ map plain_unit classes.now) }
{
    let mut units = Vec::with_capacity(alloc, classes.len())?;
    for class in classes {
        let unit = Unit {
            class: *class,
            bracket: Bracket::No,
        };
        match units.push(unit) {
            Ok(()) => {}
            Err(_) => return Err(Memory),
        }
    }
    Ok(units)
}

/// Returns the units of the given characters, from the tables. Fails if an allocation fails.
fn text_units(alloc: Global, tables: &Tables, chars: &[char]) -> Result<Vec<Unit>, Memory>
    ensures { IfOk result (λ units. units.items ≡ units_by tables.now chars.now) }
{
    Ok(tables.units_of(alloc, chars)?)
}

/// Converts the error of a writer into a fault.
fn written(outcome: io::Result<()>) -> Result<(), PrintFault>
    ensures done { OnOk outcome (IsOk result) }
    ensures fault { OnErr outcome (result ≡ Err PrintFault.Write) }
{
    Ok(outcome?)
}

/// Writes what the rules do to a paragraph. `chars` are the characters of the text, if they are known.
fn explain_paragraph<W: Write>(
    alloc: Global,
    w: &mut W,
    chars: &[char],
    para: &[Unit],
    direction: Direction,
    place: ParagraphPlace,
) -> Result<(), PrintFault>
    requires separators { SeparatorOnlyLast para.now }
    requires start { place.start ≤ longest_text }
    requires small { length para.now ≤ longest_text }
    ensures text { OnOk result (Appends (W.contents w.old) (W.contents w.new)
        (explained_from chars.now para.now direction place.start place.number)) }
    ensures fault { IfErr result (FaultLeavesFront
        (explained_from chars.now para.now direction place.start place.number) (W.contents w.old) (W.contents w.new)) }
{
    let columns = columns_of(alloc, para, direction)?;
    written(print_paragraph(w, chars, para, &columns, direction, place))
}

/// Writes what `print_explained` writes, for a text of the given units. `chars` are the characters of the text. If they
/// are not known, each row has `-` instead of a code point. The text may have 16,777,216 units. The faults are the
/// same.
pub fn print_units<W: Write>(
    alloc: Global,
    w: &mut W,
    chars: &[char],
    text: &[Unit],
    direction: Direction,
) -> Result<(), PrintFault>
    requires { length text.now ≤ longest_text }
    ensures text { OnOk result (Appends (W.contents w.old) (W.contents w.new)
        (explained_units chars.now text.now direction)) }
    ensures fault { IfErr result (FaultLeavesFront
        (explained_units chars.now text.now direction) (W.contents w.old) (W.contents w.new)) }
{
    let mut start = 0;
    for (number, para) in paragraphs(text).enumerate() {
        let place = ParagraphPlace { number, start };
        explain_paragraph(alloc, w, chars, para, direction, place)?;
        start += para.len();
    }
    Ok(())
}

/// Writes what the algorithm does to a text, rule by rule: for each paragraph (P1) a heading, a row for each position,
/// and a foot. Positions are positions of the whole text, from 0. Each line ends with LF, and its items are separated
/// by one blank.
///
/// The heading contains the number of the paragraph, from 0, its level, and what decides the level: the class and the
/// position of the first strong character outside isolates (P2), that there is none (P3), or that the direction gives
/// the level. A second line names the columns.
///
/// A row contains these columns, in this order:
/// - the position, the code point and the original class;
/// - the level after X1 to X9, or `x` if the position is removed;
/// - the class after X1 to X9, and after each of W1 to W7, N0, N1 and N2;
/// - the level after I1 and I2, and the level after L1, with the paragraph as one line.
///
/// After the first level, `.` means that the rule changes nothing.
///
/// The foot contains the isolating run sequences (X10), each with its level, its sos, its eos and its positions. Then
/// come the bracket pairs (BD16) in the order of their openers, and the remaining positions from left to right (L2).
///
/// The text may have 16,777,216 characters. Fails with `Write` if the writer fails, and with `Memory` if an allocation
/// fails. After `Memory`, the output is a prefix of that text, or empty. After `Write`, it is not known how much the
/// writer took.
pub fn print_explained<W: Write>(
    alloc: Global,
    w: &mut W,
    tables: &Tables,
    text: &[char],
    direction: Direction,
) -> Result<(), PrintFault>
    requires { length text.now ≤ longest_text }
    ensures text { OnOk result (Appends (W.contents w.old) (W.contents w.new)
        (explained tables.now text.now direction)) }
    ensures fault { IfErr result (FaultLeavesFront
        (explained tables.now text.now direction) (W.contents w.old) (W.contents w.new)) }
{
    let units = text_units(alloc, tables, text)?;
    print_units(alloc, w, text, &units, direction)
}

/// Writes what `print_explained` writes, for a text whose characters have the given classes, none of which has a
/// bracket. Each row has `-` instead of a code point. There may be 16,777,216 classes. The faults are the same.
pub fn print_explained_classes<W: Write>(
    alloc: Global,
    w: &mut W,
    classes: &[Class],
    direction: Direction,
) -> Result<(), PrintFault>
    requires { length classes.now ≤ longest_text }
    ensures text { OnOk result (Appends (W.contents w.old) (W.contents w.new)
        (explained_classes classes.now direction)) }
    ensures fault { IfErr result (FaultLeavesFront
        (explained_classes classes.now direction) (W.contents w.old) (W.contents w.new)) }
{
    let units = plain_units(alloc, classes)?;
    print_units(alloc, w, &[], &units, direction)
}
