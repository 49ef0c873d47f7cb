//! The texts that `levels` and `reorder` print.
ghost use Rattle.std.specs.Prelude.{◌≡◌, ◌≤◌, length, IfErr, OnOk};
ghost use Rattle.std.specs.Io.KnownBytes.{Appends};
ghost use Rattle.units.specs.Layout.{longest_text};
ghost use Rattle.printing.specs.FailedWrites.{IsFaultAfter, StopsAfter};
ghost use Rattle.printing.specs.Following.{printed_as};
ghost use Rattle.printing.specs.PrintedTexts.{printed_levels, printed_reorder};
ghost use Rattle.printing.specs.UnfinishedParagraphs.{chars_so_far};

use crate::begun::Begun;
use crate::fault::{PrintFault, PrintStop};
use crate::form::Form;
use crate::output::Output;
use crate::paragraphs::{print_last, take_character};
use crate::settings::Settings;
use std::alloc::Global;
use std::num::NonZeroU16;
use ucdfiles::tables::Tables;
use units::level::Direction;

/// Writes a text in this form, as `print_chars` does, with a new `Begun`.
fn print_each<W: Output>(
    alloc: Global,
    w: &mut W,
    text: &[char],
    begun: &mut Begun<'_>,
) -> Result<(), PrintStop>
    requires small { length text.now ≤ longest_text }
    requires new { chars_so_far begun.old.paragraph ≡ 0 }
    ensures printed { OnOk result (Appends (W.contents w.old) (W.contents w.new)
        (printed_as begun.old.settings.form begun.old.settings.tables.now text.now begun.old.settings.direction)) }
    ensures stopped { IfErr result (StopsAfter (W.failed_with w.new)) }
{
    let borrowed = begun.settings.tables.units();
    for k in 0..text.len() {
        let character = text[k];
        let unit = borrowed.unit(character);
        take_character(alloc, w, begun, character, unit)?;
    }
    print_last(alloc, w, begun)
}

/// Writes a text in this form, paragraph by paragraph, as `print_levels` and `print_reorder` describe. Each paragraph
/// is laid out when it ends, and written before the next one is read.
fn print_chars<W: Output>(
    alloc: Global,
    w: &mut W,
    tables: &Tables,
    text: &[char],
    direction: Direction,
    form: Form,
) -> Result<(), PrintFault>
    requires { length text.now ≤ longest_text }
    ensures printed { OnOk result (Appends (W.contents w.old) (W.contents w.new)
        (printed_as form tables.now text.now direction)) }
    ensures fault { IfErr result (IsFaultAfter (W.failed_with w.new)) }
{
    let settings = Settings {
        tables,
        direction,
        form,
    };
    let mut begun = Begun::new(alloc, settings)?;
    print_each(alloc, w, text, &mut begun)?;
    Ok(())
}

/// Writes the levels of a text. For each paragraph it writes a line with the paragraph's number, counted from 0, and
/// its level (P2, P3). Then it writes for each position of the paragraph a line with the position in the whole text,
/// the code point, the original class and the level after L1, or `x` if the position was removed (X9). The text may
/// have up to 16,777,216 characters. Fails with `Write` if the writer fails; it is then not known how much the writer
/// took. Fails with `Memory` if memory runs out.
pub fn print_levels<W: Output>(
    alloc: Global,
    w: &mut W,
    tables: &Tables,
    text: &[char],
    direction: Direction,
) -> Result<(), PrintFault>
    requires { length text.now ≤ longest_text }
    ensures printed { OnOk result (Appends (W.contents w.old) (W.contents w.new)
        (printed_levels tables.now text.now direction)) }
    ensures fault { IfErr result (IsFaultAfter (W.failed_with w.new)) }
{
    print_chars(alloc, w, tables, text, direction, Form::Levels)
}

/// Writes a text as it is shown: each line from left to right (L2), in UTF-8, with mirrored characters at odd levels
/// (L4), without paragraph separators and removed positions (X9), and with LF after it. If `columns` is some, a line
/// breaks at every `columns` positions, counted from the paragraph's start, unless a paragraph separator is there;
/// removed positions count too. Otherwise each paragraph is one line. The text may have up to 16,777,216 characters.
/// Fails with `Write` if the writer fails; it is then not known how much the writer took. Fails with `Memory` if memory
/// runs out.
pub fn print_reorder<W: Output>(
    alloc: Global,
    w: &mut W,
    tables: &Tables,
    text: &[char],
    direction: Direction,
    columns: Option<NonZeroU16>,
) -> Result<(), PrintFault>
    requires { length text.now ≤ longest_text }
    ensures printed { OnOk result (Appends (W.contents w.old) (W.contents w.new)
        (printed_reorder tables.now text.now direction columns)) }
    ensures fault { IfErr result (IsFaultAfter (W.failed_with w.new)) }
{
    print_chars(alloc, w, tables, text, direction, Form::Reorder { columns })
}
