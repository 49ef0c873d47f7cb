// The text that `reorder` prints, from a layout.
ghost use Rattle.std.specs.Prelude.{◌≡◌, ◌<◌, length, IfErr, OnOk};
ghost use Rattle.std.specs.Io.KnownBytes.{Appends};
ghost use Rattle.units.specs.Classes.{is_separator};
ghost use Rattle.ucdfiles.specs.Tables.{mirror_by};
ghost use Rattle.lines.specs.Layouts.{view_of};
ghost use Rattle.printing.specs.ReorderText.{text_unless, text_of_line, reorder_text};
ghost use Rattle.printing.specs.WaitingBytes.{with_waiting};

use crate::output::Output;
use crate::waiting::Waiting;
use lines::layout::Layout;
use std::io;
use ucdfiles::mirror_table::MirrorTable;
use units::bracket::Unit;
use units::class::Class;

/// A text to be shown: the table of mirrored characters, its characters, and its units.
#[derive(Clone, Copy)]
pub(crate) struct ShownText<'a> {
    pub(crate) mirrors: &'a MirrorTable,
    pub(crate) chars: &'a [char],
    pub(crate) units: &'a [Unit],
}

/// Writes a character in UTF-8, as it is shown, after the waiting bytes, unless the position is a paragraph separator.
fn print_shown<W: Output>(
    w: &mut W,
    waiting: &mut Waiting,
    class: Class,
    character: char,
) -> io::Result<()>
    ensures printed { OnOk result (Appends (with_waiting (W.contents w.old) waiting.old)
        (with_waiting (W.contents w.new) waiting.new) (text_unless (is_separator class) character)) }
    ensures failed { IfErr result (W.failed_with w.new) }
{
    if class.is_separator() {
        return Ok(());
    }
    waiting.print(w, character)
}

/// Writes the line with the number `k` from left to right, and LF, after the waiting bytes. Whether a position is a
/// paragraph separator depends on its own unit, not on the character that is shown for it.
fn print_line<W: Output>(
    w: &mut W,
    waiting: &mut Waiting,
    text: &ShownText<'_>,
    layout: &Layout<'_>,
    k: usize,
) -> io::Result<()>
    requires units { length text.now.units.now ≡ length text.now.chars.now }
    requires levels { length (view_of layout.now).levels ≡ length text.now.chars.now }
    requires line { k < length (view_of layout.now).lines }
    ensures printed { OnOk result (Appends (with_waiting (W.contents w.old) waiting.old)
        (with_waiting (W.contents w.new) waiting.new)
        (text_of_line (mirror_by text.now.mirrors.now) text.now.chars.now text.now.units.now (view_of layout.now) k)) }
    ensures failed { IfErr result (W.failed_with w.new) }
{
    let order = layout.line(k).order;
    for (position, character) in order.iter().zip(layout.shown(text.mirrors, text.chars, k)) {
        print_shown(w, waiting, text.units[*position].class, character)?;
    }
    waiting.print(w, '\n')
}

/// Writes the lines of a text, each from left to right as it is shown (L2, L4), with LF after each.
pub(crate) fn print_lines<W: Output>(
    w: &mut W,
    text: &ShownText<'_>,
    layout: &Layout<'_>,
) -> io::Result<()>
    requires units { length text.now.units.now ≡ length text.now.chars.now }
    requires levels { length (view_of layout.now).levels ≡ length text.now.chars.now }
    ensures written { OnOk result (Appends (W.contents w.old) (W.contents w.new)
        (reorder_text (mirror_by text.now.mirrors.now) text.now.chars.now text.now.units.now (view_of layout.now))) }
    ensures failed { IfErr result (W.failed_with w.new) }
{
    let mut waiting = Waiting::new();
    for k in 0..layout.line_count() {
        print_line(w, &mut waiting, text, layout, k)?;
    }
    waiting.write(w)
}
