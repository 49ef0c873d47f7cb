// A text printed paragraph by paragraph, as its characters arrive.
ghost use Rattle.std.specs.Prelude.{◌≡◌, ◌<◌, ◌≤◌, ◌+◌, [], ◌∷◌, length, IfErr, OnOk};
ghost use Rattle.std.specs.Io.KnownBytes.{Appends};
ghost use Rattle.units.specs.Layout.{layout_of, longest_text};
ghost use Rattle.units.specs.Limits.{standard};
ghost use Rattle.units.specs.Paragraphs.{SeparatorOnlyLast};
ghost use Rattle.lines.specs.Scratches.{room_of};
ghost use Rattle.ucdfiles.specs.Tables.{mirror_by, unit_by, units_by};
ghost use Rattle.printing.specs.FailedWrites.{StopsAfter};
ghost use Rattle.printing.specs.Following.{levels_after, printed_after, printed_units};
ghost use Rattle.printing.specs.PrintedTexts.{breaks_of, lines_text};
ghost use Rattle.printing.specs.UnderWay.{PrintsOn, printed_next};
ghost use Rattle.printing.specs.UnfinishedParagraphs.{Follows, chars_so_far};

use crate::begun::Begun;
use crate::columns::breaks_of;
use crate::fault::PrintStop;
use crate::form::Form;
use crate::layout_text::print_one_paragraph;
use crate::output::Output;
use crate::passed::Passed;
use crate::reorder_text::{ShownText, print_lines};
use crate::settings::Settings;
use crate::unfinished::Unfinished;
use lines::breaks::Breaks;
use lines::lay_out::lay_out_into;
use lines::scratch::Scratch;
use std::alloc::Global;
use std::num::NonZeroU16;
use units::bracket::Unit;
use units::level::Direction;

/// Lays out a paragraph that comes after `passed`, and writes its levels.
fn print_levels_of<W: Output>(
    w: &mut W,
    passed: Passed,
    chars: &[char],
    units: &[Unit],
    direction: Direction,
    scratch: &mut Scratch,
) -> Result<(), PrintStop>
    requires units { length units.now ≡ length chars.now }
    requires some { 0 < length chars.now }
    requires one { SeparatorOnlyLast units.now }
    requires small { passed.characters + length chars.now ≤ longest_text }
    requires room { length units.now ≤ room_of scratch.old }
    ensures printed { OnOk result (Appends (W.contents w.old) (W.contents w.new)
        (levels_after passed chars.now units.now (layout_of standard units.now direction []))) }
    ensures stopped { IfErr result (StopsAfter (W.failed_with w.new)) }
{
    let breaks = Breaks::new(&[], units.len()).unwrap();
    lay_out_into(scratch, units, direction, &breaks).unwrap();
    print_one_paragraph(w, passed, chars, units, &scratch.layout())?;
    Ok(())
}

/// Lays out a paragraph, with breaks at columns if `columns` is some, and writes its lines as they are shown.
fn print_lines_of<W: Output>(
    alloc: Global,
    w: &mut W,
    text: &ShownText<'_>,
    direction: Direction,
    columns: Option<NonZeroU16>,
    scratch: &mut Scratch,
) -> Result<(), PrintStop>
    requires units { length text.now.units.now ≡ length text.now.chars.now }
    requires room { length text.now.units.now ≤ room_of scratch.old }
    ensures printed { OnOk result (Appends (W.contents w.old) (W.contents w.new)
        (lines_text (mirror_by text.now.mirrors.now) text.now.chars.now text.now.units.now direction
        (breaks_of text.now.units.now columns))) }
    ensures stopped { IfErr result (StopsAfter (W.failed_with w.new)) }
{
    let units = text.units;
    let positions = breaks_of(alloc, units, columns)?;
    let breaks = Breaks::new(&positions, units.len()).unwrap();
    lay_out_into(scratch, units, direction, &breaks).unwrap();
    print_lines(w, text, &scratch.layout())?;
    Ok(())
}

/// Writes the unfinished paragraph in this form.
fn print_as<W: Output>(
    alloc: Global,
    w: &mut W,
    settings: &Settings<'_>,
    paragraph: &mut Unfinished,
) -> Result<(), PrintStop>
    requires len { length paragraph.old.units.items ≡ length paragraph.old.chars.items }
    requires some { 0 < length paragraph.old.chars.items }
    requires one { SeparatorOnlyLast paragraph.old.units.items }
    requires small { chars_so_far paragraph.old ≤ longest_text }
    ensures printed { OnOk result (Appends (W.contents w.old) (W.contents w.new)
        (printed_units settings.now.form paragraph.old.passed settings.now.tables.now
        paragraph.old.chars.items paragraph.old.units.items settings.now.direction)) }
    ensures stopped { IfErr result (StopsAfter (W.failed_with w.new)) }
    ensures chars { paragraph.new.chars.items ≡ paragraph.old.chars.items }
    ensures passed { paragraph.new.passed ≡ paragraph.old.passed }
{
    paragraph.reserve_one(alloc)?;
    match settings.form {
        Form::Levels => {
            let Unfinished {
                passed,
                chars,
                units,
                scratch,
            } = paragraph;
            print_levels_of(w, *passed, chars, units, settings.direction, scratch)
        }
        Form::Reorder { columns } => {
            let text = ShownText {
                mirrors: settings.tables.mirrors(),
                chars: &paragraph.chars,
                units: &paragraph.units,
            };
            print_lines_of(
                alloc,
                w,
                &text,
                settings.direction,
                columns,
                &mut paragraph.scratch,
            )
        }
    }
}

/// Writes the unfinished paragraph, which now has all of its characters, and passes it, also if it can't be written.
#[inline(never)]
fn print_unfinished<W: Output>(
    alloc: Global,
    w: &mut W,
    settings: &Settings<'_>,
    paragraph: &mut Unfinished,
) -> Result<(), PrintStop>
    requires units { paragraph.old.units.items ≡ units_by settings.now.tables.now paragraph.old.chars.items }
    requires some { 0 < length paragraph.old.chars.items }
    requires one { SeparatorOnlyLast paragraph.old.units.items }
    requires small { chars_so_far paragraph.old ≤ longest_text }
    requires few { paragraph.old.passed.paragraphs ≤ paragraph.old.passed.characters }
    ensures printed { OnOk result (Appends (W.contents w.old) (W.contents w.new)
        (printed_after settings.now.form paragraph.old.passed settings.now.tables.now paragraph.old.chars.items
        settings.now.direction)) }
    ensures stopped { IfErr result (StopsAfter (W.failed_with w.new)) }
    ensures chars { paragraph.new.chars.items ≡ [] }
    ensures units { paragraph.new.units.items ≡ [] }
    ensures passed { Follows paragraph.old.passed (length paragraph.old.chars.items) paragraph.new.passed }
{
    let printed = print_as(alloc, w, settings, paragraph);
    paragraph.pass();
    printed
}

/// Adds a character with its unit to the unfinished paragraph. If the character ends the paragraph (P1), writes it.
#[inline(always)]
pub(crate) fn take_character<W: Output>(
    alloc: Global,
    w: &mut W,
    begun: &mut Begun<'_>,
    character: char,
    unit: Unit,
) -> Result<(), PrintStop>
    requires small { chars_so_far begun.old.paragraph < longest_text }
    requires unit { unit ≡ unit_by begun.old.settings.tables.now character }
    ensures passed_in { OnOk result (chars_so_far begun.new.paragraph ≡ chars_so_far begun.old.paragraph + 1) }
    ensures printed { OnOk result (PrintsOn (character ∷ []) (W.contents w.old) (W.contents w.new)
        begun.old begun.new) }
    ensures stopped { IfErr result (StopsAfter (W.failed_with w.new)) }
{
    begun.paragraph.add(character, unit)?;
    if unit.class.is_separator() {
        print_unfinished(alloc, w, &begun.settings, &mut begun.paragraph)?;
    }
    Ok(())
}

/// Writes the unfinished paragraph at the end of the text, if it has characters.
pub(crate) fn print_last<W: Output>(
    alloc: Global,
    w: &mut W,
    begun: &mut Begun<'_>,
) -> Result<(), PrintStop>
    requires { chars_so_far begun.old.paragraph ≤ longest_text }
    ensures printed { OnOk result (Appends (W.contents w.old) (W.contents w.new)
        (printed_next begun.old begun.old.paragraph.chars.items)) }
    ensures stopped { IfErr result (StopsAfter (W.failed_with w.new)) }
{
    if begun.paragraph.chars.is_empty() {
        return Ok(());
    }
    print_unfinished(alloc, w, &begun.settings, &mut begun.paragraph)
}
