//! A text printed while it is read.
ghost use Rattle.std.specs.Prelude.{◌≡◌, ◌<◌, ◌≤◌, ◌+◌, ℕ, List, length, take, IfErr, IfOk, OnOk};
ghost use Rattle.std.specs.Str.{chars};
ghost use Rattle.units.specs.Layout.{longest_text};
ghost use Rattle.printing.specs.FailedWrites.{ReportsFailure, StopsAfter};
ghost use Rattle.printing.specs.ReadTexts.{BreaksOff, EndsUnwritten, IsPrinted, IsReadUpTo, utf8_front};
ghost use Rattle.printing.specs.UnderWay.{PrintsOn};
ghost use Rattle.printing.specs.UnfinishedParagraphs.{chars_so_far};

use crate::begun::Begun;
use crate::cutting::{hold, utf8_front};
use crate::fault::PrintStop;
use crate::form::Form;
use crate::output::Output;
use crate::paragraphs::{print_last, take_character};
use crate::place::TextPlace;
use crate::settings::Settings;
use crate::written::Written;
use std::alloc::Global;
use ucdfiles::tables::Tables;
use units::level::Direction;
use units::memory::Memory;
use units::source::ByteSource;

/// The reason why a text that is read was not printed completely.
#[derive(Clone, Copy, Debug, PartialEq, Eq)]
pub enum TextFault {
    /// The source failed.
    Read { written: Written },
    /// The bytes are not UTF-8. `place` is the place after their longest front that is.
    NotUtf8 { place: TextPlace, written: Written },
    /// A write failed. The source has ended, and its bytes are UTF-8.
    Write,
    /// A write failed because nobody reads what is written any more. The source was not read further.
    NobodyReads,
    /// Memory was refused.
    Memory,
}

impl From<PrintStop> for TextFault {
    ghost use Rattle.std.specs.Prelude.{◌≡◌};
    ghost use Rattle.printing.specs.ReadTexts.{stopped_by};

    ghost from_gives = { λ stop fault. fault ≡ stopped_by stop };

    fn from(stop: PrintStop) -> Self {
        match stop {
            PrintStop::NobodyReads => Self::NobodyReads,
            PrintStop::Write => Self::Write,
            PrintStop::Memory => Self::Memory,
        }
    }
}

impl From<Memory> for TextFault {
    ghost use Rattle.std.specs.Prelude.{◌≡◌};
    ghost use Rattle.printing.specs.declared.reading.TextFault.TheVariants as text_fault;

    ghost from_gives = { λ _ fault. fault ≡ text_fault.Memory };

    fn from(_memory: Memory) -> Self {
        Self::Memory
    }
}

/// Adds these characters to the unfinished paragraph, and writes each paragraph that one of them ends.
fn take_text<W: Output>(
    alloc: Global,
    w: &mut W,
    begun: &mut Begun<'_>,
    text: &str,
) -> Result<(), PrintStop>
    requires { chars_so_far begun.old.paragraph + length text.now ≤ longest_text }
    ensures passed_in { OnOk result (chars_so_far begun.new.paragraph
        ≡ chars_so_far begun.old.paragraph + length (chars text.now)) }
    ensures printed { OnOk result (PrintsOn (chars text.now) (W.contents w.old) (W.contents w.new)
        begun.old begun.new) }
    ensures stopped { IfErr result (StopsAfter (W.failed_with w.new)) }
{
    let borrowed = begun.settings.tables.units();
    for character in text.chars() {
        let unit = borrowed.unit(character);
        take_character(alloc, w, begun, character, unit)?;
    }
    Ok(())
}

/// Takes the longest front of these bytes that is UTF-8, and writes each paragraph that ends in it. Flushes the writer
/// if a paragraph has ended. Returns how many bytes the front has.
fn take_front<W: Output>(
    alloc: Global,
    w: &mut W,
    begun: &mut Begun<'_>,
    bytes: &[u8],
) -> Result<usize, PrintStop>
    requires { chars_so_far begun.old.paragraph + length bytes.now ≤ longest_text }
    ensures taken { IfOk result (λ taken. taken ≡ length (utf8_front bytes.now)) }
    ensures passed_in { OnOk result (chars_so_far begun.new.paragraph
        ≡ chars_so_far begun.old.paragraph + length (chars (utf8_front bytes.now))) }
    ensures printed { OnOk result (PrintsOn (chars (utf8_front bytes.now)) (W.contents w.old) (W.contents w.new)
        begun.old begun.new) }
    ensures stopped { IfErr result (StopsAfter (W.failed_with w.new)) }
{
    let passed = begun.paragraph.passed.paragraphs;
    let front = utf8_front(bytes);
    take_text(alloc, w, begun, front)?;
    if begun.paragraph.passed.paragraphs > passed {
        w.flush_out()?;
    }
    Ok(front.len())
}

/// Reads the source to its end without printing, and returns the first fault. The buffer begins with `filled` bytes
/// whose characters were not taken yet, and `place` is the place before these bytes.
fn read_on<S: ByteSource>(
    source: &mut S,
    mut place: TextPlace,
    buffer: &mut [u8],
    mut filled: usize,
) -> TextFault
    requires long { 4 < length buffer.old }
    requires filled { filled ≤ length buffer.old }
    requires line { place.line ≤ place.offset + 1 }
    requires bound { place.offset + filled + S.most_remaining source.old ≤ longest_text }
    ensures { (start : S) → IsReadUpTo S.gives start source.old place (take filled buffer.old)
        → (given : List ℕ) × S.gives start given source.new
        × EndsUnwritten (S.failures source.new ≡ 1) (S.ended source.new) given result }
{
    loop {
        let taken = utf8_front(&buffer[..filled]).len();
        place = place.after(&buffer[..taken]);
        let stored = hold(buffer, taken, filled);
        let written = Written::CutOff;
        match source.read(&mut buffer[stored..]) {
            Err(_) => return TextFault::Read { written },
            Ok(0) if stored > 0 => return TextFault::NotUtf8 { place, written },
            Ok(0) => return TextFault::Write,
            Ok(n) => filled = stored + n,
        }
    }
}

/// Returns the fault of a text whose printing stopped. Reads the source to its end, as `read_on` does, only if a write
/// failed and somebody may still read the output.
fn end_unwritten<S: ByteSource>(
    stop: PrintStop,
    source: &mut S,
    place: TextPlace,
    buffer: &mut [u8],
    filled: usize,
) -> TextFault
    requires long { 4 < length buffer.old }
    requires filled { filled ≤ length buffer.old }
    requires line { place.line ≤ place.offset + 1 }
    requires bound { place.offset + filled + S.most_remaining source.old ≤ longest_text }
    ensures unread { stop ≡ PrintStop.NobodyReads
        → (result ≡ TextFault.NobodyReads) × (source.new ≡ source.old) }
    ensures memory { stop ≡ PrintStop.Memory → (result ≡ TextFault.Memory) × (source.new ≡ source.old) }
    ensures write { stop ≡ PrintStop.Write
        → (start : S) → IsReadUpTo S.gives start source.old place (take filled buffer.old)
        → (given : List ℕ) × S.gives start given source.new
        × EndsUnwritten (S.failures source.new ≡ 1) (S.ended source.new) given result }
{
    match stop {
        PrintStop::Write => read_on(source, place, buffer, filled),
        _ => TextFault::from(stop),
    }
}

/// Reads the source to its end and writes its text, as `print_source` does, with a new `Begun`.
fn read_text<S: ByteSource, W: Output>(
    alloc: Global,
    w: &mut W,
    source: &mut S,
    begun: &mut Begun<'_>,
) -> Result<(), TextFault>
    requires bound { S.most_remaining source.old ≤ longest_text }
    requires new { chars_so_far begun.old.paragraph ≡ 0 }
    ensures whole { OnOk result (S.ended source.new) }
    ensures printed { OnOk result ((given : List ℕ) × S.gives source.old given source.new
        × IsPrinted begun.old.settings.form begun.old.settings.tables.now begun.old.settings.direction given
        (W.contents w.old) (W.contents w.new)) }
    ensures fault { IfErr result (λ fault. (given : List ℕ) × S.gives source.old given source.new
        × BreaksOff (S.failures source.new ≡ 1) (S.ended source.new)
        begun.old.settings.form begun.old.settings.tables.now begun.old.settings.direction given
        (W.contents w.old) (W.contents w.new) fault) }
    ensures reported { IfErr result (ReportsFailure (W.failed_with w.new)) }
{
    let written = Written::Whole;
    let mut place = TextPlace::start();
    let mut buffer = [0; 4096];
    let mut stored = 0;
    loop {
        match source.read(&mut buffer[stored..]) {
            Err(_) => return Err(TextFault::Read { written }),
            Ok(0) => break,
            Ok(n) => {
                let filled = stored + n;
                match take_front(alloc, w, begun, &buffer[..filled]) {
                    Ok(taken) => {
                        place = place.after(&buffer[..taken]);
                        stored = hold(&mut buffer, taken, filled);
                    }
                    Err(stop) => {
                        return Err(end_unwritten(stop, source, place, &mut buffer, filled));
                    }
                }
            }
        }
    }
    if stored > 0 {
        return Err(TextFault::NotUtf8 { place, written });
    }
    print_last(alloc, w, begun)?;
    Ok(())
}

/// Reads the source to its end and writes its text, which is in UTF-8, in this form (`printed_as`). Each paragraph is
/// written and flushed as soon as the character that ends it is read, and the last one at the end. The source may give
/// up to 16,777,216 bytes. The function reads at most 4,096 bytes at a time, and allocates about 100 bytes for each
/// character of the longest paragraph.
///
/// Returns the first of these faults, also if a write failed before it:
///
/// - `Read` if the source has failed;
/// - `NotUtf8` if the source has ended and its bytes are not UTF-8, with the place after the longest front that is;
/// - `Write` if a write or a flush failed.
///
/// So the source is read to its end after a failed write, and nothing more is written or stored. Nothing more is
/// written after bytes that are not UTF-8 either. `Read` and `NotUtf8` report whether a write failed before. If none
/// did, the paragraphs that have ended are written, as far as the bytes are UTF-8 (`printed_ended`). If one did, it is
/// not known how much the writer took.
///
/// Two faults end the call at once, and the source is not read further: `NobodyReads` if a write or a flush fails with
/// `ErrorKind::BrokenPipe`, and `Memory` if memory runs out.
pub fn print_source<S: ByteSource, W: Output>(
    alloc: Global,
    w: &mut W,
    tables: &Tables,
    source: &mut S,
    direction: Direction,
    form: Form,
) -> Result<(), TextFault>
    requires { S.most_remaining source.old ≤ longest_text }
    ensures whole { OnOk result (S.ended source.new) }
    ensures printed { OnOk result ((given : List ℕ) × S.gives source.old given source.new
        × IsPrinted form tables.now direction given (W.contents w.old) (W.contents w.new)) }
    ensures fault { IfErr result (λ fault. (given : List ℕ) × S.gives source.old given source.new
        × BreaksOff (S.failures source.new ≡ 1) (S.ended source.new) form tables.now direction given
        (W.contents w.old) (W.contents w.new) fault) }
    ensures reported { IfErr result (ReportsFailure (W.failed_with w.new)) }
{
    let settings = Settings {
        tables,
        direction,
        form,
    };
    let mut begun = Begun::new(alloc, settings)?;
    read_text(alloc, w, source, &mut begun)
}
