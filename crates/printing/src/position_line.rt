// The lines with the levels of a text.
ghost use Rattle.std.specs.Prelude.{◌≡◌, ◌≤◌, drop, IfErr, OnOk};
ghost use Rattle.std.specs.Io.KnownBytes.{Appends};
ghost use Rattle.units.specs.Isolates.{level_of_para};
ghost use Rattle.printing.specs.LevelsText.{position_text, paragraph_text};

use crate::decimals::put_decimal;
use crate::feeding::{Pieces, hand_over};
use crate::output::Output;
use crate::pieces::{LONGEST_LINE, put_byte, put_bytes, put_code, put_level, put_name};
use std::io;
use units::class::Class;
use units::level::{Level, ParaLevel};

/// Puts the line of a position at the end of a buffer, and returns where it begins.
fn put_position(
    position: usize,
    character: char,
    class: Class,
    level: Option<Level>,
    line: &mut [u8; LONGEST_LINE],
) -> usize
    ensures start { result ≤ 40 }
    ensures written { drop result line.new ≡ position_text position character class level }
{
    let start = put_byte(b'\n', line, LONGEST_LINE);
    let start = put_level(level, line, start);
    let start = put_byte(b' ', line, start);
    let start = put_name(class, line, start);
    let start = put_byte(b' ', line, start);
    let start = put_code(character, line, start);
    let start = put_byte(b' ', line, start);
    put_decimal(position as u64, line, start)
}

/// Writes the line of a position of the text: the position, its code point, original class and level after L1.
pub fn print_position<W: Output>(
    w: &mut W,
    position: usize,
    character: char,
    class: Class,
    level: Option<Level>,
) -> io::Result<()>
    ensures written { OnOk result (Appends (W.contents w.old) (W.contents w.new)
        (position_text position character class level)) }
    ensures failed { IfErr result (W.failed_with w.new) }
{
    let mut line = [0; LONGEST_LINE];
    let start = put_position(position, character, class, level, &mut line);
    hand_over(w, &line[start..], Pieces::Words)
}

/// Puts the line of a paragraph at the end of a buffer, and returns where it begins.
fn put_paragraph(number: usize, level: ParaLevel, line: &mut [u8; LONGEST_LINE]) -> usize
    ensures start { result ≤ 40 }
    ensures written { drop result line.new ≡ paragraph_text number (level_of_para level) }
{
    let start = put_byte(b'\n', line, LONGEST_LINE);
    let start = put_decimal(u64::from(level.level().get()), line, start);
    let start = put_bytes(b" level ", line, start);
    let start = put_decimal(number as u64, line, start);
    put_bytes(b"paragraph ", line, start)
}

/// Writes the line before the positions of a paragraph: its number, counted from 0, and its level.
pub fn print_paragraph<W: Output>(w: &mut W, number: usize, level: ParaLevel) -> io::Result<()>
    ensures written { OnOk result (Appends (W.contents w.old) (W.contents w.new) (paragraph_text number
        (level_of_para level))) }
    ensures failed { IfErr result (W.failed_with w.new) }
{
    let mut line = [0; LONGEST_LINE];
    let start = put_paragraph(number, level, &mut line);
    hand_over(w, &line[start..], Pieces::Numbers)
}
