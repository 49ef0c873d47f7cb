//! Pieces of a printed line. A line is written from the end of a buffer, each piece before the previous one.
ghost use Rattle.std.specs.Prelude.{◌≡◌, ◌<◌, ◌≤◌, ◌+◌, ◌/◌, ◌%◌, true, ◌∷◌, ◌++◌, length, drop};
ghost use Rattle.std.specs.Fmt.{digit_glyph};
ghost use Rattle.units.specs.ClassNames.{short_name};
ghost use Rattle.printing.specs.LevelsText.{code_text, level_text};
ghost use Rattle.printing.specs.HexDigits.{front_digits};

use crate::decimals::put_decimal;
use units::class::Class;
use units::level::Level;

/// The number of bytes in the buffer of a line.
pub(crate) const LONGEST_LINE: usize = 40;

/// Returns the last upper-case hex digit of a number.
pub fn last_digit(number: u32) -> u8
    ensures { result ≡ digit_glyph true (number % 16) }
{
    let digit = (number % 16) as u8;
    if digit < 10 {
        b'0' + digit
    } else {
        b'A' - 10 + digit
    }
}

/// Puts a byte before `end`, and returns where it begins.
pub(crate) fn put_byte(byte: u8, line: &mut [u8; LONGEST_LINE], end: usize) -> usize
    requires some { 0 < end }
    requires within { end ≤ 40 }
    ensures start { result + 1 ≡ end }
    ensures written { drop result line.new ≡ byte ∷ drop end line.old }
{
    line[end - 1] = byte;
    end - 1
}

/// Puts the last hex digit of a number before `end`, and returns where it begins.
fn put_last_digit(number: u32, line: &mut [u8; LONGEST_LINE], end: usize) -> usize
    requires some { 0 < end }
    requires within { end ≤ 40 }
    ensures start { result + 1 ≡ end }
    ensures written { drop result line.new ≡ digit_glyph true (number % 16) ∷ drop end line.old }
{
    put_byte(last_digit(number), line, end)
}

/// Puts the hex digits that a code point has before its last four, and returns where they begin.
fn put_front(front: u32, line: &mut [u8; LONGEST_LINE], end: usize) -> usize
    requires two { front < 256 }
    requires room { 2 ≤ end }
    requires within { end ≤ 40 }
    ensures start { result ≤ end }
    ensures few { end ≤ result + 2 }
    ensures written { drop result line.new ≡ front_digits front ++ drop end line.old }
{
    if front == 0 {
        return end;
    }
    let start = put_last_digit(front, line, end);
    if front < 16 {
        return start;
    }
    put_last_digit(front / 16, line, start)
}

/// Puts a code point in upper-case hex digits, at least four, and returns where they begin.
pub(crate) fn put_code(character: char, line: &mut [u8; LONGEST_LINE], end: usize) -> usize
    requires room { 6 ≤ end }
    requires within { end ≤ 40 }
    ensures start { result ≤ end }
    ensures few { end ≤ result + 6 }
    ensures written { drop result line.new ≡ code_text character ++ drop end line.old }
{
    let code = u32::from(character);
    let start = put_last_digit(code, line, end);
    let start = put_last_digit(code / 16, line, start);
    let start = put_last_digit(code / 256, line, start);
    let start = put_last_digit(code / 4096, line, start);
    put_front(code / 65536, line, start)
}

/// Puts these bytes before `end`, and returns where they begin.
pub(crate) fn put_bytes(bytes: &[u8], line: &mut [u8; LONGEST_LINE], end: usize) -> usize
    requires room { length bytes.now ≤ end }
    requires within { end ≤ 40 }
    ensures start { result + length bytes.now ≡ end }
    ensures written { drop result line.new ≡ bytes.now ++ drop end line.old }
{
    let start = end - bytes.len();
    line[start..end].copy_from_slice(bytes);
    start
}

/// Puts the short name of a class, and returns where it begins.
pub(crate) fn put_name(class: Class, line: &mut [u8; LONGEST_LINE], end: usize) -> usize
    requires room { 3 ≤ end }
    requires within { end ≤ 40 }
    ensures start { result ≤ end }
    ensures few { end ≤ result + 3 }
    ensures written { drop result line.new ≡ short_name class ++ drop end line.old }
{
    put_bytes(class.short().as_bytes(), line, end)
}

/// Puts a level after L1, or x if the position was removed (X9), and returns where it begins.
pub(crate) fn put_level(level: Option<Level>, line: &mut [u8; LONGEST_LINE], end: usize) -> usize
    requires room { 3 ≤ end }
    requires within { end ≤ 40 }
    ensures start { result ≤ end }
    ensures few { end ≤ result + 3 }
    ensures written { drop result line.new ≡ level_text level ++ drop end line.old }
{
    match level {
        Some(level) => put_decimal(u64::from(level.get()), line, end),
        None => put_byte(b'x', line, end),
    }
}
