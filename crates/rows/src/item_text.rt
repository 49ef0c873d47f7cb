//! Items of rows, gathered in a buffer before they are written.
ghost use Rattle.std.specs.Prelude.{◌≡◌, ◌+◌, ◌<◌, ◌≤◌, ◌++◌, ℕ, List, length, take, OnOk};
ghost use Rattle.std.specs.Fmt.{decimal};
ghost use Rattle.std.specs.Io.KnownBytes.{Appends};
ghost use Rattle.arrayvec.specs.ArrayVec.{array_vec_len};
ghost use Rattle.units.specs.ClassNames.{short_name};
ghost use Rattle.printing.specs.HexDigits.{last_digits};
ghost use Rattle.printing.specs.LevelsText.{code_text, level_text};
ghost use Rattle.rows.specs.Letters.{letter_name};
ghost use Rattle.rows.specs.RowTexts.{after_blanks, between_blanks};

use crate::letter::Letter;
use arrayvec::ArrayVec;
use printing::decimals::put_decimal;
use printing::feeding::{Pieces, hand_over};
use printing::pieces::last_digit;
use std::io;
use std::io::Write;
use units::class::Class;
use units::level::Level;

/// The greatest number of digits of a position.
const MOST_DIGITS: usize = 20;

/// The greatest number of bytes of an item and the blank before it.
const MOST_BYTES: usize = MOST_DIGITS + 1;

/// The greatest number of bytes that are gathered before they are written.
const MOST_GATHERED: usize = 256;

/// The buffer of gathered text.
type Gathered = ArrayVec<u8, MOST_GATHERED>;

/// An item of a list that is printed.
pub trait RowItem: Copy {
    ghost text: { Self → List ℕ };

    /// Adds the item to a buffer that has space for it.
    fn add(self, to: &mut Gathered)
        requires room { array_vec_len to.old + 20 ≤ 256 }
        ensures text { to.new.items ≡ to.old.items ++ text self }
        ensures few { array_vec_len to.new ≤ array_vec_len to.old + 20 };
}

/// Adds a number of more than two digits.
fn add_longer(to: &mut Gathered, number: usize)
    requires room { array_vec_len to.old + 20 ≤ 256 }
    ensures text { to.new.items ≡ to.old.items ++ decimal number }
    ensures few { array_vec_len to.new ≤ array_vec_len to.old + 20 }
{
    let mut digits = [0; MOST_DIGITS];
    let start = put_decimal(number as u64, &mut digits, MOST_DIGITS);
    to.try_extend_from_slice(&digits[start..]).unwrap();
}

/// Adds a number in decimal digits.
fn add_decimal(to: &mut Gathered, number: usize)
    requires room { array_vec_len to.old + 20 ≤ 256 }
    ensures text { to.new.items ≡ to.old.items ++ decimal number }
    ensures few { array_vec_len to.new ≤ array_vec_len to.old + 20 }
{
    if number < 10 {
        to.push(b'0' + number as u8);
    } else if number < 100 {
        to.push(b'0' + (number / 10) as u8);
        to.push(b'0' + (number % 10) as u8);
    } else {
        add_longer(to, number);
    }
}

/// Adds the last four hex digits of a number.
fn add_four_digits(to: &mut Gathered, number: u32)
    requires room { array_vec_len to.old + 4 ≤ 256 }
    ensures text { to.new.items ≡ to.old.items ++ last_digits number }
    ensures len { array_vec_len to.new ≡ array_vec_len to.old + 4 }
{
    to.push(last_digit(number / 0x1000));
    to.push(last_digit(number / 0x100));
    to.push(last_digit(number / 0x10));
    to.push(last_digit(number));
}

/// Adds a code point in upper-case hex digits, at least four.
fn add_code(to: &mut Gathered, code: char)
    requires room { array_vec_len to.old + 20 ≤ 256 }
    ensures text { to.new.items ≡ to.old.items ++ code_text code }
    ensures few { array_vec_len to.new ≤ array_vec_len to.old + 20 }
{
    let number = u32::from(code);
    if number < 0x1_0000 {
        add_four_digits(to, number);
    } else if number < 0x10_0000 {
        to.push(last_digit(number / 0x1_0000));
        add_four_digits(to, number);
    } else {
        to.push(last_digit(number / 0x10_0000));
        to.push(last_digit(number / 0x1_0000));
        add_four_digits(to, number);
    }
}

/// Adds the short name of a class.
fn add_name(to: &mut Gathered, class: Class)
    requires room { array_vec_len to.old + 20 ≤ 256 }
    ensures text { to.new.items ≡ to.old.items ++ short_name class }
    ensures few { array_vec_len to.new ≤ array_vec_len to.old + 20 }
{
    for byte in class.short().as_bytes() {
        to.push(*byte);
    }
}

impl RowItem for Option<Level> {
    ghost text = { level_text };

    fn add(self, to: &mut Gathered) {
        match self {
            Some(level) => add_decimal(to, usize::from(level.get())),
            None => to.push(b'x'),
        }
    }
}

impl RowItem for usize {
    ghost text = { decimal };

    fn add(self, to: &mut Gathered) {
        add_decimal(to, self);
    }
}

impl RowItem for Letter {
    ghost text = { letter_name };

    fn add(self, to: &mut Gathered) {
        match self {
            Letter::Class(class) => add_name(to, class),
            Letter::Character { code, .. } => add_code(to, code),
        }
    }
}

/// Adds items, each after a blank, while there is space. Returns how many items were added.
fn add_items<T: RowItem>(to: &mut Gathered, items: &[T]) -> usize
    ensures text { to.new.items ≡ to.old.items ++ after_blanks T.text (take result items.now) }
    ensures count { result ≤ length items.now }
    ensures some { 0 < length items.now → array_vec_len to.old + 21 ≤ 256 → 0 < result }
{
    let mut count = 0;
    while count < items.len() && to.len() + MOST_BYTES <= MOST_GATHERED {
        to.push(b' ');
        items[count].add(to);
        count += 1;
    }
    count
}

/// Writes each item after a blank. One call of `write` takes many items.
pub fn print_after_blanks<W: Write, T: RowItem>(w: &mut W, items: &[T]) -> io::Result<()>
    ensures { OnOk result (Appends (W.contents w.old) (W.contents w.new) (after_blanks T.text items.now)) }
{
    let mut text = ArrayVec::new();
    let mut remaining = items;
    while !remaining.is_empty() {
        text.clear();
        let count = add_items(&mut text, remaining);
        hand_over(w, text.as_slice(), Pieces::Items)?;
        remaining = remaining.split_at(count).1;
    }
    Ok(())
}

/// Writes the items, with a blank between each two.
pub fn print_between_blanks<W: Write, T: RowItem>(w: &mut W, items: &[T]) -> io::Result<()>
    ensures { OnOk result (Appends (W.contents w.old) (W.contents w.new) (between_blanks T.text items.now)) }
{
    if items.is_empty() {
        return Ok(());
    }
    let mut text = ArrayVec::new();
    let count = add_items(&mut text, items);
    hand_over(w, &text.as_slice()[1..], Pieces::Items)?;
    print_after_blanks(w, items.split_at(count).1)
}
