// Reads the items of an option's value.
ghost use Rattle.std.specs.Borrow.{Bor};
ghost use Rattle.std.specs.Prelude.{◌≡◌, ◌≤◌, ℕ, List, Option, Some, length, IfOk, IfErr, OnOk};
ghost use Rattle.units.specs.Layout.{longest_text};
ghost use Rattle.units.specs.Text.{each_read, items_of};
ghost use Rattle.requests.specs.ItemWords.{EndsItems, classes_named, codes_named};
ghost use Rattle.requests.specs.Parts.{IsFirstFault, classes_parts, codes_parts};
ghost use Rattle.requests.specs.Printed.{most_text_bytes};
ghost use Rattle.requests.specs.declared.fault.Fault.{Fault as FaultOf};

use crate::fault::Fault;
use crate::opening::MOST_TEXT_BYTES;
use std::alloc::Global;
use units::class::Class;
use units::text::code_point::code_point;
use units::text::items::next_item;

/// Reads an item of an option's value.
pub trait ReadsItem<T> {
    ghost reading: { Self → List ℕ → Option T };

    // The fault of an item of a value that can't be read.
    ghost unread: { Self → Bor (List ℕ) → Bor (List ℕ) → FaultOf };

    /// Reads the item, if it has a meaning.
    fn read(&self, item: &[u8]) -> Option<T>
        ensures { result ≡ reading self.now item.now };

    /// Returns the fault of an item of `word` that can't be read.
    fn fault<'a>(&self, word: &'a str, item: &'a [u8]) -> Fault<'a>
        ensures { result ≡ unread self.now word.entry item.entry };
}

/// Reads each item of `word` with this reader. Fails at the first item that can't be read, or if an allocation fails.
pub fn read_all<'a, T: Copy, R: ReadsItem<T>>(
    alloc: Global,
    reader: &R,
    word: &'a str,
) -> Result<Vec<T>, Fault<'a>>
    ensures values { IfOk result (λ values. each_read (R.reading reader.now) (items_of word.now) ≡ Some values.items) }
    ensures count { IfOk result (λ values. length values.items ≤ length word.now) }
    ensures fault { IfErr result (EndsItems (R.reading reader.now) (R.unread reader.now) word.now) }
{
    let mut values = Vec::new(alloc);
    let mut limit = word.as_bytes();
    while let Some((item, rest)) = next_item(limit) {
        match reader.read(item) {
            None => return Err(reader.fault(word, item)),
            Some(value) => values.push(value)?,
        }
        limit = rest;
    }
    Ok(values)
}

/// Reads the short name of a class.
#[derive(Drop)]
pub struct ClassNames;

impl ReadsItem<Class> for ClassNames {
    ghost use Rattle.units.specs.ClassNames.{class_of_short};
    ghost use Rattle.requests.specs.declared.fault.Fault.TheVariants.{NoClass};

    ghost reading = { λ _. class_of_short };

    ghost unread = { λ _ word item. NoClass word item };

    fn read(&self, item: &[u8]) -> Option<Class> {
        Class::from_short(item)
    }

    fn fault<'a>(&self, word: &'a str, item: &'a [u8]) -> Fault<'a> {
        Fault::NoClass { word, item }
    }
}

/// Reads a code point that is not a surrogate.
#[derive(Drop)]
pub struct CodePoints;

impl ReadsItem<char> for CodePoints {
    ghost use Rattle.ucdfiles.specs.PairFiles.{char_of};
    ghost use Rattle.requests.specs.declared.fault.Fault.TheVariants.{NoCodePoint};

    ghost reading = { λ _. char_of };

    ghost unread = { λ _ word item. NoCodePoint word item };

    fn read(&self, item: &[u8]) -> Option<char> {
        char::from_u32(code_point(item)?)
    }

    fn fault<'a>(&self, word: &'a str, item: &'a [u8]) -> Fault<'a> {
        Fault::NoCodePoint { word, item }
    }
}

/// Reads the classes in `word`, as short names separated by blanks. There may be none. Fails with `ClassesTooLong` if
/// `word` has more bytes than a text may have, with `NoClass` at the first item that is not a class, and with
/// `OutOfMemory` if an allocation fails.
pub fn classes_in<'a>(alloc: Global, word: &'a str) -> Result<Vec<Class>, Fault<'a>>
    ensures classes { IfOk result (λ classes. classes_named word.now ≡ Some classes.items) }
    ensures bound { IfOk result (λ classes. length classes.items ≤ longest_text) }
    ensures short { OnOk result (length word.now ≤ most_text_bytes) }
    ensures fault { IfErr result (IsFirstFault (classes_parts word.now)) }
{
    if word.len() as u64 > MOST_TEXT_BYTES {
        return Err(Fault::ClassesTooLong);
    }
    read_all(alloc, &ClassNames, word)
}

/// Reads the characters in `word`, as code points separated by blanks. There may be none. Fails with `CodesTooLong` if
/// `word` has more bytes than a text may have, with `NoCodePoint` at the first item that is not a code point, and with
/// `OutOfMemory` if an allocation fails.
pub fn chars_in<'a>(alloc: Global, word: &'a str) -> Result<Vec<char>, Fault<'a>>
    ensures chars { IfOk result (λ chars. codes_named word.now ≡ Some chars.items) }
    ensures bound { IfOk result (λ chars. length chars.items ≤ longest_text) }
    ensures short { OnOk result (length word.now ≤ most_text_bytes) }
    ensures fault { IfErr result (IsFirstFault (codes_parts word.now)) }
{
    if word.len() as u64 > MOST_TEXT_BYTES {
        return Err(Fault::CodesTooLong);
    }
    read_all(alloc, &CodePoints, word)
}
