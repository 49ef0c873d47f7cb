//! A text as a row gives it.

use crate::options::{Form, Options};
use anyhow::{Result, bail};
use decoding::fault::Faults;
use row_files::bytes::bytes_of;
use row_files::words::{number_of, words_of};
use sources::class_numbers::class_numbered;
use sources::source::Source;
use std::alloc::Global;

/// The items of a text.
#[derive(Drop)]
pub enum Given {
    Classes(Vec<u8>),
    Codes(Vec<u32>),
    Utf8(Vec<u8>, Faults),
    Utf16(Vec<u16>, Faults),
}

/// Returns the number that a word writes in hexadecimal digits. Fails if it writes none.
fn code_of(word: &str) -> Result<u32> {
    match u32::from_str_radix(word, 16) {
        Ok(code) => Ok(code),
        Err(_) => bail!("{word} is no code point"),
    }
}

/// Returns the items that the words of a field write, each as `item` reads it.
pub fn items_of<T: Drop, F: Fn(&str) -> Result<T>>(
    alloc: Global,
    field: &str,
    item: F,
) -> Result<Vec<T>>
    requires { F.IsAlwaysCallable item }
{
    let words = words_of(alloc, field)?;
    let mut items = Vec::new(alloc);
    for word in words.split_whitespace() {
        items.push(item(word)?)?;
    }
    Ok(items)
}

/// Returns the code points that the words of a field write. They need not be characters.
pub fn codes_of(alloc: Global, field: &str) -> Result<Vec<u32>> {
    items_of(alloc, field, code_of)
}

/// Returns the code unit of UTF-16 that a word writes.
fn unit_of(word: &str) -> Result<u16> {
    Ok(u16::try_from(code_of(word)?)?)
}

/// Returns the number of the class with this short name. A number, which need not be that of a class, stands for
/// itself.
fn class_number(word: &str) -> Result<u8> {
    for number in 0..=22 {
        if class_numbered(number).is_some_and(|class| class.short() == word) {
            return Ok(number);
        }
    }
    Ok(u8::try_from(number_of(word)?)?)
}

impl Given {
    /// Reads the text in a field, which has the form that its options name.
    pub fn of_field(alloc: Global, options: &Options, field: &str) -> Result<Given> {
        match options.form {
            Form::Classes => Ok(Given::Classes(items_of(alloc, field, class_number)?)),
            Form::Codes => Ok(Given::Codes(codes_of(alloc, field)?)),
            Form::Utf8 => Ok(Given::Utf8(bytes_of(alloc, field)?, options.faults)),
            Form::Utf16 => Ok(Given::Utf16(items_of(alloc, field, unit_of)?, options.faults)),
            Form::Text | Form::Again => bail!("this verb takes no text of this form"),
        }
    }

    /// Returns the text as a source for a room.
    pub fn source(&self) -> Source<'_> {
        match self {
            Given::Classes(classes) => Source::Classes(classes),
            Given::Codes(codes) => Source::Codes(codes),
            Given::Utf8(bytes, faults) => Source::Utf8(bytes, *faults),
            Given::Utf16(units, faults) => Source::Utf16(units, *faults),
        }
    }
}
