//! The words of a field: repeated ones written out, and what they name.

use anyhow::{Context, Result, bail};
use std::alloc::{AllocError, Global};
use std::fmt::Display;
use std::io::ErrorKind;
use units::class::Class;
use units::level::Direction;

/// Appends a word, and a blank before it if it is not the first one.
pub fn push_word<W: Display + Drop>(words: &mut String, word: W) -> Result<(), AllocError> {
    if !words.is_empty() {
        words.push(' ')?;
    }
    write!(words, "{word}")
}

/// Returns the part that a word repeats and how often: those of `PART*COUNT`.
fn repeated(word: &str) -> Option<(&str, usize)> {
    let (part, count) = word.rsplit_once('*')?;
    Some((part, count.parse().ok()?))
}

/// Appends the words of a part, which commas separate.
fn push_part(words: &mut String, part: &str) -> Result<(), AllocError> {
    for word in part.split(',') {
        push_word(words, word)?;
    }
    Ok(())
}

/// Appends the words of a part `count` times.
fn push_repeated(words: &mut String, part: &str, count: usize) -> Result<(), AllocError> {
    for _ in 0..count {
        push_part(words, part)?;
    }
    Ok(())
}

/// Returns the words of a field with one blank between them. Repeated words are written out.
pub fn words_of(alloc: Global, field: &str) -> Result<String, AllocError> {
    let mut words = String::new(alloc);
    for word in field.split_whitespace() {
        match repeated(word) {
            Some((part, count)) => push_repeated(&mut words, part, count)?,
            None => push_word(&mut words, word)?,
        }
    }
    Ok(words)
}

/// Returns the class with this short name. Fails if there is none.
pub fn class_of(name: &str) -> Result<Class> {
    Class::from_short(name.as_bytes()).context(format_args!("no class is named {name}"))
}

/// Returns the number that a word writes. Fails if it writes none.
pub fn number_of(word: &str) -> Result<usize> {
    match word.parse() {
        Ok(number) => Ok(number),
        Err(_) => bail!("{word} is no number"),
    }
}

/// Returns the first and the last of the numbers that a word writes: `FIRST-LAST`, or one number.
pub fn span_of(word: &str) -> Result<(usize, usize)> {
    let (first, last) = word.split_once('-').unwrap_or((word, word));
    Ok((number_of(first)?, number_of(last)?))
}

/// Returns the character of a code point, which a word writes in hexadecimal digits. Fails if it writes none.
pub fn character_of(word: &str) -> Result<char> {
    let number = u32::from_str_radix(word, 16).ok();
    number
        .and_then(char::from_u32)
        .context(format_args!("{word} is no character's code point"))
}

/// Returns the direction with this name, as the command writes it. Fails if there is none.
pub fn direction_of(name: &str) -> Result<Direction> {
    match name {
        "auto" => Ok(Direction::Auto),
        "ltr" => Ok(Direction::Ltr),
        "rtl" => Ok(Direction::Rtl),
        "auto-rtl" => Ok(Direction::AutoRtl),
        _ => bail!("no direction is named {name}"),
    }
}

/// Returns the kind of error with this name. Fails if there is none.
pub fn error_kind_of(name: &str) -> Result<ErrorKind> {
    match name {
        "NotFound" => Ok(ErrorKind::NotFound),
        "NotADirectory" => Ok(ErrorKind::NotADirectory),
        "PermissionDenied" => Ok(ErrorKind::PermissionDenied),
        "IsADirectory" => Ok(ErrorKind::IsADirectory),
        "Interrupted" => Ok(ErrorKind::Interrupted),
        "StorageFull" => Ok(ErrorKind::StorageFull),
        "ConnectionReset" => Ok(ErrorKind::ConnectionReset),
        "BrokenPipe" => Ok(ErrorKind::BrokenPipe),
        "Other" => Ok(ErrorKind::Other),
        _ => bail!("no kind of error is named {name}"),
    }
}

/// Returns the classes that the words of a field name. Fails if one names none.
pub fn classes_of(alloc: Global, field: &str) -> Result<Vec<Class>> {
    let words = words_of(alloc, field)?;
    let mut classes = Vec::new(alloc);
    for name in words.split_whitespace() {
        classes.push(class_of(name)?)?;
    }
    Ok(classes)
}

/// Returns the numbers that the words of a field write. Fails if one writes none.
pub fn numbers_of(alloc: Global, field: &str) -> Result<Vec<usize>> {
    let words = words_of(alloc, field)?;
    let mut numbers = Vec::new(alloc);
    for word in words.split_whitespace() {
        numbers.push(number_of(word)?)?;
    }
    Ok(numbers)
}

/// Returns the text of the code points that the words of a field write. Fails if one writes none.
pub fn text_of(alloc: Global, field: &str) -> Result<String> {
    let words = words_of(alloc, field)?;
    let mut text = String::new(alloc);
    for word in words.split_whitespace() {
        text.push(character_of(word)?)?;
    }
    Ok(text)
}
