//! The bytes that a field of a row writes.
//!
//! `\n`, `\r` and `\t` are LF, CR and TAB, and `\xHH` is the byte with these hexadecimal digits. `{TEXT}*COUNT` means
//! COUNT times TEXT. Any other character is its bytes in UTF-8.

use anyhow::{Context, Result, bail};
use row_files::words::number_of;
use std::alloc::Global;

/// Appends the byte with the two hexadecimal digits at the front of a text. Returns the rest of the text.
fn push_byte<'a>(bytes: &mut Vec<u8>, text: &'a str) -> Result<&'a str> {
    let digits = text.get(..2).context("no digits are after \\x")?;
    bytes.push(u8::from_str_radix(digits, 16)?)?;
    Ok(text.get(2..).unwrap_or(""))
}

/// Appends the byte that an escape names; the text is what is after its `\`. Returns the rest of the text.
fn push_escaped<'a>(bytes: &mut Vec<u8>, text: &'a str) -> Result<&'a str> {
    for (name, byte) in [("n", b'\n'), ("r", b'\r'), ("t", b'\t')] {
        if let Some(rest) = text.strip_prefix(name) {
            bytes.push(byte)?;
            return Ok(rest);
        }
    }
    match text.strip_prefix("x") {
        Some(digits) => push_byte(bytes, digits),
        None => bail!("no byte is written \\{text}"),
    }
}

/// Appends the bytes of a text without repeats.
fn push_text(bytes: &mut Vec<u8>, text: &str) -> Result<()> {
    let mut parts = text.split('\\');
    bytes.extend_from_slice(parts.next().unwrap_or("").as_bytes())?;
    for part in parts {
        let rest = push_escaped(bytes, part)?;
        bytes.extend_from_slice(rest.as_bytes())?;
    }
    Ok(())
}

/// Appends these bytes so many times.
fn push_times(bytes: &mut Vec<u8>, repeated: &[u8], count: usize) -> Result<()> {
    for _ in 0..count {
        bytes.extend_from_slice(repeated)?;
    }
    Ok(())
}

/// Appends the bytes of `TEXT}*COUNT` and of the text after it.
fn push_repeated(alloc: Global, bytes: &mut Vec<u8>, text: &str) -> Result<()> {
    let (repeated, after) = text.split_once("}*").context("no }* is after {")?;
    let rest = after.trim_start_matches(|c: char| c.is_ascii_digit());
    let count = number_of(after.strip_suffix(rest).unwrap_or(""))?;
    let mut once = Vec::new(alloc);
    push_text(&mut once, repeated)?;
    push_times(bytes, &once, count)?;
    push_text(bytes, rest)
}

/// Returns the bytes that a field writes.
pub fn bytes_of(alloc: Global, field: &str) -> Result<Vec<u8>> {
    let mut bytes = Vec::new(alloc);
    let mut parts = field.split('{');
    push_text(&mut bytes, parts.next().unwrap_or(""))?;
    for part in parts {
        push_repeated(alloc, &mut bytes, part)?;
    }
    Ok(bytes)
}
