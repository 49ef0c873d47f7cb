//! The bytes that a field states: texts in quotation marks, one after another.
//!
//! In a text `\n` stands for LF, and `\xHH` for the byte with these hexadecimal digits. `"TEXT"*COUNT` stands for COUNT
//! times TEXT. There `{CODE}` stands for a code point in hexadecimal digits, which is one higher in each further TEXT.

use anyhow::{Context, Result, bail};
use std::alloc::Global;
use std::io::Write;

/// Appends what a backslash before this text stands for, and the rest of the text.
fn push_escaped(bytes: &mut Vec<u8>, text: &str) -> Result<()> {
    let (byte, rest) = match text
        .strip_prefix('x')
        .and_then(|text| text.split_at_checked(2))
    {
        Some((digits, rest)) => (u8::from_str_radix(digits, 16)?, rest),
        None => (b'\n', text.strip_prefix('n').context("no such escape")?),
    };
    bytes.push(byte)?;
    bytes.extend_from_slice(rest.as_bytes())?;
    Ok(())
}

/// Appends a text with escapes.
pub fn push_text(bytes: &mut Vec<u8>, text: &str) -> Result<()> {
    for (index, part) in text.split('\\').enumerate() {
        if index == 0 {
            bytes.extend_from_slice(part.as_bytes())?;
        } else {
            push_escaped(bytes, part)?;
        }
    }
    Ok(())
}

/// Appends the code point that is `turn` higher than the one with these digits.
fn push_code(bytes: &mut Vec<u8>, digits: &str, turn: u32) -> Result<()> {
    let first = u32::from_str_radix(digits, 16)?;
    write!(bytes, "{:04X}", first.saturating_add(turn))?;
    Ok(())
}

/// Appends a text in which each code point is `turn` higher.
fn push_counted(bytes: &mut Vec<u8>, text: &str, turn: u32) -> Result<()> {
    for part in text.split('{') {
        match part.split_once('}') {
            Some((digits, rest)) => {
                push_code(bytes, digits, turn)?;
                push_text(bytes, rest)?;
            }
            None => push_text(bytes, part)?,
        }
    }
    Ok(())
}

/// Appends a text so many times, each time with higher code points.
fn push_counting(bytes: &mut Vec<u8>, text: &str, count: u32) -> Result<()> {
    for turn in 0..count {
        push_counted(bytes, text, turn)?;
    }
    Ok(())
}

/// Appends these bytes so many times.
fn push_times(bytes: &mut Vec<u8>, once: &[u8], count: u32) -> Result<()> {
    for _ in 0..count {
        bytes.extend_from_slice(once)?;
    }
    Ok(())
}

/// Appends a text as often as what is after its quotation marks says.
fn push_repeated(alloc: Global, bytes: &mut Vec<u8>, text: &str, following: &str) -> Result<()> {
    let count = match following.trim() {
        "" => 1,
        count => count
            .strip_prefix('*')
            .context("no `*` is before a count")?
            .parse()?,
    };
    if text.contains('{') {
        return push_counting(bytes, text, count);
    }
    let mut once = Vec::new(alloc);
    push_text(&mut once, text)?;
    push_times(bytes, &once, count)
}

/// Returns the bytes that a field states. Fails if it is not written so.
pub fn bytes_of(alloc: Global, field: &str) -> Result<Vec<u8>> {
    let texts = field
        .strip_prefix('"')
        .context("no quotation mark is before a text")?;
    let mut bytes = Vec::new(alloc);
    let mut text = None;
    for part in texts.split('"') {
        match text.take() {
            None => text = Some(part),
            Some(text) => push_repeated(alloc, &mut bytes, text, part)?,
        }
    }
    if text.is_some() {
        bail!("no quotation mark is after a text");
    }
    Ok(bytes)
}

/// Returns 4,096 bytes that begin with this one. Each other byte is the low eight bits of a sum: 197 times the byte
/// before it, plus the index of that byte.
pub fn arbitrary(first: u8) -> [u8; 4096] {
    let mut bytes = [0; 4096];
    let mut byte = first;
    let mut index = 0_u8;
    for place in bytes.iter_mut() {
        *place = byte;
        byte = byte.wrapping_mul(197).wrapping_add(index);
        index = index.wrapping_add(1);
    }
    bytes
}
