//! What came out as words.

use crate::words::push_word;
use std::alloc::AllocError;
use units::class::Class;
use units::level::Level;

/// Appends a level, or `x` for a position that is removed.
pub fn push_level(out: &mut String, level: Option<Level>) -> Result<(), AllocError> {
    match level {
        Some(level) => push_word(out, level.get()),
        None => push_word(out, "x"),
    }
}

/// Appends the level of each position.
pub fn push_levels(out: &mut String, levels: &[Option<Level>]) -> Result<(), AllocError> {
    for level in levels {
        push_level(out, *level)?;
    }
    Ok(())
}

/// Appends the short name of each class.
pub fn push_classes(out: &mut String, classes: &[Class]) -> Result<(), AllocError> {
    for class in classes {
        push_word(out, class.short())?;
    }
    Ok(())
}

/// Appends a position, or `-` for none.
pub fn push_position(out: &mut String, position: Option<usize>) -> Result<(), AllocError> {
    match position {
        Some(position) => push_word(out, position),
        None => push_word(out, "-"),
    }
}

/// The most bytes that are shown.
const MOST_SHOWN: usize = 400;

/// Appends a byte as `bytes::bytes_of` reads it.
fn push_byte(out: &mut String, byte: u8) -> Result<(), AllocError> {
    match byte {
        b'\n' => out.push_str("\\n"),
        b'"' | b'\\' => write!(out, "\\x{byte:02X}"),
        b' '..=b'~' => out.push(char::from(byte)),
        _ => write!(out, "\\x{byte:02X}"),
    }
}

/// Appends bytes as `bytes::bytes_of` reads them. Of very many, it appends the first ones and how many there are.
pub fn push_bytes(out: &mut String, bytes: &[u8]) -> Result<(), AllocError> {
    out.push('"')?;
    for byte in bytes.iter().take(MOST_SHOWN) {
        push_byte(out, *byte)?;
    }
    out.push('"')?;
    if bytes.len() > MOST_SHOWN {
        write!(out, ".. ({} bytes)", bytes.len())?;
    }
    Ok(())
}
