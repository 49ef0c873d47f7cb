//! What was printed, as words.
//!
//! `/` stands for LF. Of a text as it is shown, each character is a word, its code point. Any other text is itself, but
//! `,` stands for a `;`, and in its pieces `_` for a blank.

use anyhow::{Context, Result};
use row_files::words::push_word;
use std::alloc::{AllocError, Global};

/// Appends the code points of a text.
fn push_codes(out: &mut String, text: &str) -> Result<(), AllocError> {
    for character in text.chars() {
        match character {
            '\n' => push_word(out, '/')?,
            _ => push_word(out, format_args!("{:04X}", u32::from(character)))?,
        }
    }
    Ok(())
}

/// Appends the lines of a text, with `/` after each.
fn push_lines(alloc: Global, out: &mut String, text: &str) -> Result<(), AllocError> {
    let lines = text.replace(alloc, "\n", " / ")?.replace(alloc, ";", ",")?;
    push_word(out, lines.strip_suffix(" ").unwrap_or(&lines))
}

/// Appends what was printed. `is_shown` says whether it is a text as it is shown.
pub fn push_text(alloc: Global, out: &mut String, is_shown: bool, printed: &[u8]) -> Result<()> {
    let text = str::from_utf8(printed)?;
    if is_shown {
        push_codes(out, text)?;
    } else if !text.is_empty() {
        push_lines(alloc, out, text)?;
    }
    Ok(())
}

/// Appends a piece as a word.
pub fn push_piece(alloc: Global, out: &mut String, is_shown: bool, piece: &[u8]) -> Result<()> {
    if is_shown {
        return push_text(alloc, out, true, piece);
    }
    let word = str::from_utf8(piece)?.replace(alloc, "\n", "/")?;
    let word = word.replace(alloc, " ", "_")?.replace(alloc, ";", ",")?;
    push_word(out, word)?;
    Ok(())
}

/// Appends how many bytes each line has before its LF. Fails if none ends the last line.
pub fn push_lengths(out: &mut String, printed: &[u8]) -> Result<()> {
    let text = printed
        .strip_suffix(b"\n")
        .context("no LF ends the last line")?;
    for line in text.split(|byte| *byte == b'\n') {
        push_word(out, line.len())?;
    }
    Ok(())
}
