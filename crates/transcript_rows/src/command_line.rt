//! The line of a run: its arguments, and the file that gets what it prints.

use anyhow::{Result, bail};
use row_files::bytes::push_text;
use std::alloc::Global;

/// A run.
#[derive(Drop)]
pub struct CommandLine {
    pub words: Vec<String>,
    /// The name of the file that what it prints is for the runs after it.
    pub printed_to: Option<String>,
}

/// Appends the words of a text without quotation marks.
fn push_plain(alloc: Global, words: &mut Vec<String>, text: &str) -> Result<()> {
    for word in text.split_whitespace() {
        words.push(String::from_str(alloc, word)?)?;
    }
    Ok(())
}

/// Appends the word that was in quotation marks.
fn push_quoted(alloc: Global, words: &mut Vec<String>, text: &str) -> Result<()> {
    let mut bytes = Vec::new(alloc);
    push_text(&mut bytes, text)?;
    words.push(String::from_str(alloc, str::from_utf8(&bytes)?)?)?;
    Ok(())
}

/// Returns the words of a text.
fn words_of(alloc: Global, text: &str) -> Result<Vec<String>> {
    let mut words = Vec::new(alloc);
    let mut is_quoted = false;
    for part in text.split('"') {
        if is_quoted {
            push_quoted(alloc, &mut words, part)?;
        } else {
            push_plain(alloc, &mut words, part)?;
        }
        is_quoted = !is_quoted;
    }
    if !is_quoted {
        bail!("no quotation mark is after a word");
    }
    Ok(words)
}

impl CommandLine {
    /// Reads the text after `$`.
    pub fn of_text(alloc: Global, text: &str) -> Result<CommandLine> {
        match text.rsplit_once(" > ") {
            Some((words, name)) => Ok(CommandLine {
                words: words_of(alloc, words)?,
                printed_to: Some(String::from_str(alloc, name)?),
            }),
            None => Ok(CommandLine {
                words: words_of(alloc, text)?,
                printed_to: None,
            }),
        }
    }
}
