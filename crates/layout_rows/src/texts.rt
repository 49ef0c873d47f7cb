//! Texts in one value with their layout.

use crate::layouts::push_layout;
use crate::options::Options;
use anyhow::{Result, bail};
use room::text::Text;
use row_files::words::{character_of, number_of, push_word};
use std::alloc::{AllocError, Global};
use ucdfiles::tables::Tables;

/// Appends the characters of a word so often: `CODE` or `CODE*COUNT`.
fn push_characters(text: &mut String, word: &str) -> Result<()> {
    let (code, count) = word.split_once('*').unwrap_or((word, "1"));
    let c = character_of(code)?;
    for _ in 0..number_of(count)? {
        text.push(c)?;
    }
    Ok(())
}

/// Returns the text of the code points in a field. Repeated ones are not written out as words, which would take long.
fn text_of(alloc: Global, field: &str) -> Result<String> {
    let mut text = String::new(alloc);
    for word in field.split_whitespace() {
        push_characters(&mut text, word)?;
    }
    Ok(text)
}

/// Appends the code points of a text.
fn push_codes(out: &mut String, text: &str) -> Result<(), AllocError> {
    for c in text.chars() {
        push_word(out, format_args!("{:04X}", u32::from(c)))?;
    }
    Ok(())
}

/// Appends each line as it is shown, with `|` between them. Fails if the text has other characters than `words`.
fn push_lines(alloc: Global, text: &Text<'_>, words: &str, out: &mut String) -> Result<()> {
    let chars: Vec<char> = words.chars().collect(alloc)?;
    if text.chars() != chars.as_slice() {
        bail!("the text has other characters than it was given");
    }
    for k in 0..text.layout().line_count() {
        if k > 0 {
            push_word(out, "|")?;
        }
        push_codes(out, &text.shown_line(alloc, k)?)?;
    }
    Ok(())
}

/// Appends how many lines a text has, and the last one as it is shown.
fn push_last_line(alloc: Global, text: &Text<'_>, out: &mut String) -> Result<(), AllocError> {
    let count = text.layout().line_count();
    push_word(out, count)?;
    if count > 0 {
        push_codes(out, &text.shown_line(alloc, count - 1)?)?;
    }
    Ok(())
}

/// Appends what comes out of a text of these code points: its lines as they are shown, the last of them, or its
/// layout; or the fault.
pub fn push_of_text(
    alloc: Global,
    tables: &Tables,
    verb: &str,
    options: &Options,
    codes: &str,
    out: &mut String,
) -> Result<()> {
    let words = text_of(alloc, codes)?;
    let text = match Text::lay_out(alloc, tables, &words, options.direction, &options.breaks) {
        Ok(text) => text,
        Err(fault) => return Ok(push_word(out, format_args!("{fault:?}"))?),
    };
    match verb {
        "shown" => push_lines(alloc, &text, &words, out),
        "last line" => Ok(push_last_line(alloc, &text, out)?),
        "layout" => push_layout(out, &text.layout()),
        _ => bail!("no verb of a text is named {verb}"),
    }
}
