//! Texts in one `Scratch`, one after another, each of them as often as its options say. What comes out is written in
//! few words, so a text may fill a large scratch.

use crate::by_lines::{breaks_of, scratch_for, units_of};
use crate::given::Given;
use crate::layouts::push_order;
use crate::options::Options;
use anyhow::{Result, bail, ensure};
use lines::lay_out::lay_out_into_with;
use lines::layout::Layout;
use lines::scratch::Scratch;
use row_files::words::push_word;
use std::alloc::{AllocError, Global};
use ucdfiles::tables::Tables;
use units::bracket::Unit;
use units::level::Level;

/// Appends a stretch of positions that have the same level.
fn push_stretch(
    out: &mut String,
    start: usize,
    end: usize,
    level: Option<Level>,
) -> Result<(), AllocError> {
    match level {
        Some(level) => push_word(out, format_args!("{start}..{end}:{}", level.get())),
        None => push_word(out, format_args!("{start}..{end}:x")),
    }
}

/// Appends the stretches of positions that have the same level: `START..END:LEVEL`.
fn push_stretches(out: &mut String, levels: &[Option<Level>]) -> Result<(), AllocError> {
    let mut start: usize = 0;
    for stretch in levels.chunk_by(|level, next| level == next) {
        let end = start.saturating_add(stretch.len());
        if let [level, ..] = *stretch {
            push_stretch(out, start, end, level)?;
        }
        start = end;
    }
    Ok(())
}

/// Appends the stretches of a layout that have the same level, and after a `|` the order of each line.
fn push_in_short(out: &mut String, layout: &Layout<'_>) -> Result<(), AllocError> {
    push_stretches(out, layout.levels())?;
    for k in 0..layout.line_count() {
        push_word(out, "|")?;
        push_order(out, layout.line(k).order)?;
    }
    Ok(())
}

/// Lays out these units, and returns their layout in short. Fails if they are too many.
fn laid_out(
    alloc: Global,
    scratch: &mut Scratch,
    units: &[Unit],
    options: &Options,
) -> Result<String> {
    let breaks = breaks_of(&options.breaks, units.len())?;
    if lay_out_into_with(scratch, units, options.direction, &breaks, options.limits).is_err() {
        bail!("the scratch is too small");
    }
    let mut layout = String::new(alloc);
    push_in_short(&mut layout, &scratch.layout())?;
    Ok(layout)
}

/// Lays out these units as often as the options say, and appends their layout. Fails if two calls give different ones.
fn push_calls(
    alloc: Global,
    scratch: &mut Scratch,
    units: &[Unit],
    options: &Options,
    out: &mut String,
) -> Result<()> {
    let first = laid_out(alloc, scratch, units, options)?;
    for call in 1..options.times {
        let layout = laid_out(alloc, scratch, units, options)?;
        let same = layout.as_str() == first.as_str();
        ensure!(
            same,
            "call {call} gives {layout}, and the first one {first}"
        );
    }
    push_word(out, first.as_str())?;
    Ok(())
}

/// Lays out a text, which is its options and its items, as often as its options say.
fn push_text(
    alloc: Global,
    tables: &Tables,
    scratch: &mut Scratch,
    fields: &[&str],
    out: &mut String,
) -> Result<()> {
    let [options, text] = *fields else {
        bail!("a text is two fields: its options and its items");
    };
    let options = Options::of_field(alloc, options)?;
    let given = Given::of_field(alloc, &options, text)?;
    let Some(units) = units_of(alloc, tables, &given)? else {
        bail!("this verb takes classes and characters");
    };
    push_calls(alloc, scratch, &units, &options, out)
}

/// Appends the layout of each of these texts in one scratch, with `then` between them. The options of the first say for
/// how many units the scratch is.
pub fn push_filled(alloc: Global, tables: &Tables, texts: &[&str], out: &mut String) -> Result<()> {
    let [options, ..] = *texts else {
        bail!("no text");
    };
    let mut scratch = scratch_for(alloc, &Options::of_field(alloc, options)?, &[])?;
    for fields in texts.chunks(2) {
        if !out.is_empty() {
            push_word(out, "then")?;
        }
        push_text(alloc, tables, &mut scratch, fields, out)?;
    }
    Ok(())
}
