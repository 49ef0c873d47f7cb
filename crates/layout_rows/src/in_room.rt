//! What a room says of the text that is in it.
ghost use Rattle.std.specs.Prelude.{◌<◌, length};

use crate::layouts::push_order;
use crate::lists::{FILLING, filled};
use anyhow::{Result, bail};
use room::lookups::Line;
use room::places::NOWHERE;
use room::room::Room;
use row_files::shown::{push_levels, push_position};
use row_files::words::push_word;
use std::alloc::{AllocError, Global};
use units::level::{Level, ParaLevel};
use visual::runs::VisualRun;

/// Appends where each character begins, and where the text ends.
pub fn push_starts(room: &Room, out: &mut String) -> Result<(), AllocError> {
    for k in 0..=room.characters() {
        push_word(out, room.offset_of(k))?;
    }
    Ok(())
}

/// Fails if the level at one of these offsets is not the one in the list, or if there is one after them.
fn compare_levels(room: &Room, levels: &[Option<Level>]) -> Result<()> {
    for (at, level) in levels.iter().enumerate() {
        if room.level_at(at) != *level {
            bail!("the level at {at} is another one");
        }
    }
    if room.level_at(levels.len()).is_some() {
        bail!("there is a level after the text");
    }
    Ok(())
}

/// Appends where the shown characters of a line begin, from left to right.
fn push_order_in(alloc: Global, room: &Room, k: usize, out: &mut String) -> Result<()>
    requires { k < length room.now.layout.lines }
{
    let order = filled(alloc, FILLING, |out| room.order(k, out))?;
    Ok(push_order(out, &order)?)
}

/// Appends the level of each unit, and after a `|` the order of each line, or `empty` for a text of no units. Both are
/// in the units of the text.
pub fn push_layout_in(alloc: Global, room: &Room, out: &mut String) -> Result<()> {
    let levels = filled(alloc, Level::new(99), |out| room.levels(out))?;
    compare_levels(room, &levels)?;
    push_levels(out, &levels)?;
    for k in 0..room.line_count() {
        push_word(out, "|")?;
        push_order_in(alloc, room, k, out)?;
    }
    if levels.is_empty() {
        push_word(out, "empty")?;
    }
    Ok(())
}

/// Appends a level for each character, also for one that X9 removes.
pub fn push_whole_levels(alloc: Global, room: &Room, out: &mut String) -> Result<()> {
    for level in &filled(alloc, 99, |out| room.whole_levels(out))? {
        push_word(out, *level)?;
    }
    Ok(())
}

/// Appends the level of each paragraph.
pub fn push_para_levels(room: &Room, out: &mut String) -> Result<(), AllocError> {
    for level in room.layout().para_levels() {
        push_word(out, level.level().get())?;
    }
    Ok(())
}

/// Appends the level of each paragraph, and after a `|` the level of the paragraph of each unit, `-` after the text.
pub fn push_paragraphs(room: &Room, out: &mut String) -> Result<(), AllocError> {
    push_para_levels(room, out)?;
    push_word(out, "|")?;
    for at in 0..=room.text_len() {
        let level = room.para_level_at(at).map(|level| level.level().get());
        push_position(out, level.map(usize::from))?;
    }
    Ok(())
}

/// Appends of each line where it begins and ends, and how many characters it shows.
pub fn push_lines(alloc: Global, room: &Room, out: &mut String) -> Result<()> {
    let filling = Line {
        start: FILLING,
        end: FILLING,
        shown: FILLING,
    };
    for line in &filled(alloc, filling, |out| room.lines(out))? {
        let Line { start, end, shown } = *line;
        push_word(out, format_args!("{start}..{end}:{shown}"))?;
    }
    Ok(())
}

/// Appends the place of each unit of a line, `-` if it has none.
fn push_places(alloc: Global, room: &Room, k: usize, out: &mut String) -> Result<()>
    requires { k < length room.now.layout.lines }
{
    for place in &filled(alloc, FILLING, |out| room.places(k, out))? {
        push_position(out, Some(*place).filter(|place| *place != NOWHERE))?;
    }
    Ok(())
}

/// Appends each run of a line from left to right: where it begins and ends, its level, and how many characters it
/// shows.
fn push_runs(alloc: Global, room: &Room, k: usize, out: &mut String) -> Result<()>
    requires { k < length room.now.layout.lines }
{
    let filling = VisualRun {
        start: FILLING,
        end: FILLING,
        level: ParaLevel::One.level(),
        shown: FILLING,
    };
    for run in &filled(alloc, filling, |out| room.runs(k, out))? {
        let (start, end, level, shown) = (run.start, run.end, run.level.get(), run.shown);
        push_word(out, format_args!("{start}..{end}:{level}:{shown}"))?;
    }
    Ok(())
}

/// Appends the places or the runs of each line, with `|` between them.
pub fn push_of_lines(alloc: Global, runs: bool, room: &Room, out: &mut String) -> Result<()> {
    for k in 0..room.line_count() {
        if k > 0 {
            push_word(out, "|")?;
        }
        if runs {
            push_runs(alloc, room, k, out)?;
        } else {
            push_places(alloc, room, k, out)?;
        }
    }
    Ok(())
}
