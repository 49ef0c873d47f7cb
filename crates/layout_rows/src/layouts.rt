//! Texts that are laid out one after another in one room.

use crate::given::Given;
use crate::in_room::push_layout_in;
use crate::options::{Form, Options};
use anyhow::{Result, bail};
use lines::layout::Layout;
use room::fault::LayoutFault;
use room::room::Room;
use row_files::shown::push_levels;
use row_files::words::push_word;
use sources::source::Ask;
use std::alloc::{AllocError, Global};
use std::fmt::Debug;
use ucdfiles::tables::Tables;

/// Appends a stretch of consecutive positions.
fn push_stretch(out: &mut String, stretch: &[usize]) -> Result<(), AllocError> {
    if let [first, .., last] = stretch {
        if stretch.len() >= 10 && first.abs_diff(*last) == stretch.len() - 1 {
            return push_word(out, format_args!("{first} to {last}"));
        }
    }
    for position in stretch {
        push_word(out, position)?;
    }
    Ok(())
}

/// Appends positions. Ten or more that rise or fall by one are `FIRST to LAST`.
pub fn push_order(out: &mut String, order: &[usize]) -> Result<(), AllocError> {
    for stretch in order.chunk_by(|one, next| one.abs_diff(*next) == 1) {
        push_stretch(out, stretch)?;
    }
    Ok(())
}

/// Appends the levels of all positions, and after a `|` each line's order, or `empty` for a layout without lines.
/// Fails if the levels of a line are others than those of the text.
pub fn push_layout(out: &mut String, layout: &Layout<'_>) -> Result<()> {
    let levels = layout.levels();
    push_levels(out, levels)?;
    for k in 0..layout.line_count() {
        let line = layout.line(k);
        if levels.get(line.start..line.end) != Some(line.levels) {
            bail!("line {k} has other levels than the text");
        }
        push_word(out, "|")?;
        push_order(out, line.order)?;
    }
    if levels.is_empty() {
        push_word(out, "empty")?;
    }
    Ok(())
}

/// Makes a room for a text: for as many units as its options say, or as it has.
pub fn room_for(alloc: Global, options: &Options, given: &Given) -> Result<Room> {
    let source = given.source();
    let capacity = options.capacity.unwrap_or(source.size());
    let has_offsets = options.offsets || source.is_encoded();
    match Room::with_room(alloc, capacity, has_offsets) {
        Ok(room) => Ok(room),
        Err(fault) => bail!("no room is made: {fault:?}"),
    }
}

/// Lays out a text in a room.
pub fn lay_out(
    tables: &Tables,
    room: &mut Room,
    options: &Options,
    given: &Given,
) -> Result<(), LayoutFault> {
    let ask = Ask {
        source: given.source(),
        direction: options.direction,
        breaks: &options.breaks,
        limits: options.limits,
    };
    room.lay_out(tables, &ask)
}

/// Makes a room and lays out a text in it. Fails if the room rejects it.
pub fn laid_out(alloc: Global, tables: &Tables, options: &Options, given: &Given) -> Result<Room> {
    let mut room = room_for(alloc, options, given)?;
    match lay_out(tables, &mut room, options, given) {
        Ok(()) => Ok(room),
        Err(fault) => bail!("the room rejects the text: {fault:?}"),
    }
}

/// Lays out a text in a room, or breaks the room's text into lines again.
fn change(
    alloc: Global,
    tables: &Tables,
    room: &mut Room,
    options: &Options,
    text: &str,
) -> Result<Result<(), LayoutFault>> {
    if options.form == Form::Again {
        return Ok(room.set_lines(&options.breaks));
    }
    let given = Given::of_field(alloc, options, text)?;
    Ok(lay_out(tables, room, options, &given))
}

/// Appends the layout that a change leaves. If the change fails, appends the fault, and the layout only if it is
/// another one than before.
pub fn push_outcome<F: Debug + Drop>(
    out: &mut String,
    outcome: Result<(), F>,
    before: &str,
    after: &str,
) -> Result<(), AllocError> {
    match outcome {
        Ok(()) => push_word(out, after),
        Err(fault) => {
            push_word(out, format_args!("{fault:?}"))?;
            if before == after {
                Ok(())
            } else {
                push_word(out, after)
            }
        }
    }
}

/// Changes what is in a room, and appends what that leaves. `layout` is the one before, and then the one after.
fn push_change(
    alloc: Global,
    tables: &Tables,
    room: &mut Room,
    fields: &[&str],
    layout: &mut String,
    out: &mut String,
) -> Result<()> {
    let [options, text] = *fields else {
        bail!("a text is two fields: its options and its items");
    };
    let options = Options::of_field(alloc, options)?;
    let outcome = change(alloc, tables, room, &options, text)?;
    let mut after = String::new(alloc);
    push_layout_in(alloc, room, &mut after)?;
    push_outcome(out, outcome, layout.as_str(), after.as_str())?;
    *layout = after;
    Ok(())
}

/// Makes the room for the first of these texts.
fn first_room(alloc: Global, texts: &[&str]) -> Result<Room> {
    let [options, text, ..] = *texts else {
        bail!("no text");
    };
    let options = Options::of_field(alloc, options)?;
    room_for(alloc, &options, &Given::of_field(alloc, &options, text)?)
}

/// Appends what each of these texts leaves in one room, with `then` between them. Each text is two fields.
pub fn push_layouts(
    alloc: Global,
    tables: &Tables,
    texts: &[&str],
    out: &mut String,
) -> Result<()> {
    let mut room = first_room(alloc, texts)?;
    let mut layout = String::new(alloc);
    push_layout_in(alloc, &room, &mut layout)?;
    for fields in texts.chunks(2) {
        if !out.is_empty() {
            push_word(out, "then")?;
        }
        push_change(alloc, tables, &mut room, fields, &mut layout, out)?;
    }
    Ok(())
}
