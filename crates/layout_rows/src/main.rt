//! Checks rows of layouts: the levels and the order of texts, their lines, what is shown of them, and what is known of
//! a text without a layout. The first lines of each file in data/ say what its fields are.
//!
//! `VERB; OPTIONS; TEXT; RESULT`: what a verb says of one text. `layout` takes several texts, one after another in one
//! room. A text of classes or code points is also laid out by the calls of `lines` alone, and a row fails if that gives
//! another layout. `filled` takes several texts in one scratch. The tables are those that are built in.
#![tactic(auto)]

mod alone;
mod by_lines;
mod filled;
mod given;
mod in_room;
mod layouts;
mod lists;
mod made;
mod options;
mod parts;
mod shown;
mod texts;

use alone::push_alone;
use anyhow::{Result, bail};
use by_lines::{compare, push_by_lines};
use filled::push_filled;
use given::Given;
use in_room::{push_lines, push_of_lines, push_paragraphs, push_starts, push_whole_levels};
use layouts::{laid_out, push_layouts};
use made::push_what;
use options::{Form, Options};
use parts::{push_breaks, push_part};
use room::base_levels::{base_level, is_left_to_right};
use room::room::Room;
use row_files::files::{Check, check_files};
use row_files::shown::push_levels;
use row_files::words::push_word;
use shown::InRoom;
use std::alloc::Global;
use std::process::ExitCode;
use texts::push_of_text;
use ucdfiles::tables::Tables;

/// Does what the rows ask for, with these tables.
#[derive(Drop)]
struct LayoutRows {
    tables: Tables,
}

/// Appends what a room says of the text in it.
fn push_in_room(alloc: Global, verb: &str, in_room: InRoom<'_>, out: &mut String) -> Result<()> {
    let room = in_room.room;
    match verb {
        "starts" => Ok(push_starts(room, out)?),
        "levels before L1" => Ok(push_levels(out, room.resolved_levels())?),
        "whole levels" => push_whole_levels(alloc, room, out),
        "paragraphs" => Ok(push_paragraphs(room, out)?),
        "lines" => push_lines(alloc, room, out),
        "places" => push_of_lines(alloc, false, room, out),
        "runs" => push_of_lines(alloc, true, room, out),
        "shown" => in_room.push_lines(alloc, out),
        _ => bail!("no verb is named {verb}"),
    }
}

impl LayoutRows {
    /// Appends the layouts of texts in one room. Fails if `lines` gives others.
    fn push_texts(&self, alloc: Global, texts: &[&str], out: &mut String) -> Result<()> {
        push_layouts(alloc, &self.tables, texts, out)?;
        let mut by_lines = String::new(alloc);
        if push_by_lines(alloc, &self.tables, texts, &mut by_lines)? {
            compare(&by_lines, out.as_str())?;
        }
        Ok(())
    }

    /// Appends the level of the first paragraph of a text (P2, P3), or the offset of what is no character.
    fn push_level(&self, options: &Options, given: &Given, out: &mut String) -> Result<()> {
        match base_level(&self.tables, given.source(), options.direction) {
            Ok(level) => push_word(out, level.level().get())?,
            Err(at) => push_word(out, format_args!("IllFormed({at})"))?,
        }
        Ok(())
    }

    /// Appends whether a text has only classes that stay at level 0.
    fn push_left_to_right(&self, given: &Given, out: &mut String) -> Result<()> {
        match is_left_to_right(&self.tables, given.source()) {
            Ok(stays) => push_word(out, stays)?,
            Err(at) => push_word(out, format_args!("IllFormed({at})"))?,
        }
        Ok(())
    }

    /// Appends what comes out of one text.
    fn push_text(
        &self,
        alloc: Global,
        verb: &str,
        options: &Options,
        text: &str,
        out: &mut String,
    ) -> Result<()> {
        if options.form == Form::Text {
            return push_of_text(alloc, &self.tables, verb, options, text, out);
        }
        let given = Given::of_field(alloc, options, text)?;
        match verb {
            "level" => return self.push_level(options, &given, out),
            "left to right" => return self.push_left_to_right(&given, out),
            "line" => return push_alone(alloc, &self.tables, options, &given, out),
            _ => {}
        }
        let room: Room = laid_out(alloc, &self.tables, options, &given)?;
        let in_room = InRoom {
            tables: &self.tables,
            room: &room,
            given: &given,
            shown_as: &options.shown_as,
        };
        push_in_room(alloc, verb, in_room, out)
    }

    /// Appends what comes out of a verb with options.
    fn push_with_options(
        &self,
        alloc: Global,
        verb: &str,
        texts: &[&str],
        out: &mut String,
    ) -> Result<()> {
        let [options, text, ..] = *texts else {
            bail!("this verb takes options and a text");
        };
        let options = Options::of_field(alloc, options)?;
        if verb == "layout" && options.form != Form::Text {
            self.push_texts(alloc, texts, out)
        } else {
            self.push_text(alloc, verb, &options, text, out)
        }
    }
}

impl Check for LayoutRows {
    fn come_out(&self, alloc: Global, fields: &[&str], out: &mut String) -> Result<()> {
        match *fields {
            ["breaks", len, at] => push_breaks(alloc, len, at, out),
            ["made", what, n] => push_what(alloc, what, n, out),
            ["order" | "resets", ..] => push_part(alloc, fields, out),
            ["filled", ref texts @ ..] => push_filled(alloc, &self.tables, texts, out),
            [verb, ref texts @ ..] => self.push_with_options(alloc, verb, texts, out),
            [] => bail!("no verb"),
        }
    }
}

fn main(rt: HostRuntime) -> Result<ExitCode> {
    let tables = standard::tables();
    check_files(&rt, &LayoutRows { tables })
}
