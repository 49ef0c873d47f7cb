//! Lays out a text with the built-in tables. Prints the level of each character and each line as it is shown, and then
//! where the cursor goes in the same text in UTF-8: from each column to a byte, and from each byte to a column. Finally
//! lays out bytes that end inside a character. They are rejected, so the program ends with status 1 and the reason on
//! standard error.
#![tactic(auto)]

use decoding::fault::Faults;
use room::room::Room;
use room::text::{Direction, Text};
use sources::source::{Ask, Source};
use ucdfiles::tables::Tables;
use units::limits::Limits;

const WORDS: &str = "ab (\u{5D2}\u{5D3}) 12";

/// Bytes that end inside a character.
const CUT_OFF: &[u8] = b"ab \xD7";

/// Prints each character that has a level, and its level.
fn print_levels(rt: &HostRuntime, text: &Text<'_>) -> anyhow::Result<()> {
    for (c, level) in text.chars().iter().zip(text.layout().levels()) {
        if let Some(level) = level {
            println!(rt; "{c} {}", level.get())?;
        }
    }
    Ok(())
}

/// Prints each line as it is shown.
fn print_lines(rt: &HostRuntime, text: &Text<'_>) -> anyhow::Result<()> {
    for k in 0..text.layout().line_count() {
        println!(rt; "{}", text.shown_line(rt.alloc(), k)?)?;
    }
    Ok(())
}

/// Lays out the text, and prints it character by character and line by line.
fn print_text(rt: &HostRuntime, tables: &Tables) -> anyhow::Result<()> {
    let text = Text::lay_out(rt.alloc(), tables, WORDS, Direction::Rtl, &[])?;
    print_levels(rt, &text)?;
    print_lines(rt, &text)
}

/// Prints the byte at which the character in each column begins.
fn print_columns(rt: &HostRuntime, bytes: &[usize]) -> anyhow::Result<()> {
    for (column, at) in bytes.iter().enumerate() {
        println!(rt; "column {column}: byte {at}")?;
    }
    Ok(())
}

/// Prints the column of each byte.
fn print_places(rt: &HostRuntime, columns: &[usize]) -> anyhow::Result<()> {
    for (at, column) in columns.iter().enumerate() {
        println!(rt; "byte {at}: column {column}")?;
    }
    Ok(())
}

/// Prints where the cursor goes in the first line.
fn print_cursor(rt: &HostRuntime, room: &Room) -> anyhow::Result<()> {
    if room.line_count() == 0 {
        return Ok(());
    }
    let (mut bytes, mut columns) = ([0; 16], [0; 16]);
    let shown = room.order(0, &mut bytes);
    let length = room.places(0, &mut columns);
    print_columns(rt, bytes.get(..shown).unwrap_or(&[]))?;
    print_places(rt, columns.get(..length).unwrap_or(&[]))
}

/// Lays out bytes of UTF-8, and prints where the cursor goes. Fails if they are not UTF-8.
fn print_bytes(
    rt: &HostRuntime,
    tables: &Tables,
    room: &mut Room,
    bytes: &[u8],
) -> anyhow::Result<()> {
    let ask = Ask {
        source: Source::Utf8(bytes, Faults::Rejected),
        direction: Direction::Rtl,
        breaks: &[],
        limits: Limits::standard(),
    };
    room.lay_out(tables, &ask)?;
    print_cursor(rt, room)
}

fn main(rt: HostRuntime) -> anyhow::Result<()> {
    let tables = standard::tables();
    print_text(&rt, &tables)?;
    let mut room = Room::reserve(rt.alloc(), 16, true)?;
    print_bytes(&rt, &tables, &mut room, WORDS.as_bytes())?;
    print_bytes(&rt, &tables, &mut room, CUT_OFF)
}
