//! The lines of a text in a room as they are shown (L2, L4).
ghost use Rattle.std.specs.Prelude.{◌<◌, length};

use crate::given::Given;
use crate::lists::filled;
use anyhow::{Result, ensure};
use room::room::Room;
use row_files::words::push_word;
use std::alloc::Global;
use ucdfiles::tables::Tables;

/// A text in a room, and the code points as which classes are shown.
#[derive(Clone, Copy)]
pub struct InRoom<'a> {
    pub tables: &'a Tables,
    pub room: &'a Room,
    pub given: &'a Given,
    pub shown_as: &'a [u32],
}

impl InRoom<'_> {
    /// Appends a line of code points.
    fn push_codes(self, alloc: Global, codes: &[u32], k: usize, out: &mut String) -> Result<()>
        requires { k < length self.room.now.layout.lines }
    {
        let InRoom { tables, room, .. } = self;
        ensure!(
            codes.len() == room.characters(),
            "not as many code points as characters"
        );
        for code in &filled(alloc, u32::MAX, |out| room.shown(tables, codes, k, out))? {
            push_word(out, format_args!("{code:04X}"))?;
        }
        Ok(())
    }

    /// Appends a line of bytes.
    fn push_bytes(self, alloc: Global, bytes: &[u8], k: usize, out: &mut String) -> Result<()>
        requires { k < length self.room.now.layout.lines }
    {
        let InRoom { tables, room, .. } = self;
        ensure!(bytes.len() == room.text_len(), "not as many bytes as units");
        for byte in &filled(alloc, u8::MAX, |out| room.shown_utf8(tables, bytes, k, out))? {
            push_word(out, format_args!("{byte:02X}"))?;
        }
        Ok(())
    }

    /// Appends a line of code units of UTF-16.
    fn push_units(self, alloc: Global, units: &[u16], k: usize, out: &mut String) -> Result<()>
        requires { k < length self.room.now.layout.lines }
    {
        let InRoom { tables, room, .. } = self;
        ensure!(
            units.len() == room.text_len(),
            "not as many code units as units"
        );
        for unit in &filled(
            alloc,
            u16::MAX,
            |out| room.shown_utf16(tables, units, k, out),
        )? {
            push_word(out, format_args!("{unit:04X}"))?;
        }
        Ok(())
    }

    /// Appends a line.
    fn push_line(self, alloc: Global, k: usize, out: &mut String) -> Result<()>
        requires { k < length self.room.now.layout.lines }
    {
        match self.given {
            Given::Classes(_) => self.push_codes(alloc, self.shown_as, k, out),
            Given::Codes(codes) => self.push_codes(alloc, codes, k, out),
            Given::Utf8(bytes, _) => self.push_bytes(alloc, bytes, k, out),
            Given::Utf16(units, _) => self.push_units(alloc, units, k, out),
        }
    }

    /// Appends each line, with `|` between them.
    pub fn push_lines(self, alloc: Global, out: &mut String) -> Result<()> {
        for k in 0..self.room.line_count() {
            if k > 0 {
                push_word(out, "|")?;
            }
            self.push_line(alloc, k, out)?;
        }
        Ok(())
    }
}
