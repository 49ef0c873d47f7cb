//! The pieces of a printed text, which a writer that fails gets one by one.
//!
//! A text is printed many bytes at once. But whatever limit a writer has, of all bytes or of those of a call, it must
//! have at the end what it would have if each piece were written by itself, and the same error comes out.

use crate::printed::{Printed, Setting};
use crate::shown::push_piece;
use crate::stop::{Outcome, Stop};
use crate::writer::{Manner, Taking};
use anyhow::Result;
use printing::reading::TextFault;
use row_files::words::push_word;
use std::alloc::AllocError;
use std::io::{self, Write};

/// What is printed, the whole text, how many calls wrote it, and where its pieces end.
#[derive(Drop)]
struct Pieces<'a> {
    printed: Printed<'a>,
    setting: Setting<'a>,
    whole: Vec<u8>,
    calls: usize,
    ends: Vec<usize>,
}

impl Pieces<'_> {
    /// Prints to a writer of this manner. Returns the outcome too.
    fn print(&self, manner: Manner) -> (Taking, Outcome) {
        let mut w = Taking::new(self.setting.alloc, manner);
        let outcome = self.setting.print(&mut w, self.printed);
        (w, outcome)
    }

    /// Finds the pieces: a writer that holds so many bytes has all pieces that fit.
    fn find(&mut self) -> Result<(), AllocError> {
        let mut last = 0;
        for most in 0..=self.whole.len() {
            let (w, _) = self.print(Manner::Holds(most));
            if w.len() > last {
                last = w.len();
                self.ends.push(last)?;
            }
        }
        Ok(())
    }

    /// Returns the piece between two ends.
    fn piece(&self, start: usize, end: usize) -> &[u8] {
        self.whole.get(start..end).unwrap_or(&[])
    }

    /// Writes each piece by itself.
    fn write_each(&self, w: &mut Taking) -> io::Result<()> {
        let mut start = 0;
        for end in &self.ends {
            w.write_all(self.piece(start, *end))?;
            start = *end;
        }
        Ok(())
    }

    /// Returns the outcome if each piece is written by itself.
    fn written_each(&self, w: &mut Taking) -> Outcome {
        match self.write_each(w) {
            Ok(()) => Ok(()),
            Err(error) if self.printed.reports_errors() => Err(Stop::Error(error.kind())),
            Err(_) => Err(Stop::Fault(TextFault::Write, 0)),
        }
    }

    /// Returns whether a writer of this manner has what it would have if each piece were written by itself, with the
    /// same outcome.
    fn agrees(&self, manner: Manner) -> bool {
        let (w, outcome) = self.print(manner);
        let mut each = Taking::new(self.setting.alloc, manner);
        let expected = self.written_each(&mut each);
        outcome == expected && w.bytes() == each.bytes()
    }

    /// Returns whether a writer that fails once, with this call, has the whole text if no error comes out, and else
    /// what it took before it failed.
    fn loses_nothing(&self, call: usize) -> bool {
        let (w, outcome) = self.print(Manner::FailsOnce(call));
        let may_fail = !self.printed.writes_all();
        match outcome {
            Ok(()) => w.bytes() == self.whole.as_slice() && w.calls() != call,
            Err(_) => may_fail && self.whole.starts_with(w.bytes()) && w.calls() == call,
        }
    }

    /// Returns the first of these manners in which a writer has not what it should have.
    fn differing(&self, manners: &[Manner]) -> Option<Manner> {
        manners
            .iter()
            .find(|manner| !self.agrees(**manner))
            .copied()
    }

    /// Returns a manner with a limit of bytes in which a writer has not what it should have.
    fn differing_limit(&self) -> Option<Manner> {
        for most in 0..self.whole.len().saturating_add(2) {
            let manners = [
                Manner::Holds(most),
                Manner::Ends(most),
                Manner::Fills(most),
                Manner::Short(most),
                Manner::Parts(most),
            ];
            if let Some(manner) = self.differing(&manners) {
                return Some(manner);
            }
        }
        None
    }

    /// Returns a call at which a writer that fails once loses something.
    fn losing_call(&self) -> Option<Manner> {
        for call in 1..=self.calls {
            if !self.loses_nothing(call) {
                return Some(Manner::FailsOnce(call));
            }
        }
        None
    }

    /// Returns a manner in which a writer has not what it should have.
    fn differing_manner(&self) -> Option<Manner> {
        self.differing_limit()
            .or_else(|| self.differing(&[Manner::Interrupted]))
            .or_else(|| self.losing_call())
    }

    /// Appends the pieces as words.
    fn push(&self, out: &mut String) -> Result<()> {
        let (alloc, is_shown) = (self.setting.alloc, self.printed.is_shown());
        let mut start = 0;
        for end in &self.ends {
            push_piece(alloc, out, is_shown, self.piece(start, *end))?;
            start = *end;
        }
        Ok(())
    }
}

/// Appends the pieces of what is printed, of which a writer took the whole, and a manner in which a writer has not what
/// it should have, if there is one.
pub fn push_pieces(
    printed: Printed<'_>,
    setting: Setting<'_>,
    taken: Taking,
    out: &mut String,
) -> Result<()> {
    let mut pieces = Pieces {
        printed,
        setting,
        calls: taken.calls(),
        whole: taken.into_bytes(),
        ends: Vec::new(setting.alloc),
    };
    pieces.find()?;
    pieces.push(out)?;
    if let Some(manner) = pieces.differing_manner() {
        push_word(out, format_args!("| not so if the writer is {manner:?}"))?;
    }
    Ok(())
}
