// Cuts pieces of a stream into lines, in a buffer of its own.
ghost use Rattle.std.specs.Prelude.{◌≡◌, ◌≢◌, ℕ, ◌+◌, ◌<◌, ◌≤◌, List, [], ◌∷◌, ◌++◌, length, take, IfSome};
ghost use Rattle.units.specs.Lines.{HasNoFeed, EndsByFeed, UsesOneLine, CutsInto, IsTooLongAfter, cut_lines};
ghost use Rattle.units.specs.Text.{longest_line};

use memchr::memchr;
use std::marker::Model;

/// The greatest number of bytes of a line before its line feed.
pub const LONGEST_LINE: usize = 65_536;

/// The state of a line splitter within its line.
#[derive(Debug, Clone, Copy, PartialEq, Eq)]
pub enum Phase {
    /// The line has not ended.
    Within,
    /// The line has ended and was returned.
    Ended,
    /// A line was over-long.
    Failed,
}

/// The effect of a piece.
#[derive(Debug, Clone, Copy, PartialEq, Eq)]
pub enum Cut<'c> {
    /// The piece is used up, and the line has not ended.
    More,
    /// A line has ended: `number` counts from 1 up to at most 2^64 - 1, `text` is the line without its LF.
    Line { number: u64, text: &'c [u8] },
    /// The line of this number has more than 65,536 bytes before its LF.
    TooLong { number: u64 },
}

/// Splits a stream of bytes, in pieces of any size, into lines that LF ends. It takes no memory: the line that has
/// begun is stored in a buffer of its own. Contracts see the byte lists that the line splitter represents: the pieces
/// that it was given, joined.
#[derive(Drop)]
pub struct LineCut {
    buffer: [u8; LONGEST_LINE],
    len: usize,
    done: u64,
    phase: Phase,
}

impl Model for LineCut {
    ghost use Rattle.std.specs.Prelude.{◌≤◌, take};
    ghost use Rattle.units.specs.LineCutting.{Cutting};
    ghost use Rattle.units.specs.Text.{longest_line};

    ghost Value = { Cutting };

    ghost view = { λ s. record { phase = s.phase; done = s.done; stored = take s.len s.buffer } };

    ghost invariant = { λ s. s.len ≤ longest_line };
}

// Writes the bytes at this index.
fn put(buffer: &mut [u8], at: usize, bytes: &[u8])
    requires { at + length bytes.now ≤ length buffer.old }
    ensures { take (at + length bytes.now) buffer.new ≡ take at buffer.old ++ bytes.now }
{
    buffer[at..at + bytes.len()].copy_from_slice(bytes);
}

impl LineCut {
    ghost use Rattle.units.specs.LineCutting.{Cutting, Represents, GoesOn, IfCut, IfTooLong, Reaches};
    ghost use Rattle.units.specs.LineReturns.{ReturnsPiece, Finishes, CutIsShort};
    ghost use Rattle.units.specs.contracts.line_cut.LineCut.{the_row};
    ghost use Rattle.std.specs.Borrow.{sem};
    ghost use Rattle.std.specs.Io.BufRead.{Rests};

    /// Makes a line splitter before the first byte.
    pub fn new() -> Self
        ensures { Represents result [] }
    {
        LineCut {
            buffer: [0; LONGEST_LINE],
            len: 0,
            done: 0,
            phase: Phase::Within,
        }
    }

    // Begins the next line if a line has ended.
    fn begin(&mut self)
        ensures represents { (b : List ℕ) → Represents self.old b → Represents self.new b }
        ensures open { self.new.phase ≢ Phase.Ended }
    {
        if let Phase::Ended = self.phase {
            self.phase = Phase::Within;
            self.len = 0;
        }
    }

    // Stores more bytes of a line.
    fn hold(&mut self, text: &[u8])
        requires within { self.old.phase ≡ Phase.Within }
        requires feeds { HasNoFeed text.now }
        ensures represents { GoesOn self.old text.now self.new }
        ensures open { self.new.phase ≢ Phase.Ended }
    {
        if text.len() > LONGEST_LINE - self.len {
            self.phase = Phase::Failed;
        } else {
            put(&mut self.buffer, self.len, text);
            self.len += text.len();
        }
    }

    // Ends a line with its line feed.
    fn end(&mut self)
        requires { self.old.phase ≢ Phase.Ended }
        ensures represents { GoesOn self.old (10 ∷ []) self.new }
        ensures ended { self.new.phase ≢ Phase.Within }
    {
        if let Phase::Within = self.phase {
            self.phase = Phase::Ended;
            self.done = self.done.saturating_add(1);
        }
    }

    // Takes the piece through its first LF, or whole, and returns how many bytes were used.
    fn advance(&mut self, piece: &[u8]) -> usize
        ensures used { result ≤ length piece.now }
        ensures represents { GoesOn self.old (take result piece.now) self.new }
        ensures some { 0 < length piece.now → 0 < result }
        ensures reaches { Reaches self.new.phase result piece.now }
        ensures through { IfCut self.old (EndsByFeed result piece.now) }
        ensures line { IfCut self.old (UsesOneLine result piece.now) }
        ensures whole { IfTooLong self.old (result ≡ length piece.now) }
    {
        self.begin();
        if let Phase::Failed = self.phase {
            return piece.len();
        }
        match memchr(b'\n', piece) {
            None => {
                self.hold(piece);
                piece.len()
            }
            Some(n) => {
                self.hold(&piece[..n]);
                self.end();
                n + 1
            }
        }
    }

    fn text(&self) -> &[u8]
        ensures stored { result.now ≡ self.now.stored }
        ensures short { length result.now ≤ longest_line }
    {
        &self.buffer[..self.len]
    }

    /// Takes the piece through its first LF, or whole if it has none. Returns how many of its bytes were used, and
    /// their effect. After an over-long line, each piece is used whole and the same `TooLong` is returned.
    pub fn take(&mut self, piece: &[u8]) -> (usize, Cut<'_>)
        ensures used { result.0 ≤ length piece.now }
        ensures some { 0 < length piece.now → 0 < result.0 }
        ensures through { IfCut self.old (EndsByFeed result.0 piece.now) }
        ensures line { IfCut self.old (UsesOneLine result.0 piece.now) }
        ensures whole { IfTooLong self.old (result.0 ≡ length piece.now) }
        ensures short { CutIsShort result.1 }
        ensures outcome { (b : List ℕ) → Represents self.old b → ReturnsPiece b piece.now result.0 result.1 }
        ensures* after { sem 𝓛 (Rests the_row self.entry (GoesOn self.old (take result.0 piece.now))) }
    {
        let used = self.advance(piece);
        let done = self.done;
        match self.phase {
            Phase::Within => (used, Cut::More),
            Phase::Ended => {
                let text = self.text();
                (used, Cut::Line { number: done, text })
            }
            Phase::Failed => {
                let number = done.saturating_add(1);
                (used, Cut::TooLong { number })
            }
        }
    }

    /// Returns the number and the bytes of the line that has begun and not ended, if it has a byte. Returns `None`
    /// after an over-long line.
    pub fn finish(&self) -> Option<(u64, &[u8])>
        ensures last { (b : List ℕ) → Represents self.now b → Finishes b result }
        ensures short { IfSome result (λ last. length last.1.now ≤ longest_line) }
    {
        match self.phase {
            Phase::Within => {
                let text = self.text();
                if text.is_empty() {
                    return None;
                }
                Some((self.done.saturating_add(1), text))
            }
            Phase::Ended => None,
            Phase::Failed => None,
        }
    }
}

/// Bytes have only one cutting into lines, whatever the pieces are.
pub fn reads_as_its_lines()
    ensures { (bytes : List ℕ) (lines : List (List ℕ)) (rest : List ℕ)
        → CutsInto bytes lines rest → cut_lines bytes ≡ lines ++ rest ∷ [] }
{}

/// A byte list with an over-long line has no cutting into lines.
pub fn reads_one_way()
    ensures { (bytes : List ℕ) (lines others : List (List ℕ)) (rest : List ℕ)
        → IsTooLongAfter bytes lines → ¬ CutsInto bytes others rest }
{}
