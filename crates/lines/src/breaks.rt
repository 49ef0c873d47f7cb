//! The breaks of a text: where lines begin besides after separators. A list of breaks is checked once.
use std::marker::Model;

/// Why a list of breaks is rejected. The index is that of the first bad break.
#[derive(Clone, Copy, Debug, PartialEq, Eq)]
pub enum BreakFault {
    /// The break is 0 or not below the text's length.
    OutOfRange(usize),
    /// The break is in range, but not above the one before.
    NotRising(usize),
}

/// Where new lines begin in a text of a given length: rising positions of the text, none of them 0.
#[derive(Drop)]
pub struct Breaks<'b> {
    at: &'b [usize],
    len: usize,
}

impl<'b> Model for Breaks<'b> {
    ghost use Rattle.lines.specs.LineBreaks.{AreBreaks, BreaksView};

    ghost Value = { BreaksView };

    ghost view = { λ b. record { positions = b.at.now; len = b.len } };

    ghost invariant = { λ b. AreBreaks b.at.now b.len };
}

impl<'b> Breaks<'b> {
    ghost use Rattle.std.specs.Prelude.{◌≡◌, MatchResult};
    ghost use Rattle.lines.specs.LineBreaks.{AreBreaks, AreBreaksOf, IsFirstBreakFault};

    /// Returns the breaks of a text of `len` units. `at` lists the positions at which a new line begins, rising.
    ///
    /// An error reports the bad break with the least index. For one break, `OutOfRange` is checked before `NotRising`.
    pub fn new(at: &'b [usize], len: usize) -> Result<Breaks<'b>, BreakFault>
        ensures { MatchResult result (AreBreaksOf at.now len) (IsFirstBreakFault at.now len) }
    {
        let mut before = 0;
        for (index, position) in at.iter().enumerate() {
            if *position == 0 || *position >= len {
                return Err(BreakFault::OutOfRange(index));
            }
            if *position <= before {
                return Err(BreakFault::NotRising(index));
            }
            before = *position;
        }
        Ok(Breaks { at, len })
    }

    /// Returns the breaks, rising.
    pub fn positions(&self) -> &'b [usize]
        ensures positions { result.now ≡ self.now.positions }
        ensures breaks { AreBreaks result.now self.now.len }
    {
        self.at
    }

    /// Returns the length of the text to which the breaks belong.
    pub fn text_len(&self) -> usize
        ensures { result ≡ self.now.len }
    {
        self.len
    }
}
