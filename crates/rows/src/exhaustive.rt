//! All texts of some lengths over an alphabet.
ghost use Rattle.std.specs.Prelude.{◌≡◌, IfOk};
ghost use Rattle.std.specs.Result.{result_err};

use crate::fault::RowsFault;
use crate::letter::Letter;
use std::marker::Model;

/// The longest text of a row, in units. No line of such a text is longer than the judge reads.
pub const LONGEST_ROW: usize = 4095;

/// All texts over an alphabet from a least length up to a greatest, in units. Shorter texts come first. Texts of one
/// length have the order of the alphabet, in which the last place changes fastest. There are no texts if the least
/// length is above the greatest.
#[derive(Drop)]
pub struct Exhaustive<'a> {
    alphabet: &'a [Letter],
    least: usize,
    greatest: usize,
}

impl<'a> Model for Exhaustive<'a> {
    ghost use Rattle.rows.specs.Exhaustive.{ExhaustiveOf, CanBeCounted};

    ghost Value = { ExhaustiveOf };

    ghost view = { λ e. record { alphabet = e.alphabet.now; least = e.least; greatest = e.greatest } };

    ghost invariant = { λ e. CanBeCounted (record {
      alphabet = e.alphabet.now;
      least = e.least;
      greatest =
          e.greatest;
    }) };
}

impl<'a> Exhaustive<'a> {
    ghost use Rattle.rows.specs.Exhaustive.{CanBeCounted, ExhaustiveOf, rejection_of};

    /// Returns the texts of these lengths over this alphabet. Duplicate letters count. Errors are checked in the order
    /// in which `RowsFault` lists them.
    pub fn new(
        alphabet: &'a [Letter],
        least: usize,
        greatest: usize,
    ) -> Result<Exhaustive<'a>, RowsFault>
        ensures made { IfOk result (λ e. e ≡ record { alphabet = alphabet.now; least = least; greatest = greatest }) }
        ensures rejected { result_err result ≡ rejection_of (record {
          alphabet = alphabet.now;
          least = least;
          greatest =
              greatest;
        }) }
    {
        if alphabet.is_empty() {
            return Err(RowsFault::NoLetter);
        }
        if least == 0 {
            return Err(RowsFault::NoLength);
        }
        if greatest > LONGEST_ROW {
            return Err(RowsFault::TooLong);
        }
        match alphabet.len().checked_pow(greatest as u32) {
            Some(_) => Ok(Exhaustive {
                alphabet,
                least,
                greatest,
            }),
            None => Err(RowsFault::TooMany),
        }
    }

    /// Returns the alphabet.
    pub fn alphabet(&self) -> &[Letter]
        ensures { result.now ≡ self.now.alphabet }
    {
        self.alphabet
    }

    /// Returns the least length, in units.
    pub fn least(&self) -> usize
        ensures { result ≡ self.now.least }
    {
        self.least
    }

    /// Returns the greatest length, in units.
    pub fn greatest(&self) -> usize
        ensures value { result ≡ self.now.greatest }
        ensures counted { CanBeCounted self.now }
    {
        self.greatest
    }
}
