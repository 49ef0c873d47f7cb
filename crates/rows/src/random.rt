//! Texts drawn from an alphabet.
ghost use Rattle.std.specs.Prelude.{◌≡◌, IfOk};
ghost use Rattle.std.specs.Result.{result_err};

use crate::exhaustive::LONGEST_ROW;
use crate::fault::RowsFault;
use crate::letter::Letter;
use std::marker::Model;

/// Texts drawn from an alphabet with a seed. Their lengths are from the least up to the greatest, in units. The text
/// with a number is the same for the same seed, alphabet and lengths, on each machine and for each number of texts. Its
/// length and its letters are drawn, one word each, from the PCG32 generator whose state is the seed and whose stream
/// is the text's number, counted from 0. A letter that is in the alphabet twice is drawn twice as often.
#[derive(Drop)]
pub struct Random<'a> {
    alphabet: &'a [Letter],
    least: usize,
    greatest: usize,
    seed: u64,
    count: usize,
}

impl<'a> Model for Random<'a> {
    ghost use Rattle.rows.specs.Random.{CanBeDrawn, RandomOf};

    ghost Value = { RandomOf };

    ghost view = { λ r. record {
      alphabet = r.alphabet.now;
      least = r.least;
      greatest = r.greatest;
      seed = r.seed;
      count = r.count;
    } };

    ghost invariant = { λ r. CanBeDrawn (record {
      alphabet = r.alphabet.now;
      least = r.least;
      greatest = r.greatest;
      seed = r.seed;
      count = r.count;
    }) };
}

impl<'a> Random<'a> {
    ghost use Rattle.rows.specs.Random.{CanBeDrawn, RandomOf, no_drawing_of};

    /// Returns `count` texts of these lengths over this alphabet, drawn with this seed. Errors are checked in this
    /// order: `NoLetter`, `NoLength`, `TooLong`, `NoneBetween`.
    pub fn new(
        alphabet: &'a [Letter],
        least: usize,
        greatest: usize,
        seed: u64,
        count: usize,
    ) -> Result<Random<'a>, RowsFault>
        ensures made { IfOk result (λ r. r ≡ record {
          alphabet = alphabet.now;
          least = least;
          greatest = greatest;
          seed = seed;
          count = count;
        }) }
        ensures rejected { result_err result ≡ no_drawing_of (record {
          alphabet = alphabet.now;
          least = least;
          greatest = greatest;
          seed = seed;
          count = count;
        }) }
    {
        if alphabet.is_empty() {
            return Err(RowsFault::NoLetter);
        }
        if least == 0 {
            return Err(RowsFault::NoLength);
        }
        if greatest > LONGEST_ROW {
            return Err(RowsFault::TooLong);
        }
        if greatest < least {
            return Err(RowsFault::NoneBetween);
        }
        Ok(Random {
            alphabet,
            least,
            greatest,
            seed,
            count,
        })
    }

    /// Returns the alphabet.
    pub fn alphabet(&self) -> &[Letter]
        ensures value { result.now ≡ self.now.alphabet }
        ensures drawn { CanBeDrawn self.now }
    {
        self.alphabet
    }

    /// Returns the least length, in units.
    pub fn least(&self) -> usize
        ensures { result ≡ self.now.least }
    {
        self.least
    }

    /// Returns the greatest length, in units.
    pub fn greatest(&self) -> usize
        ensures value { result ≡ self.now.greatest }
        ensures drawn { CanBeDrawn self.now }
    {
        self.greatest
    }

    /// Returns the seed.
    pub fn seed(&self) -> u64
        ensures { result ≡ self.now.seed }
    {
        self.seed
    }

    /// Returns how many texts there are.
    pub fn count(&self) -> usize
        ensures { result ≡ self.now.count }
    {
        self.count
    }
}
