// BD16: keys of brackets; two keys are equal exactly if the canonical decompositions of their characters are.
ghost use Rattle.std.specs.Prelude.{◌≡◌, ℕ, List, [], ◌∷◌, length, Some, IfOk, OnOk};
ghost use Rattle.unicode_normalization.specs.Forms.{nfd};
ghost use Rattle.ucdfiles.specs.Keys.{AreKeyed};
ghost use Rattle.ucdfiles.specs.Spans.{IsRising};

use crate::sided_bracket::SidedBracket;
use crate::span::Span;
use std::alloc::{AllocError, Global};
use std::collections::BTreeMap;
use std::marker::Model;
use unicode_normalization::slice::extend_nfd;
use units::bracket::{Bracket, Key};

fn decomposition(alloc: Global, c: char) -> Result<Vec<char>, AllocError>
    ensures { IfOk result (λ d. d.items ≡ nfd (c ∷ [])) }
{
    let mut decomposition = Vec::new(alloc);
    extend_nfd(&mut decomposition, &[c])?;
    Ok(decomposition)
}

/// A number for each canonical decomposition so far: the first has 0, and each new one the next number.
#[derive(Drop)]
struct Numbering {
    numbers: BTreeMap<Vec<char>, u32>,
}

impl Model for Numbering {
    ghost use Rattle.std.specs.Prelude.{ℕ, List, map};
    ghost use Rattle.ucdfiles.specs.Keys.{IsNumbering};

    ghost Value = { List (List ℕ × ℕ) };

    ghost view = { λ t. map (λ e. (e.0.items, e.1)) t.numbers.entries };

    ghost invariant = { λ t. IsNumbering (map (λ e. (e.0.items, e.1)) t.numbers.entries) };
}

impl Numbering {
    ghost use Rattle.ucdfiles.specs.Keys.{IsNumbering, Keeps, number_in};

    /// Makes a numbering without numbers.
    pub fn new(alloc: Global) -> Self
        ensures { result ≡ [] }
    {
        Numbering {
            numbers: BTreeMap::new(alloc),
        }
    }

    // Returns the number of the next new decomposition.
    fn next(&self) -> Result<u32, AllocError>
        ensures { IfOk result (λ n. n ≡ length self.now) }
    {
        u32::try_from(self.numbers.len()).map_err(|_| AllocError)
    }

    /// Returns the number of a character's canonical decomposition, and adds one if it is new.
    pub fn number(&mut self, alloc: Global, c: char) -> Result<u32, AllocError>
        ensures numbering { OnOk result (IsNumbering self.new) }
        ensures unchanged { OnOk result (Keeps self.old self.new) }
        ensures number { IfOk result (λ n. number_in self.new (nfd (c ∷ [])) ≡ Some n) }
    {
        let decomposition = decomposition(alloc, c)?;
        if let Some(number) = self.numbers.get(&decomposition) {
            return Ok(*number);
        }
        let number = self.next()?;
        self.numbers.insert(decomposition, number)?;
        Ok(number)
    }
}

/// Returns the brackets of the same code points, in the same order, with keys.
pub fn keyed(alloc: Global, spans: &[Span<SidedBracket>]) -> Result<Vec<Span<Bracket>>, AllocError>
    requires { IsRising spans.now }
    ensures keyed { IfOk result (λ brackets. AreKeyed spans.now brackets.items) }
    ensures rising { IfOk result (λ brackets. IsRising brackets.items) }
{
    let mut numbering = Numbering::new(alloc);
    let mut brackets = Vec::new(alloc);
    for span in spans {
        let number = numbering.number(alloc, span.value.keyed_by)?;
        brackets.push(Span {
            first: span.first,
            last: span.last,
            value: span.value.side.with_key(Key::new(number)),
        })?;
    }
    Ok(brackets)
}
