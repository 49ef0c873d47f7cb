//! Cuts a text into its paragraphs (P1).
ghost use Rattle.std.specs.Prelude.{◌≡◌, ◌≤◌, ◌↔◌, List, length, position};
ghost use Rattle.std.specs.Iterator.{YieldsFirstRef, item_count};
ghost use Rattle.units.specs.Classes.{is_separator};
ghost use Rattle.units.specs.Paragraphs.{IsCutting, paragraphs_of};
ghost use Rattle.units.specs.declared.bracket.Unit.{Unit as BidiUnit};
ghost use Rattle.explicit.specs.FirstParagraph.{first_length};

use std::marker::Model;
use units::bracket::Unit;

/// The paragraphs of a text that are still to come, in order. Contracts see the list of these paragraphs.
#[derive(Drop)]
pub struct Paragraphs<'a> {
    pub(crate) rest: &'a [Unit],
}

impl<'a> Model for Paragraphs<'a> {
    ghost use Rattle.std.specs.Prelude.{List};
    ghost use Rattle.units.specs.declared.bracket.Unit.{Unit as BidiUnit};
    ghost use Rattle.units.specs.Paragraphs.{paragraphs_of};

    ghost Value = { List (List BidiUnit) };

    ghost view = { λ s. paragraphs_of s.rest.now };
}

/// A text is cut into paragraphs in exactly one way (P1). No piece is empty, a unit of class B can only be the last one
/// of a piece, and every piece but the last one ends with such a unit.
pub fn one_cutting()
    ensures { (text : List BidiUnit) (pieces : List (List BidiUnit))
        → IsCutting text pieces ↔ (pieces ≡ paragraphs_of text) }
{}

fn first_separator(text: &[Unit]) -> Option<usize>
    ensures { result ≡ position (λ unit. is_separator unit.class) text.now }
{
    text.iter().position(|unit| unit.class.is_separator())
}

fn first_length(text: &[Unit]) -> usize
    ensures value { result ≡ first_length text.now }
    ensures within { result ≤ length text.now }
{
    match first_separator(text) {
        Some(last) => last + 1,
        None => text.len(),
    }
}

impl<'a> Iterator for Paragraphs<'a> {
    type Item = &'a [Unit];

    ghost next_gives = { YieldsFirstRef (λ pieces. pieces) };

    ghost remaining = { item_count (λ pieces. pieces) };

    fn next(&mut self) -> Option<&'a [Unit]> {
        if self.rest.is_empty() {
            return None;
        }
        let (first, others) = self.rest.split_at(first_length(self.rest));
        self.rest = others;
        Some(first)
    }
}
