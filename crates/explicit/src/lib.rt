//! Paragraphs, isolates and explicit levels (P1 to P3 and X1 to X9).
#![tactic(auto)]

ghost use Rattle.std.specs.Prelude.{◌≡◌, ◌≤◌, length};
ghost use Rattle.units.specs.Paragraphs.{paragraphs_of};

pub mod cutting;
pub mod flat_theorems;
pub mod isolates;
pub mod leveled_class;
pub mod levels;
pub mod levels_alone;
pub mod para_level;
mod roles;
pub mod side;
mod status;
pub mod theorems;

use cutting::Paragraphs;
use units::bracket::Unit;

/// Cuts a text into its paragraphs (P1), in order. Each paragraph is a piece of the text, its only unit of class B is
/// the last one, and only the last paragraph may have none. Nothing is copied.
#[tactic(auto, using(crate::proofs::LevelsComputed::OneCutting::no_more_paragraphs))]
pub fn paragraphs(text: &[Unit]) -> Paragraphs<'_>
    ensures pieces { result ≡ paragraphs_of text.now }
    ensures no_more { length result ≤ length text.now }
{
    Paragraphs { rest: text }
}
