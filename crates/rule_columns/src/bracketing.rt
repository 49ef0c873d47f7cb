//! The bracket pairs (BD16) and N0 of all sequences of a paragraph.
ghost use Rattle.std.specs.Prelude.{◌≡◌, ℕ, None, length};
ghost use Rattle.paragraph.specs.Covering.{AreDisjoint, positions_in};
ghost use Rattle.resolve.specs.Pairs.{closer_in};
ghost use Rattle.resolve.specs.Wanted.{AreOwn};
ghost use Rattle.rule_columns.specs.Passes.{by_n0, closers_of, rewritten};

use resolve::paired::paired;
use resolve::pairs::{Pairs, bracket_pairs};
use sequences::sequences::Sequences;
use std::sync::ledger::Ledger;
use units::bracket::Unit;
use units::class::Class;
use units::limits::Limits;
use units::steps::Steps;

/// Finds the bracket pairs of a paragraph, and applies N0 to its classes after W7, sequence by sequence. `before` has
/// the classes before W1. `pairs` must have no pair yet.
pub fn pair_brackets<L: Ledger>(
    sequences: &Sequences,
    para: &[Unit],
    before: &[Class],
    pairs: &mut Pairs,
    classes: &mut [Class],
    steps: &mut Steps<L>,
)
    requires apart { AreDisjoint sequences.now.extent sequences.now.all }
    requires para { length para.now ≡ sequences.now.extent }
    requires before { length before.now ≡ sequences.now.extent }
    requires classes { length classes.old ≡ sequences.now.extent }
    requires own { AreOwn (positions_in sequences.now.all) para.now before.now }
    requires room { length pairs.old ≡ sequences.now.extent }
    requires fresh { (p : ℕ) → closer_in pairs.old p ≡ None }
    ensures classes { classes.new ≡ rewritten (by_n0 para.now before.now) sequences.now.all classes.old }
    ensures room { length pairs.new ≡ sequences.now.extent }
    ensures pairs { pairs.new ≡ closers_of sequences.now.all para.now classes.old }
{
    for k in 0..sequences.count() {
        let s = sequences.get(k);
        bracket_pairs(&s, para, classes, Limits::standard(), pairs, steps);
        paired(&s, before, pairs, classes, steps);
    }
}
