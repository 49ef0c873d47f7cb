//! The classes of a paragraph after each rule from W1 to N2, and its levels after I1 and I2.
ghost use Rattle.std.specs.Prelude.{◌≡◌, length, IfOk};
ghost use Rattle.paragraph.specs.Covering.{AreDisjoint, positions_in};
ghost use Rattle.resolve.specs.Wanted.{AreOwn};
ghost use Rattle.rule_columns.specs.Columns.{bracket_part, weak_part};
ghost use Rattle.rule_columns.specs.Passes.{by_pass, implicit_of, rewritten};
ghost use Rattle.rule_columns.specs.declared.pass.Pass.TheVariants as pass;

use crate::bracketing::pair_brackets;
use crate::implicit_levels::implicit_levels;
use crate::pass::Pass;
use crate::rewriting::rewritten;
use resolve::pairs::Pairs;
use sequences::sequences::Sequences;
use std::alloc::Global;
use std::marker::Model;
use std::sync::ledger::Ledger;
use units::bracket::Unit;
use units::class::Class;
use units::level::Level;
use units::memory::Memory;
use units::steps::Steps;

/// The classes after each of W1 to W7.
#[derive(Drop)]
pub struct WeakPart {
    pub(crate) w1: Vec<Class>,
    pub(crate) w2: Vec<Class>,
    pub(crate) w3: Vec<Class>,
    pub(crate) w4: Vec<Class>,
    pub(crate) w5: Vec<Class>,
    pub(crate) w6: Vec<Class>,
    pub(crate) w7: Vec<Class>,
}

impl Model for WeakPart {
    ghost use Rattle.rule_columns.specs.Columns.{WeakOf};

    ghost Value = { WeakOf };

    ghost view = { λ part. record {
      w1 = part.w1.items;
      w2 = part.w2.items;
      w3 = part.w3.items;
      w4 = part.w4.items;
      w5 =
          part.w5.items;
      w6 = part.w6.items;
      w7 = part.w7.items;
    } };
}

impl WeakPart {
    /// Applies W1 to W7 to a paragraph, given its sequences and its classes after X1 to X9. Fails with `Memory` if an
    /// allocation fails.
    pub fn of<L: Ledger>(
        alloc: Global,
        sequences: &Sequences,
        current: &[Class],
        steps: &mut Steps<L>,
    ) -> Result<WeakPart, Memory>
        requires apart { AreDisjoint sequences.now.extent sequences.now.all }
        requires length { length current.now ≡ sequences.now.extent }
        ensures value { IfOk result (λ part. part ≡ weak_part sequences.now.all current.now) }
        ensures length { IfOk result (λ part. length part.w7 ≡ sequences.now.extent) }
    {
        let w1 = rewritten(alloc, Pass::W1, sequences, current, steps)?;
        let w2 = rewritten(alloc, Pass::W2, sequences, &w1, steps)?;
        let w3 = rewritten(alloc, Pass::W3, sequences, &w2, steps)?;
        let w4 = rewritten(alloc, Pass::W4, sequences, &w3, steps)?;
        let w5 = rewritten(alloc, Pass::W5, sequences, &w4, steps)?;
        let w6 = rewritten(alloc, Pass::W6, sequences, &w5, steps)?;
        let w7 = rewritten(alloc, Pass::W7, sequences, &w6, steps)?;
        Ok(WeakPart {
            w1,
            w2,
            w3,
            w4,
            w5,
            w6,
            w7,
        })
    }
}

/// The bracket pairs (BD16), and the classes after N0.
#[derive(Drop)]
pub struct BracketPart {
    pub(crate) pairs: Pairs,
    pub(crate) n0: Vec<Class>,
}

impl Model for BracketPart {
    ghost use Rattle.rule_columns.specs.Columns.{BracketOf};

    ghost Value = { BracketOf };

    ghost view = { λ part. record { closers = part.pairs; n0 = part.n0.items } };
}

impl BracketPart {
    /// Applies BD16 and N0 to a paragraph, given its sequences, its classes before W1, and those after W7. Fails with
    /// `Memory` if an allocation fails.
    pub fn of<L: Ledger>(
        alloc: Global,
        sequences: &Sequences,
        para: &[Unit],
        current: &[Class],
        weak: &[Class],
        steps: &mut Steps<L>,
    ) -> Result<BracketPart, Memory>
        requires apart { AreDisjoint sequences.now.extent sequences.now.all }
        requires para { length para.now ≡ sequences.now.extent }
        requires current { length current.now ≡ sequences.now.extent }
        requires weak { length weak.now ≡ sequences.now.extent }
        requires own { AreOwn (positions_in sequences.now.all) para.now current.now }
        ensures value { IfOk result (λ part. part ≡ bracket_part sequences.now.all para.now current.now weak.now) }
        ensures length { IfOk result (λ part. length part.n0 ≡ sequences.now.extent) }
    {
        let mut pairs = Pairs::with_room(alloc, para.len())?;
        let mut n0 = Vec::from_slice(alloc, weak)?;
        pair_brackets(sequences, para, current, &mut pairs, &mut n0, steps);
        Ok(BracketPart { pairs, n0 })
    }
}

/// The classes after N1 and after N2, and the levels after I1 and I2.
#[derive(Drop)]
pub struct ResolvedPart {
    pub(crate) n1: Vec<Class>,
    pub(crate) n2: Vec<Class>,
    pub(crate) implicit: Vec<Option<Level>>,
}

impl ResolvedPart {
    /// Applies N1 to I2 to a paragraph, given its sequences and its classes after N0. Fails with `Memory` if an
    /// allocation fails.
    pub fn of<L: Ledger>(
        alloc: Global,
        sequences: &Sequences,
        n0: &[Class],
        steps: &mut Steps<L>,
    ) -> Result<ResolvedPart, Memory>
        requires apart { AreDisjoint sequences.now.extent sequences.now.all }
        requires length { length n0.now ≡ sequences.now.extent }
        ensures n1 { IfOk result (λ part. part.n1.items
            ≡ rewritten (by_pass pass.N1) sequences.now.all n0.now) }
        ensures n2 { IfOk result (λ part. part.n2.items
            ≡ rewritten (by_pass pass.N2) sequences.now.all part.n1.items) }
        ensures implicit { IfOk result (λ part. part.implicit.items
            ≡ implicit_of sequences.now.all part.n2.items) }
    {
        let n1 = rewritten(alloc, Pass::N1, sequences, n0, steps)?;
        let n2 = rewritten(alloc, Pass::N2, sequences, &n1, steps)?;
        let implicit = implicit_levels(alloc, sequences, &n2, steps)?;
        Ok(ResolvedPart { n1, n2, implicit })
    }
}
