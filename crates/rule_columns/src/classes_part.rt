//! The classes of a paragraph after each rule, and its levels after I1 and I2.
ghost use Rattle.std.specs.Prelude.{◌≡◌, length, IfOk};
ghost use Rattle.paragraph.specs.Covering.{AreDisjoint, positions_in};
ghost use Rattle.resolve.specs.Wanted.{AreOwn};
ghost use Rattle.rule_columns.specs.Columns.{classes_part};

use crate::class_parts::{BracketPart, ResolvedPart, WeakPart};
use sequences::sequences::Sequences;
use std::alloc::Global;
use std::marker::Model;
use std::sync::ledger::Ledger;
use units::bracket::Unit;
use units::class::Class;
use units::memory::Memory;
use units::steps::Steps;

/// The classes after X1 to X9 and after each rule from W1 to N2, and the levels after I1 and I2.
#[derive(Drop)]
pub struct ClassesPart {
    pub(crate) current: Vec<Class>,
    pub(crate) weak: WeakPart,
    pub(crate) brackets: BracketPart,
    pub(crate) resolved: ResolvedPart,
}

impl Model for ClassesPart {
    ghost use Rattle.rule_columns.specs.Columns.{ClassesOf};

    ghost Value = { ClassesOf };

    ghost view = { λ part. record {
      current = part.current.items;
      weak = part.weak;
      brackets = part.brackets;
      neutral =
          record { n0 = part.brackets.n0; n1 = part.resolved.n1.items; n2 = part.resolved.n2.items };
      implicit =
          part.resolved.implicit.items;
    } };
}

impl ClassesPart {
    /// Applies W1 to I2 to a paragraph, given its sequences and its classes after X1 to X9. Fails with `Memory` if an
    /// allocation fails.
    pub fn of<L: Ledger>(
        alloc: Global,
        sequences: &Sequences,
        para: &[Unit],
        current: Vec<Class>,
        steps: &mut Steps<L>,
    ) -> Result<ClassesPart, Memory>
        requires apart { AreDisjoint sequences.now.extent sequences.now.all }
        requires para { length para.now ≡ sequences.now.extent }
        requires current { length current.items ≡ sequences.now.extent }
        requires own { AreOwn (positions_in sequences.now.all) para.now current.items }
        ensures { IfOk result (λ part. part ≡ classes_part sequences.now.all para.now current.items) }
    {
        let weak = WeakPart::of(alloc, sequences, &current, steps)?;
        let brackets = BracketPart::of(alloc, sequences, para, &current, &weak.w7, steps)?;
        let resolved = ResolvedPart::of(alloc, sequences, &brackets.n0, steps)?;
        Ok(ClassesPart {
            current,
            weak,
            brackets,
            resolved,
        })
    }
}
