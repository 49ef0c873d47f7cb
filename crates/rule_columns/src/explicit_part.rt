//! The level of a paragraph, its explicit levels and its sequences (P2 to X10).
ghost use Rattle.std.specs.Prelude.{◌≡◌, length, IfOk};
ghost use Rattle.units.specs.Classes.{classes_of};
ghost use Rattle.units.specs.Paragraphs.{SeparatorOnlyLast};
ghost use Rattle.explicit.specs.IsolateMaps.{IsFilledFrom};
ghost use Rattle.paragraph.specs.Covering.{AreDisjoint};
ghost use Rattle.rule_columns.specs.Columns.{explicit_part, explicit_view};

use crate::deciding::first_strong;
use explicit::isolates::IsolateMap;
use explicit::levels::{Explicit, explicit_levels};
use explicit::para_level::para_level;
use sequences::sequences::Sequences;
use std::alloc::Global;
use std::sync::ledger::Ledger;
use units::bracket::Unit;
use units::level::{Direction, ParaLevel};
use units::limits::Limits;
use units::memory::Memory;
use units::steps::Steps;

/// The results of P2 to X10 for a paragraph.
#[derive(Drop)]
pub struct ExplicitPart {
    pub(crate) para_level: ParaLevel,
    pub(crate) first_strong: Option<usize>,
    pub(crate) leveled: Explicit,
    pub(crate) sequences: Sequences,
}

impl ExplicitPart {
    /// Applies P2 to X10 to a paragraph under a direction, given its isolates, with the standard limits. Fails with
    /// `Memory` if an allocation fails.
    fn by_isolates<L: Ledger>(
        alloc: Global,
        para: &[Unit],
        isolates: &IsolateMap,
        direction: Direction,
        steps: &mut Steps<L>,
    ) -> Result<ExplicitPart, Memory>
        requires separators { SeparatorOnlyLast para.now }
        requires filled { IsFilledFrom isolates.now (classes_of para.now) }
        ensures value { IfOk result (λ part. explicit_view part ≡ explicit_part para.now direction) }
        ensures extent { IfOk result (λ part. part.sequences.extent ≡ length para.now) }
        ensures apart { IfOk result (λ part. AreDisjoint (length para.now) part.sequences.all) }
        ensures length { IfOk result (λ part. length part.leveled ≡ length para.now) }
    {
        let limits = Limits::standard();
        let mut leveled = Explicit::with_room(alloc, para.len())?;
        let mut sequences = Sequences::with_room(alloc, para.len())?;

        // P2, P3.
        let level = para_level(para, isolates, direction, steps);
        let first_strong = first_strong(para, isolates);

        // X1 to X10.
        explicit_levels(para, isolates, level, limits, &mut leveled, steps);
        sequences.fill(para, isolates, &leveled, level, steps);
        Ok(ExplicitPart {
            para_level: level,
            first_strong,
            leveled,
            sequences,
        })
    }

    /// Applies P2 to X10 to a paragraph under a direction, with the standard limits. Fails with `Memory` if an
    /// allocation fails.
    pub fn of<L: Ledger>(
        alloc: Global,
        para: &[Unit],
        direction: Direction,
        steps: &mut Steps<L>,
    ) -> Result<ExplicitPart, Memory>
        requires { SeparatorOnlyLast para.now }
        ensures value { IfOk result (λ part. explicit_view part ≡ explicit_part para.now direction) }
        ensures extent { IfOk result (λ part. part.sequences.extent ≡ length para.now) }
        ensures apart { IfOk result (λ part. AreDisjoint (length para.now) part.sequences.all) }
        ensures length { IfOk result (λ part. length part.leveled ≡ length para.now) }
    {
        // BD9.
        let mut isolates = IsolateMap::with_room(alloc, para.len())?;
        isolates.fill(para, steps);
        ExplicitPart::by_isolates(alloc, para, &isolates, direction, steps)
    }
}
