//! The results before the rules of a sequence: the isolates, the level, the explicit levels and the sequences of a
//! paragraph.
ghost use Rattle.std.specs.Prelude.{◌≡◌, ◌<◌, length, IfOk};
ghost use Rattle.explicit.specs.IsolateMaps.{room};
ghost use Rattle.units.specs.Paragraphs.{SeparatorOnlyLast};

use crate::given::{Given, is_paragraph, out_of_memory};
use anyhow::{Result, bail};
use explicit::isolates::IsolateMap;
use explicit::levels::{Explicit, explicit_levels};
use explicit::para_level::para_level;
use sequences::sequences::Sequences;
use std::alloc::Global;
use std::sync::ledger::Ledger;
use units::bracket::Unit;
use units::level::{Direction, ParaLevel};
use units::limits::Limits;
use units::memory::Memory;
use units::steps::Steps;

/// The results for a paragraph before the rules of its sequences.
#[derive(Drop)]
pub struct Results {
    /// The isolates (BD9).
    pub map: IsolateMap,
    /// The paragraph's level (P2, P3).
    pub level: ParaLevel,
    /// The explicit levels (X1 to X9).
    pub explicit: Explicit,
    /// The isolating run sequences (X10).
    pub sequences: Sequences,
}

/// Makes the buffers for a paragraph of `n` positions, without results.
fn rooms(alloc: Global, n: usize) -> Result<Results, Memory>
    ensures map { IfOk result (λ found. room found.map ≡ n) }
    ensures explicit { IfOk result (λ found. length found.explicit ≡ n) }
    ensures sequences { IfOk result (λ found. found.sequences.room ≡ n) }
{
    Ok(Results {
        map: IsolateMap::with_room(alloc, n)?,
        level: ParaLevel::Zero,
        explicit: Explicit::with_room(alloc, n)?,
        sequences: Sequences::with_room(alloc, n)?,
    })
}

/// Finds all these results. The buffers must have the capacity for the paragraph.
fn fill<L: Ledger>(
    found: &mut Results,
    para: &[Unit],
    direction: Direction,
    limits: Limits,
    steps: &mut Steps<L>,
)
    requires separators { SeparatorOnlyLast para.now }
    requires map { room found.old.map ≡ length para.now }
    requires explicit { length found.old.explicit ≡ length para.now }
    requires sequences { found.old.sequences.room ≡ length para.now }
    ensures map { room found.new.map ≡ length para.now }
    ensures explicit { length found.new.explicit ≡ length para.now }
    ensures sequences { found.new.sequences.extent ≡ length para.now }
{
    found.map.fill(para, steps);
    found.level = para_level(para, &found.map, direction, steps);
    explicit_levels(
        para,
        &found.map,
        found.level,
        limits,
        &mut found.explicit,
        steps,
    );
    found
        .sequences
        .fill(para, &found.map, &found.explicit, found.level, steps);
}

/// Returns the results for these units. Fails if they are not one paragraph.
pub fn results_in<L: Ledger>(alloc: Global, given: &Given, steps: &mut Steps<L>) -> Result<Results>
    ensures map { IfOk result (λ found. room found.map ≡ length given.now.units.items) }
    ensures explicit { IfOk result (λ found. length found.explicit ≡ length given.now.units.items) }
    ensures sequences { IfOk result (λ found. found.sequences.extent ≡ length given.now.units.items) }
{
    if !is_paragraph(&given.units) {
        bail!("a separator ends a paragraph");
    }
    let mut found = rooms(alloc, given.units.len()).map_err(out_of_memory)?;
    fill(
        &mut found,
        &given.units,
        given.direction,
        given.limits,
        steps,
    );
    Ok(found)
}

/// Returns the sequences of these units. Fails if they are not one sequence.
pub fn one_sequence<L: Ledger>(
    alloc: Global,
    given: &Given,
    steps: &mut Steps<L>,
) -> Result<Sequences>
    ensures extent { IfOk result (λ sequences. sequences.extent ≡ length given.now.units.items) }
    ensures one { IfOk result (λ sequences. length sequences.all ≡ 1) }
{
    let Results { sequences, .. } = results_in(alloc, given, steps)?;
    if sequences.count() != 1 {
        bail!("the units are not one sequence");
    }
    Ok(sequences)
}
