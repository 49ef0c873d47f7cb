//! The implicit levels (I1, I2) of all sequences of a paragraph.
ghost use Rattle.std.specs.Prelude.{◌≡◌, length, IfOk};
ghost use Rattle.paragraph.specs.Covering.{AreDisjoint};
ghost use Rattle.rule_columns.specs.Passes.{implicit_of};

use resolve::implicit::implicit;
use sequences::sequences::Sequences;
use std::alloc::Global;
use std::sync::ledger::Ledger;
use units::class::Class;
use units::level::Level;
use units::memory::Memory;
use units::steps::Steps;

/// Returns the levels of a paragraph after I1 and I2, from its sequences and its classes after N2. Fails with `Memory`
/// if an allocation fails.
pub fn implicit_levels<L: Ledger>(
    alloc: Global,
    sequences: &Sequences,
    classes: &[Class],
    steps: &mut Steps<L>,
) -> Result<Vec<Option<Level>>, Memory>
    requires apart { AreDisjoint sequences.now.extent sequences.now.all }
    requires classes { length classes.now ≡ sequences.now.extent }
    ensures levels { IfOk result (λ levels. levels.items ≡ implicit_of sequences.now.all classes.now) }
    ensures length { IfOk result (λ levels. length levels.items ≡ sequences.now.extent) }
{
    let mut levels = vec![in alloc; None; classes.len()]?;
    for k in 0..sequences.count() {
        implicit(&sequences.get(k), classes, &mut levels, steps);
    }
    Ok(levels)
}
