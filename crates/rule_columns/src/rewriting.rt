//! A rule for all sequences of a paragraph.
ghost use Rattle.std.specs.Prelude.{◌≡◌, length, IfOk};
ghost use Rattle.paragraph.specs.Covering.{AreDisjoint};
ghost use Rattle.rule_columns.specs.Passes.{by_pass, rewritten};

use crate::pass::{Pass, apply};
use sequences::sequences::Sequences;
use std::alloc::Global;
use std::sync::ledger::Ledger;
use units::class::Class;
use units::memory::Memory;
use units::steps::Steps;

/// Returns the classes of a paragraph after a rule, from those before it, sequence by sequence. Fails with `Memory` if
/// an allocation fails.
pub fn rewritten<L: Ledger>(
    alloc: Global,
    pass: Pass,
    sequences: &Sequences,
    before: &[Class],
    steps: &mut Steps<L>,
) -> Result<Vec<Class>, Memory>
    requires apart { AreDisjoint sequences.now.extent sequences.now.all }
    requires length { length before.now ≡ sequences.now.extent }
    ensures classes { IfOk result (λ classes. classes.items ≡ rewritten (by_pass pass) sequences.now.all before.now) }
    ensures length { IfOk result (λ classes. length classes.items ≡ sequences.now.extent) }
{
    let mut classes = Vec::from_slice(alloc, before)?;
    for k in 0..sequences.count() {
        apply(pass, &sequences.get(k), &mut classes, steps);
    }
    Ok(classes)
}
