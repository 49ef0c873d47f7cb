//! The resolved levels of a paragraph, rule after rule (P2 to I2).
ghost use Rattle.std.specs.Prelude.{◌≡◌, ℕ, false, true, ◌+◌, ◌*◌, ◌≤◌, IfOk, length};
ghost use Rattle.std.specs.Box.{boxed_slice_len};
ghost use Rattle.units.specs.Classes.{classes_of};
ghost use Rattle.units.specs.Isolates.{level_of_para};
ghost use Rattle.units.specs.Layout.{resolved_levels};
ghost use Rattle.units.specs.Paragraphs.{SeparatorOnlyLast};
ghost use Rattle.explicit.specs.IsolateMaps.{IsFilledFrom};
ghost use Rattle.paragraph.specs.Contents.{Describes, are_flat};
ghost use Rattle.paragraph.specs.Resolvers.{IsResolved, few_room};
ghost use Rattle.paragraph.specs.StepBounds.{driver_steps, paragraph_steps, w_to_i_steps, x_rules_steps};

use crate::contents::{Contents, FirstParagraph};
use crate::fast_paths::{find_level, find_sequences, write_level};
use crate::few::{few_column, resolve_if_few};
use crate::found::{KnownParagraph, resolve_sequences};
use crate::left_to_right::resolve_left_to_right;
use crate::rooms::{RoomToFind, RoomToResolve};
use std::alloc::Global;
use std::boxed::BoxedSlice;
use std::marker::Model;
use std::sync::ledger::Ledger;
use units::bracket::Unit;
use units::level::{Direction, Level, ParaLevel};
use units::limits::Limits;
use units::memory::Memory;
use units::steps::Steps;

/// The buffers for the resolution of paragraphs, one after another. Contracts see the capacity in positions.
#[derive(Drop)]
pub struct Resolver {
    found: RoomToFind,
    work: RoomToResolve,
    few: BoxedSlice<Unit>,
}

impl Model for Resolver {
    ghost Value = { ℕ };

    ghost view = { λ r. r.work.room };

    ghost invariant = { λ r. (r.found.room ≡ r.work.room) × (boxed_slice_len r.few ≡ few_room r.work.room) };
}

/// Applies X1 to I2 to a paragraph of this level. If the paragraph isn't flat, its isolates (BD9) are in `found`.
#[inline(always)]
fn resolve_at<L: Ledger>(
    para: &KnownParagraph,
    level: ParaLevel,
    few: &mut [Unit],
    found: &mut RoomToFind,
    work: &mut RoomToResolve,
    levels: &mut [Option<Level>],
    steps: &mut Steps<L>,
)
    requires contents { Describes para.now.contents (classes_of para.now.units.now) }
    requires separators { SeparatorOnlyLast para.now.units.now }
    requires isolates { are_flat (classes_of para.now.units.now) ≡ false
        → IsFilledFrom found.old.isolates (classes_of para.now.units.now) }
    requires found { length para.now.units.now ≤ found.old.room }
    requires work { length para.now.units.now ≤ work.old.room }
    requires levels { length levels.old ≡ length para.now.units.now }
    ensures levels { levels.new ≡ resolved_levels para.now.limits para.now.units.now (level_of_para level) }
    ensures found { found.new.room ≡ found.old.room }
    ensures work { work.new.room ≡ work.old.room }
    ensures at_least { steps.old + length para.now.units.now ≤ steps.new }
    ensures at_most { steps.new ≤ steps.old + x_rules_steps * length para.now.units.now
        + w_to_i_steps * length para.now.units.now + 1 }
{
    // By few of its units, if these suffice.
    if resolve_if_few(para, level, few, found, work, levels, steps) {
        return;
    }

    // X1 to X9, BD13, X10.
    find_sequences(para.units, para.contents, level, para.limits, found, steps);

    // W1 to W7, BD14 to BD16 and N0, N1 and N2, I1 and I2, sequence by sequence.
    resolve_sequences(para, found, work, levels, steps);
}

/// The known properties of a paragraph that was resolved.
#[derive(Clone, Copy)]
pub struct Resolved {
    /// Its level (P2, P3).
    pub level: ParaLevel,
    /// Whether each position that remains (X9) is known to be at that level: nothing in the paragraph begins an
    /// embedding or an isolate, and no class in it rises above that level.
    pub uniform: bool,
}

impl Resolver {
    /// Makes the buffers for paragraphs of up to `n` positions. Fails with `Memory` if memory is refused, or if `n` is
    /// 2^32 - 1 or more.
    pub fn with_room(alloc: Global, n: usize) -> Result<Resolver, Memory>
        ensures { IfOk result (λ resolver. resolver ≡ n) }
    {
        Ok(Resolver {
            found: RoomToFind::with_room(alloc, n)?,
            work: RoomToResolve::with_room(alloc, n)?,
            few: few_column(alloc, n)?,
        })
    }

    /// Returns the level of a paragraph (P2, P3) and writes the resolved levels of its positions (X1 to I2) over the
    /// contents of `levels`; a position that X9 removes has none. `limits` set the greatest explicit level (BD2) and
    /// the number of brackets that can be open (BD16). The buffers must have the capacity for the paragraph. No memory
    /// is taken.
    pub fn resolve<L: Ledger>(
        &mut self,
        para: &[Unit],
        direction: Direction,
        limits: Limits,
        levels: &mut [Option<Level>],
        steps: &mut Steps<L>,
    ) -> Resolved
        requires room { length para.now ≤ self.old }
        requires separators { SeparatorOnlyLast para.now }
        requires levels { length levels.old ≡ length para.now }
        ensures resolved { IsResolved limits para.now direction result levels.new }
        ensures room { self.new ≡ self.old }
        ensures at_least { steps.old + 2 * length para.now ≤ steps.new }
        ensures at_most { steps.new ≤ steps.old + paragraph_steps * length para.now + 1 }
        ensures if_uniform { result.uniform ≡ true → steps.new ≤ steps.old + 2 * length para.now }
    {
        let first = FirstParagraph::of(para, steps);
        self.resolve_known(para, first.contents, direction, limits, levels, steps)
    }

    /// Resolves a paragraph as `resolve` does; its contents are known.
    pub fn resolve_known<L: Ledger>(
        &mut self,
        para: &[Unit],
        contents: Contents,
        direction: Direction,
        limits: Limits,
        levels: &mut [Option<Level>],
        steps: &mut Steps<L>,
    ) -> Resolved
        requires room { length para.now ≤ self.old }
        requires contents { Describes contents (classes_of para.now) }
        requires separators { SeparatorOnlyLast para.now }
        requires levels { length levels.old ≡ length para.now }
        ensures resolved { IsResolved limits para.now direction result levels.new }
        ensures room { self.new ≡ self.old }
        ensures at_least { steps.old + length para.now ≤ steps.new }
        ensures at_most { steps.new ≤ steps.old + driver_steps * length para.now + 1 }
        ensures if_uniform { result.uniform ≡ true → steps.new ≤ steps.old + length para.now }
    {
        // P2 to I2, if nothing can leave its explicit level.
        if contents.keeps_explicit(direction) {
            resolve_left_to_right(para, direction, limits, &mut self.found, levels, steps);
            return Resolved {
                level: ParaLevel::Zero,
                uniform: false,
            };
        }

        // BD9, P2, P3.
        let level = find_level(para, contents, direction, &mut self.found, steps);

        // X1 to I2, if nothing can leave that level.
        if contents.keeps(level) {
            write_level(para, contents, level.level(), levels, steps);
            return Resolved {
                level,
                uniform: true,
            };
        }

        let known = KnownParagraph {
            units: para,
            contents,
            limits,
        };
        let few = &mut self.few[..];
        resolve_at(
            &known,
            level,
            few,
            &mut self.found,
            &mut self.work,
            levels,
            steps,
        );
        Resolved {
            level,
            uniform: false,
        }
    }
}
