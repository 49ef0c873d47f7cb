//! A paragraph of level 0 with embeddings or isolates, but without R, AL, AN, RLE, RLO and RLI. Each position that
//! remains has its explicit level as its resolved one (X1 to I2).
ghost use Rattle.std.specs.Prelude.{◌≡◌, ◌+◌, ◌*◌, ◌≤◌, length, true};
ghost use Rattle.units.specs.Classes.{classes_of};
ghost use Rattle.units.specs.Isolates.{para_level_of};
ghost use Rattle.units.specs.Layout.{resolved_levels};
ghost use Rattle.units.specs.Paragraphs.{SeparatorOnlyLast};
ghost use Rattle.paragraph.specs.LeftToRight.{begins_at_zero, keeps_explicit};

use crate::rooms::RoomToFind;
use explicit::levels_alone::explicit_levels_alone;
use std::sync::ledger::Ledger;
use units::bracket::Unit;
use units::level::{Direction, Level};
use units::limits::Limits;
use units::steps::Steps;

/// P2, P3: Returns whether a paragraph without R and AL has level 0 under this direction, whatever isolates it has.
pub fn begins_at_zero(direction: Direction) -> bool
    ensures { result ≡ begins_at_zero direction }
{
    match direction {
        Direction::Auto | Direction::Ltr => true,
        Direction::Rtl | Direction::AutoRtl => false,
    }
}

/// P2 to I2: Gives each position of a paragraph that remains its explicit level, and `None` to the others, if the
/// classes of the paragraph show that this is the resolved level. The level of the paragraph is 0. Its isolates (BD9)
/// aren't found, since no rule asks for them.
// Inlined, other paragraphs take more instructions.
#[inline(never)]
pub fn resolve_left_to_right<L: Ledger>(
    para: &[Unit],
    direction: Direction,
    limits: Limits,
    found: &mut RoomToFind,
    levels: &mut [Option<Level>],
    steps: &mut Steps<L>,
)
    requires keeps { keeps_explicit direction (classes_of para.now) ≡ true }
    requires separators { SeparatorOnlyLast para.now }
    requires levels { length levels.old ≡ length para.now }
    ensures para_level { para_level_of (classes_of para.now) direction ≡ 0 }
    ensures levels { levels.new ≡ resolved_levels limits para.now 0 }
    ensures unchanged { found.new ≡ found.old }
    ensures at_least { steps.old + length para.now ≤ steps.new }
    ensures at_most { steps.new ≤ steps.old + (2 * length para.now + 1) }
{
    explicit_levels_alone(para, limits, &mut found.explicit, levels, steps);
}
