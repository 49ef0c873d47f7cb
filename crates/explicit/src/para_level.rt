//! The level of a paragraph (P2, P3).
ghost use Rattle.std.specs.Prelude.{◌≡◌};
ghost use Rattle.units.specs.Classes.{classes_of};
ghost use Rattle.units.specs.Isolates.{para_level_of, level_of_para};
ghost use Rattle.explicit.specs.IsolateMaps.{IsFilledFrom};
ghost use Rattle.explicit.specs.SideLevels.{level_by_side, level_under};

use crate::isolates::IsolateMap;
use crate::side::Side;
use std::sync::ledger::Ledger;
use units::bracket::Unit;
use units::level::{Direction, ParaLevel};
use units::steps::Steps;

/// P3: returns the level of the side of the first strong class, or `otherwise` if there is no strong class.
fn level_by(side: Side, otherwise: ParaLevel) -> ParaLevel
    ensures { level_of_para result ≡ level_by_side side (level_of_para otherwise) }
{
    match side {
        Side::Unknown => otherwise,
        Side::LeftToRight => ParaLevel::Zero,
        Side::RightToLeft => ParaLevel::One,
    }
}

/// Returns the level of a paragraph under a direction, from the side of its first strong class outside of all isolates
/// (P2, P3). `Auto` and `AutoRtl` give 1 if that class is R or AL and 0 if it is L. If there is none, `Auto` gives 0
/// and `AutoRtl` gives 1. `Ltr` always gives 0 and `Rtl` 1.
pub fn level_under(direction: Direction, side: Side) -> ParaLevel
    ensures { level_of_para result ≡ level_under direction side }
{
    match direction {
        Direction::Auto => level_by(side, ParaLevel::Zero),
        Direction::Ltr => ParaLevel::Zero,
        Direction::Rtl => ParaLevel::One,
        Direction::AutoRtl => level_by(side, ParaLevel::One),
    }
}

/// Returns the level of a paragraph under a direction (P2, P3). `map` was filled from the paragraph, so the side of its
/// first strong class outside of all isolates is known already, and no step is taken.
pub fn para_level<L: Ledger>(
    para: &[Unit],
    map: &IsolateMap,
    direction: Direction,
    steps: &mut Steps<L>,
) -> ParaLevel
    requires { IsFilledFrom map.now (classes_of para.now) }
    ensures level { level_of_para result ≡ para_level_of (classes_of para.now) direction }
    ensures no_steps { steps.new ≡ steps.old }
{
    level_under(direction, map.outside())
}
