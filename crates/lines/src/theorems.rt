//! Theorems about layouts.
ghost use Rattle.std.specs.Prelude.{◌≡◌, ◌≤◌, ◌<◌, ◌%◌, List, ℕ, length, reverse};
ghost use Rattle.std.specs.List.{All};
ghost use Rattle.units.specs.Limits.{LimitsOf, AreAllowed};
ghost use Rattle.units.specs.Reordering.{IsLineOrder, line_order};
ghost use Rattle.units.specs.declared.bracket.Unit.{Unit as BidiUnit};
ghost use Rattle.lines.specs.Removed.{RemovedHaveNoLevel};
ghost use Rattle.lines.specs.Spaces.{StaysAtParas, levels_reset};
ghost use Rattle.lines.specs.LinePositions.{IsAtOneLevel, remaining};

use crate::breaks::Breaks;
use units::bracket::Unit;
use units::level::{Level, ParaLevel};

/// Proves that the order of a line is the only list of its remaining positions that L2 allows. In it, the earlier of
/// two positions of the text comes first exactly if the least level between them is even.
pub fn order_theorem(levels: &[Option<Level>], start: usize, end: usize)
    requires line { start ≤ end }
    requires within { end ≤ length levels.now }
    ensures is { IsLineOrder levels.now start end (line_order levels.now start end) }
    ensures only { (other : List ℕ) → IsLineOrder levels.now start end other → other ≡ line_order levels.now start end }
    ensures places { All (λ p. p < length levels.now) (line_order levels.now start end) }
{}

/// Proves the order of a line whose remaining positions all have one level: the order of the text if the level is even,
/// and the reverse if it is odd.
pub fn uniform_theorem(levels: &[Option<Level>], start: usize, end: usize, level: Level)
    requires line { start ≤ end }
    requires uniform { IsAtOneLevel levels.now start end level }
    ensures rising { level % 2 ≡ 0 → line_order levels.now start end ≡ remaining levels.now start end }
    ensures falling { level % 2 ≡ 1 → line_order levels.now start end ≡ reverse (remaining levels.now start end) }
{}

/// Proves that L1 changes nothing if each remaining position has the level of its paragraph.
pub fn reset_theorem(own: &[Unit], breaks: &Breaks, paras: &[ParaLevel], levels: &[Option<Level>])
    requires { StaysAtParas own.now paras.now levels.now }
    ensures { levels_reset own.now breaks.now.positions paras.now levels.now ≡ levels.now }
{}

/// Proves that a position has no level in a layout exactly if X9 removes it. L1 gives no level to a removed position,
/// and takes none away.
pub fn removed_have_no_level()
    ensures { (limits : LimitsOf) (text : List BidiUnit) → AreAllowed limits → RemovedHaveNoLevel limits text }
{}
