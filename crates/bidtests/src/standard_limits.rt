//! The verdicts with the standard limits.
ghost use Rattle.std.specs.Prelude.{◌≡◌, ℕ, List};
ghost use Rattle.units.specs.Limits.{standard};
ghost use Rattle.bidtests.specs.FileKinds.{verdict_of};
ghost use Rattle.bidtests.specs.StandardVerdicts.{standard_verdict_of};
ghost use Rattle.bidtests.specs.declared.kind.Kind.{Kind as FileKind};

use units::limits::standard_limits_are_the_standard;

/// With the standard limits, each file has the verdict of the layouts whose rules use the numbers 125 and 63.
pub fn standard_limits_judge_as_the_standard()
    ensures { (kind : FileKind) (bytes : List ℕ) → verdict_of standard kind bytes ≡ standard_verdict_of kind bytes }
{
    standard_limits_are_the_standard();
}
