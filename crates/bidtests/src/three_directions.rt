//! The effect of bit 8 and direction field `3` on the verdicts.
ghost use Rattle.std.specs.Prelude.{ℕ, List};
ghost use Rattle.units.specs.Limits.{LimitsOf};
ghost use Rattle.bidtests.specs.ThreeDirections.{IsOfThreeDirections, IsJudgedAlike};
ghost use Rattle.bidtests.specs.declared.kind.Kind.{Kind as FileKind};

/// Allowing rows to ask for AutoRtl doesn't change the verdict on a file, unless the verdict without it is that a bit
/// set or a direction field is malformed.
pub fn three_directions_are_judged_alike()
    ensures { (limits : LimitsOf) (kind : FileKind) (bytes : List ℕ) → IsOfThreeDirections limits kind bytes
        → IsJudgedAlike limits kind bytes }
{}
