//! The theorem about the files that are printed.
ghost use Rattle.std.specs.Prelude.{◌≤◌, List};
ghost use Rattle.std.specs.List.{All};
ghost use Rattle.units.specs.Limits.{LimitsOf};
ghost use Rattle.bidtests.specs.declared.kind.Kind.{Kind as FileKind};
ghost use Rattle.rows.specs.Judged.{JudgeSaysYes};
ghost use Rattle.rows.specs.RowTexts.{Case, IsRowText};

/// States that the judge says yes to each file of cases, and counts as many rows and cases as there are cases, up to
/// 2^64 - 1. The file can be of either kind. Its texts have 1 to 4095 letters of that kind, the directions are
/// arbitrary, and the judge and the layouts have the same limits, whose depth is at most 125.
pub fn judge_says_yes()
    ensures { (limits : LimitsOf) (kind : FileKind) (cases : List Case) → limits.depth ≤ 125
        → All (λ c. IsRowText kind c.text) cases → JudgeSaysYes limits kind cases }
{}
