//! The theorem on the verdicts.
ghost use Rattle.std.specs.Prelude.{ℕ, List};
ghost use Rattle.units.specs.Limits.{LimitsOf};
ghost use Rattle.bidtests.specs.declared.kind.Kind.{Kind};
ghost use Rattle.bidtests.specs.FileKinds.{findings_by};
ghost use Rattle.bidtests.specs.Headline.{ComeTo, YesIsExact, MalformedIsExact, WrongIsExact};

/// States what the verdicts on files of both kinds mean, for all limits.
///
/// `yes`: The verdict is `Yes` with these numbers of rows and cases, at most 2^64 - 1, exactly if no line is malformed
/// and each row is right under each direction that it names. A row is right if what it expects is the layout of its
/// text by the rules P1 to L2: the level of the first paragraph, if the row has one, the levels, and the joined orders
/// of the lines.
///
/// `malformed`: The verdict is `Malformed` with this number and cause exactly if the line of this number is malformed
/// for this cause, and no earlier line is malformed or wrong.
///
/// `wrong`: The verdict is `Wrong` with this number, direction and place exactly if all of these hold. The line of this
/// number is a well-formed row that names the direction. Its layout under the direction first differs from the expected
/// one at this place: the paragraph level is compared first, then the levels, then the order. No earlier line is
/// malformed or wrong. The row is right under its earlier directions, in the order auto, LTR, RTL, AutoRtl.
///
/// `line`: There are as many findings as lines. The finding at an index is that of the line at this index. In a
/// BidiTest.txt it depends also on the lists in force after the lines before it.
pub fn verdict_theorem()
    ensures line { (kind : Kind) (lines : List (List ℕ)) → ComeTo kind lines (findings_by kind lines) }
    ensures yes { (limits : LimitsOf) (kind : Kind) (b : List ℕ) → YesIsExact limits kind b }
    ensures malformed { (limits : LimitsOf) (kind : Kind) (b : List ℕ) → MalformedIsExact limits kind b }
    ensures wrong { (limits : LimitsOf) (kind : Kind) (b : List ℕ) → WrongIsExact limits kind b }
{}
