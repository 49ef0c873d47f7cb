//! The theorems about reports.
ghost use Rattle.std.specs.Prelude.{ℕ, List};
ghost use Rattle.units.specs.Limits.{LimitsOf};
ghost use Rattle.bidtests.specs.declared.kind.Kind.{Kind};
ghost use Rattle.report.specs.declared.terms.Terms.{Terms as TermsOf};
ghost use Rattle.report.specs.FileReports.{AmountsToVerdict, HoldsWrongCases};

/// States what the report on a file contains, for each choice of terms.
///
/// `cases`: it contains a wrong case if and only if all of these hold. The line of the case is a row, and neither it
/// nor a line before it is malformed. The row names the direction of the case. The place of the case is the first where
/// the row's expected values, as these terms read them, differ from the layout of its text by the rules P1 to L2: the
/// paragraph's level is compared first, then the levels, then the order. The case has the expected and the defined item
/// of this place.
///
/// `verdict`: with strict terms the verdict follows from the report. It is wrong, with the line, the direction and the
/// place of the first wrong case, if there is one. Else it is malformed, with the malformed line, if there is one. Else
/// it is yes, with the numbers of rows and cases.
pub fn report_theorem()
    ensures cases { (terms : TermsOf) (kind : Kind) (b : List ℕ) → HoldsWrongCases terms kind b }
    ensures verdict { (limits : LimitsOf) (kind : Kind) (b : List ℕ) → AmountsToVerdict limits kind b }
{}
