//! Theorems about the resolved levels of a paragraph, for the layers above.
ghost use Rattle.std.specs.Prelude.{◌≡◌, List, true};
ghost use Rattle.units.specs.Classes.{classes_of};
ghost use Rattle.units.specs.Limits.{LimitsOf, AreAllowed};
ghost use Rattle.units.specs.Paragraphs.{SeparatorOnlyLast};
ghost use Rattle.units.specs.declared.bracket.Unit.{Unit as BidiUnit};
ghost use Rattle.paragraph.specs.Contents.{has_none};
ghost use Rattle.paragraph.specs.LeftToRight.{KeepsExplicitLevels, may_leave};
ghost use Rattle.paragraph.specs.Removed.{RemovedHaveNoResolvedLevel};

/// A position of a paragraph has no resolved level exactly if X9 removes it.
pub fn removed_have_no_resolved_level()
    ensures { (limits : LimitsOf) (us : List BidiUnit) → AreAllowed limits → SeparatorOnlyLast us
        → RemovedHaveNoResolvedLevel limits us }
{}

/// A position of a paragraph of level 0 that remains (X9) keeps its explicit level (X1 to X8), whatever embeddings and
/// isolates there are, if the paragraph has no R, AL, AN, RLE, RLO or RLI (W1 to I2).
pub fn left_to_right_keeps_explicit_levels()
    ensures { (limits : LimitsOf) (us : List BidiUnit) → AreAllowed limits → SeparatorOnlyLast us
        → has_none may_leave (classes_of us) ≡ true → KeepsExplicitLevels limits us }
{}
