//! Theorems about paragraphs in which most rules have nothing to do: without initiators (flat), without opening
//! brackets, and at one level (uniform); and about sequences at one level.
ghost use Rattle.std.specs.Prelude.{◌≡◌, ℕ, List};
ghost use Rattle.units.specs.Classes.{classes_of};
ghost use Rattle.units.specs.Isolates.{para_level_of};
ghost use Rattle.units.specs.Limits.{LimitsOf};
ghost use Rattle.units.specs.declared.bracket.Unit.{Unit as BidiUnit};
ghost use Rattle.units.specs.declared.class.Class.{Class};
ghost use Rattle.units.specs.declared.level.Direction.{Direction};
ghost use Rattle.explicit.specs.Flat.{IsFlat, flat_para_level};
ghost use Rattle.explicit.specs.FlatTheorems.{HasOneSequence, ResolvesAsOne, HasIdleBrackets, IsUniform, KeepsItsLevel, IsUniformSequence, SequenceKeepsItsLevel};
ghost use Rattle.units.specs.Runs.{SequenceView};
ghost use Rattle.explicit.specs.IdleRules.{HasNoOpening};

/// For a paragraph without initiators, under all limits:
/// - the first strong class gives its level (P2, P3);
/// - the positions that remain (X9) are one sequence at that level (X1 to X10);
/// - the levels of that sequence, computed from the own classes, are those of the paragraph (W1 to I2).
pub fn flat_paragraphs()
    ensures para_level { (cs : List Class) (direction : Direction) → IsFlat cs
        → para_level_of cs direction ≡ flat_para_level cs direction }
    ensures one_sequence { (depth : ℕ) (cs : List Class) (para_level : ℕ) → IsFlat cs
        → HasOneSequence depth cs para_level }
    ensures levels { (limits : LimitsOf) (us : List BidiUnit) (para_level : ℕ) → IsFlat (classes_of us)
        → ResolvesAsOne limits us para_level }
{}

/// N0 changes nothing in a paragraph without an opening bracket, however many brackets can be open.
pub fn idle_brackets()
    ensures { (most_open : ℕ) (s : SequenceView) (us : List BidiUnit) → HasNoOpening us
        → HasIdleBrackets most_open s us }
{}

/// A paragraph without initiators keeps its level at every position that remains (X9), under all limits, in two cases
/// (W1 to I2): its level is even and it has no R, AL or AN, or its level is odd and it has no L, EN or AN.
pub fn uniform_paragraphs()
    ensures { (limits : LimitsOf) (us : List BidiUnit) (para_level : ℕ) → IsUniform us para_level
        → KeepsItsLevel limits us para_level }
{}

/// A sequence keeps its level at every position, whatever its eos is and however many brackets can be open, if its sos
/// is the direction of its level and X9 removes none of its positions, in two cases (W1 to I2): its level is even and
/// no class before W1 is R, AL or AN, or its level is odd and no class before W1 is L, EN or AN.
pub fn uniform_sequences()
    ensures { (most_open : ℕ) (s : SequenceView) (us : List BidiUnit) (before : List Class)
        → IsUniformSequence s before → SequenceKeepsItsLevel most_open s us before }
{}
