//! Theorems about the sequences of every paragraph (BD13), for the crates that use this one.
ghost use Rattle.std.specs.Prelude.{◌≡◌, ◌<◌, ◌≤◌, ℕ, Some, Contains};
ghost use Rattle.units.specs.Runs.{LeveledView, SequenceView, level_of, size_of};
ghost use Rattle.explicit.specs.Leveled.{IsLeveled, IsNested};
ghost use Rattle.sequences.specs.Theorems.{IsSequenceAt, SequencesAreApart, FollowsSuccessors, FollowedToTheEnd};

/// No position is in two sequences.
pub fn sequences_are_apart()
    ensures { (t : LeveledView) → IsLeveled t → IsNested t → SequencesAreApart t }
{}

/// Every position of a sequence has the sequence's level (BD13).
pub fn positions_have_one_level()
    ensures { (t : LeveledView) (j p : ℕ) (s : SequenceView) → IsNested t → IsSequenceAt t j s
        → Contains s.positions p → level_of t p ≡ Some s.level }
{}

/// Each position of a sequence is before its successor, and the last one has no successor (BD13). A sequence ends
/// because no position comes after its last one, not because the number of steps along the successors is limited.
pub fn positions_follow_successors()
    ensures next { (t : LeveledView) (j : ℕ) (s : SequenceView) → IsLeveled t → IsSequenceAt t j s
        → FollowsSuccessors t s }
    ensures whole { (t : LeveledView) (p most : ℕ) → IsLeveled t → p < size_of t → size_of t ≤ most
        → FollowedToTheEnd t p most }
{}
