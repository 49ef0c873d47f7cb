//! Theorems about isolates and explicit levels, for the crates that use this one.
ghost use Rattle.std.specs.Prelude.{◌≡◌, ◌<◌, ◌≤◌, ◌⊎◌, ℕ, true, false, List, Some, is_none};
ghost use Rattle.units.specs.Classes.{class_at, classes_of, is_removed};
ghost use Rattle.units.specs.Explicit.{explicit_at, next_even, next_odd, wanted_level, wants_odd};
ghost use Rattle.units.specs.Isolates.{matching_pdi};
ghost use Rattle.units.specs.Paragraphs.{SeparatorOnlyLast};
ghost use Rattle.units.specs.Runs.{leveled_of};
ghost use Rattle.explicit.specs.Leveled.{IsLeveled, IsNested};
ghost use Rattle.units.specs.declared.bracket.Unit.{Unit as BidiUnit};
ghost use Rattle.units.specs.declared.class.Class.{Class};
ghost use Rattle.explicit.specs.IsolateNesting.{IsWithin, AreApart};
ghost use Rattle.explicit.specs.Theorems.{EntriesAreFew, HasNoLevelAboveDepth, HaveOneLevel, StacksAreShallow};
ghost use Rattle.explicit.specs.StatusStacks.{EndsInOverflow};
ghost use Rattle.explicit.specs.WantedLevels.{IsLeastAbove};

/// Isolates nest or are apart (BD9): the isolate that begins later lies within the other one, or no position lies in
/// both.
pub fn isolates_nest()
    ensures { (cs : List Class) (outer inner : ℕ) → outer < inner → IsWithin cs inner outer ⊎ AreApart cs inner outer }
{}

/// No position has an explicit level above the depth (BD2), if the paragraph's level isn't above it.
pub fn levels_are_bounded()
    ensures { (depth : ℕ) (cs : List Class) (para_level p : ℕ)
        → para_level ≤ depth → HasNoLevelAboveDepth depth cs para_level p }
{}

/// A position has no explicit level exactly if it is removed (X9).
pub fn removed_have_no_level()
    ensures { (depth : ℕ) (cs : List Class) (para_level p : ℕ)
        → is_none (explicit_at depth cs para_level p) ≡ is_removed (class_at cs p) }
{}

/// A matched isolate initiator and its PDI have one explicit level (X5a to X6a).
pub fn matched_levels_are_equal()
    ensures { (depth : ℕ) (cs : List Class) (para_level i j : ℕ) → matching_pdi cs i ≡ Some j
        → HaveOneLevel depth cs para_level i j }
{}

/// An initiator asks for the least odd level above the one that it is at, or for the least even one (X2 to X5c). That
/// level is above and has the parity, and no smaller level has both properties.
pub fn wanted_levels_are_least()
    ensures odd { (level : ℕ) → IsLeastAbove level true (next_odd level) }
    ensures even { (level : ℕ) → IsLeastAbove level false (next_even level) }
    ensures wanted { (cs : List Class) (level q : ℕ)
        → IsLeastAbove level (wants_odd cs q (class_at cs q)) (wanted_level cs level q) }
{}

/// The stack of directional statuses never has more than depth + 1 entries, whichever initiators are open, if the
/// paragraph's level isn't above the depth. X1 asks for space for max_depth + 2 entries; one of these is never used.
pub fn entries_are_few()
    ensures defined { (depth : ℕ) (cs : List Class) (para_level : ℕ) (qs : List ℕ) → para_level ≤ depth
        → EntriesAreFew depth cs para_level qs }
    ensures retained { (depth : ℕ) (cs : List Class) (para_level : ℕ) → para_level ≤ depth
        → StacksAreShallow depth cs para_level }
{}

/// The overflow initiators around a position are a tail of its chain. The overflow isolate count of X1 counts the
/// isolates in that tail, the overflow embedding count its embeddings before its first isolate, and the valid isolate
/// count the isolates before the tail.
pub fn overflow_is_a_tail()
    ensures { (depth : ℕ) (cs : List Class) (para_level p : ℕ) → EndsInOverflow depth cs para_level p }
{}

/// The levels and the matching PDIs of a list of classes have the properties that isolating run sequences need, at each
/// allowed depth: no level is above 125, and a matching PDI comes after its initiator (X1 to X9, BD9).
pub fn explicit_is_leveled()
    ensures { (depth : ℕ) (cs : List Class) (para_level : ℕ)
        → depth ≤ 125 → para_level ≤ 1 → IsLeveled (leveled_of depth cs para_level) }
{}

/// The isolates of a paragraph have the properties that isolating run sequences need. A matched initiator and its PDI
/// are at one level, no other initiator has that PDI, and if anything that remains between the two is at that level,
/// then all of it is (X1 to X9, BD9).
pub fn explicit_is_nested()
    ensures { (depth : ℕ) (units : List BidiUnit) (para_level : ℕ)
        → SeparatorOnlyLast units → IsNested (leveled_of depth (classes_of units) para_level) }
{}
