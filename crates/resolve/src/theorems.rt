//! Theorems for the crates that use this one: about bracket pairs (BD16) under any limit of open brackets, about the
//! classes before W1 at any greatest level, and about calling the rules one after another.
ghost use Rattle.std.specs.Prelude.{◌≡◌, ℕ, List, [], Option, false};
ghost use Rattle.units.specs.Brackets.{bracket_pairs_of};
ghost use Rattle.units.specs.Classes.{class_at};
ghost use Rattle.std.specs.List.{list_any};
ghost use Rattle.units.specs.Layout.{current_at};
ghost use Rattle.units.specs.Runs.{SequenceView};
ghost use Rattle.units.specs.Weak.{after_weak};
ghost use Rattle.units.specs.declared.bracket.Bracket.{Bracket};
ghost use Rattle.units.specs.declared.bracket.Unit.{Unit as BidiUnit};
ghost use Rattle.units.specs.declared.class.Class.{Class};
ghost use Rattle.resolve.specs.InOrder.{AfterEach, AreColumnsInOrder, AreResolved};
ghost use Rattle.resolve.specs.PairTheorems.{PairsAreOrdered, PairsNest, PairsAreShallow, InsidesAreFew, InsidesAreFewByOpener, StopsAtFirstOpener};
ghost use Rattle.resolve.specs.Own.{IsOwnMark, IsOwnUnlessImposed};
ghost use Rattle.resolve.specs.Wanted.{may_weaken};

/// A bracket pair ends after it begins, within the sequence (BD16).
pub fn pairs_are_ordered()
    ensures { (most_open : ℕ) (bs : List Bracket) → PairsAreOrdered most_open bs }
{}

/// Bracket pairs nest or are apart (BD16).
pub fn pairs_nest()
    ensures { (most_open : ℕ) (bs : List Bracket) → PairsNest most_open bs }
{}

/// An index is inside at most as many bracket pairs as brackets can be open.
pub fn pairs_are_shallow()
    ensures { (most_open : ℕ) (bs : List Bracket) → PairsAreShallow most_open bs }
{}

/// The numbers of indices strictly inside the bracket pairs add up to at most the length of the sequence, times the
/// number of brackets that can be open.
pub fn insides_are_few()
    ensures by_pair { (most_open : ℕ) (bs : List Bracket) → InsidesAreFew most_open bs }
    ensures by_opener { (most_open : ℕ) (bs : List Bracket) → InsidesAreFewByOpener most_open bs }
{}

/// If no bracket can be open, the pairing stops at the first opening bracket, and there is no bracket pair (BD16).
pub fn no_pair_counts_without_room()
    ensures stop { (bs : List Bracket) → StopsAtFirstOpener bs }
    ensures pairs { (bs : List Bracket) → bracket_pairs_of 0 bs ≡ [] }
{}

/// The classes after X1 to X8 are the own ones, except the L or R of an override and the BN of a removed position.
pub fn classes_are_own()
    ensures { (depth : ℕ) (cs : List Class) (para_level p : ℕ)
        → IsOwnUnlessImposed (class_at cs p) (current_at depth cs para_level p) }
{}

/// A mark after X1 to X8 is one by its own class: no override makes a mark.
pub fn marks_are_own()
    ensures { (depth : ℕ) (cs : List Class) (para_level p : ℕ)
        → IsOwnMark depth cs para_level p }
{}

/// W1 to W7 change nothing in a sequence without AL, EN, ES, ET, CS and NSM.
pub fn weak_rules_are_idle()
    ensures { (sos : Class) → (cs : List Class) → list_any may_weaken cs ≡ false → after_weak sos cs ≡ cs }
{}

/// W1 to I2: calling `weak`, `bracket_pairs`, `paired`, `neutral` and `implicit` one after another gives the same
/// levels, classes and pairs of the sequence as `resolve_sequence`. The levels and classes of other positions are
/// unchanged.
pub fn rules_in_order()
    ensures { (most_open : ℕ) (s : SequenceView) (us : List BidiUnit) (before old_classes : List Class)
        (old_levels : List (Option ℕ)) (after : AfterEach)
        → AreColumnsInOrder most_open s us before old_classes old_levels after
        → AreResolved most_open s us before old_classes old_levels after }
{}
