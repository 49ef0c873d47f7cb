ghost use Rattle.std.specs.Prelude.{◌≡◌, ◌<◌, ◌≤◌, ◌↔◌, ◌⊎◌, ℕ, List, Err, IfOk};
ghost use Rattle.units.specs.Brackets.{bracket_pairs_of};
ghost use Rattle.units.specs.Explicit.{State, entered, explicit_of};
ghost use Rattle.units.specs.Limits.{LimitsOf, AreAllowed, standard};
ghost use Rattle.units.specs.StandardLimits.{IsStandardLayout, entered_to_125, explicit_to_125, pairs_of_63};
ghost use Rattle.units.specs.declared.bracket.Bracket.{Bracket};
ghost use Rattle.units.specs.declared.bracket.Unit.{Unit as BidiUnit};
ghost use Rattle.units.specs.declared.class.Class.{Class};
ghost use Rattle.units.specs.declared.level.Direction.{Direction};
ghost use Rattle.units.specs.declared.limits.LimitFault.TheVariants.{Depth, Brackets};

use std::marker::Model;

/// The greatest explicit level (BD2), and the number of brackets that can be open at once (BD16). The standard sets 125
/// and 63; a caller may set less.
#[derive(Clone, Copy, Debug, PartialEq, Eq)]
pub struct Limits {
    depth: u8,
    brackets: u8,
}

/// The error for limits that are not allowed.
#[derive(Clone, Copy, Debug, PartialEq, Eq)]
pub enum LimitFault {
    /// The depth is 0, or above 125.
    Depth,
    /// The depth is allowed, and the number of brackets is above 63.
    Brackets,
}

impl Model for Limits {
    ghost use Rattle.units.specs.Limits.{LimitsOf, AreAllowed};

    ghost Value = { LimitsOf };

    ghost view = { λ limits. record { depth = limits.depth; brackets = limits.brackets } };

    ghost invariant = { λ limits. AreAllowed (record { depth = limits.depth; brackets = limits.brackets }) };

    ghost inverse = { λ limits. record { depth = limits.depth; brackets = limits.brackets } };
}

impl Limits {
    /// Makes limits: explicit levels up to `depth` (1 to 125), and `brackets` open brackets (0 to 63; with 0 no pair
    /// counts). Fails with `Depth` exactly if the depth is 0 or above 125. Fails with `Brackets` exactly if the depth
    /// is allowed and the number of brackets is above 63.
    pub fn new(depth: u8, brackets: u8) -> Result<Limits, LimitFault>
        ensures limits { IfOk result (λ limits. limits ≡ record { depth = depth; brackets = brackets }) }
        ensures depth { result ≡ Err Depth ↔ ((depth ≡ 0) ⊎ (125 < depth)) }
        ensures brackets { result ≡ Err Brackets ↔ ((1 ≤ depth) × (depth ≤ 125) × (63 < brackets)) }
    {
        if depth == 0 || depth > 125 {
            return Err(LimitFault::Depth);
        }
        if brackets > 63 {
            return Err(LimitFault::Brackets);
        }
        Ok(Limits { depth, brackets })
    }

    /// Returns the limits of the standard: 125 levels, 63 open brackets.
    pub fn standard() -> Limits
        ensures { result ≡ standard }
    {
        Limits {
            depth: 125,
            brackets: 63,
        }
    }

    /// Returns the greatest explicit level, 1 to 125 (BD2).
    pub fn depth(self) -> u8
        ensures value { result ≡ self.depth }
        ensures some { 1 ≤ result }
        ensures within { result ≤ 125 }
    {
        self.depth
    }

    /// Returns how many brackets can be open at once, 0 to 63 (BD16).
    pub fn brackets(self) -> u8
        ensures value { result ≡ self.brackets }
        ensures within { result ≤ 63 }
    {
        self.brackets
    }
}

/// With the limits of the standard, the states inside initiators, the explicit levels, the bracket pairs and the
/// layouts are those of the rules that contain the numbers 125 and 63.
pub fn standard_limits_are_the_standard()
    ensures states { (cs : List Class) (s : State) (q : ℕ) → entered standard.depth cs s q ≡ entered_to_125 cs s q }
    ensures levels { (cs : List Class) (para_level : ℕ)
        → explicit_of standard.depth cs para_level ≡ explicit_to_125 cs para_level }
    ensures pairs { (bs : List Bracket) → bracket_pairs_of standard.brackets bs ≡ pairs_of_63 bs }
    ensures layouts { (text : List BidiUnit) (direction : Direction) (breaks : List ℕ)
        → IsStandardLayout text direction breaks }
{}
