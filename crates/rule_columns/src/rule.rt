//! The rules that result in classes.

/// A rule, or a group of rules, after which each position of a paragraph has a class.
#[derive(Clone, Copy, Debug, PartialEq, Eq)]
pub enum Rule {
    /// X1 to X9: overrides, and BN for a removed position.
    X,
    /// Nonspacing marks.
    W1,
    /// European numbers after Arabic letters.
    W2,
    /// Arabic letters.
    W3,
    /// Separators between numbers.
    W4,
    /// Terminators beside European numbers.
    W5,
    /// The remaining separators and terminators.
    W6,
    /// European numbers after L.
    W7,
    /// Bracket pairs.
    N0,
    /// Neutrals between two sides of one direction.
    N1,
    /// The remaining neutrals.
    N2,
}
