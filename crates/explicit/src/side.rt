//! The side of the first strong class directly inside an isolate, or outside of all (P2, P3).
ghost use Rattle.std.specs.Prelude.{◌≡◌};
ghost use Rattle.explicit.specs.Sides.{noted, is_right_to_left_side};

use units::class::Class;

/// The side of the first strong class: L, or R or AL, or unknown if there is no strong class so far.
#[derive(Clone, Copy, Debug, PartialEq, Eq)]
pub enum Side {
    Unknown,
    LeftToRight,
    RightToLeft,
}

impl Side {
    /// Returns this side, or the side of this strong class if this one is unknown.
    pub fn noting(self, class: Class) -> Side
        ensures { result ≡ noted self class }
    {
        match self {
            Side::Unknown if class.is_right_to_left() => Side::RightToLeft,
            Side::Unknown => Side::LeftToRight,
            found => found,
        }
    }

    /// Returns whether the first strong class is R or AL.
    pub fn is_right_to_left(self) -> bool
        ensures { result ≡ is_right_to_left_side self }
    {
        matches!(self, Side::RightToLeft)
    }
}
