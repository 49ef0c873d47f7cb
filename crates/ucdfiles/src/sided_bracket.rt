// What a line of BidiBrackets.txt states about its character.
ghost use Rattle.std.specs.Prelude.{◌≡◌};

use units::bracket::{Bracket, Key};

/// BD14, BD15: whether a bracket opens or closes a pair.
#[derive(Clone, Copy, Debug, PartialEq, Eq)]
pub enum BracketSide {
    /// `o`: an opening bracket.
    Open,
    /// `c`: a closing bracket.
    Close,
}

/// The side of a bracket, and the character whose key it has: its paired bracket if it opens, itself if it closes.
#[derive(Clone, Copy, Debug, PartialEq, Eq)]
pub struct SidedBracket {
    /// Whether it opens or closes a pair.
    pub side: BracketSide,
    /// The character whose key it has.
    pub keyed_by: char,
}

impl BracketSide {
    ghost use Rattle.ucdfiles.specs.PairFiles.{bracket_with};

    /// Returns the bracket of this side with this key.
    pub fn with_key(self, key: Key) -> Bracket
        ensures { result ≡ bracket_with self key }
    {
        match self {
            BracketSide::Open => Bracket::Open(key),
            BracketSide::Close => Bracket::Close(key),
        }
    }
}
