// What is wrong with a line.

use crate::verdict::{Cause, Place, Verdict};
use units::level::Direction;

/// What is wrong with a line of a test file, apart from its number.
#[derive(Clone, Copy, Debug, PartialEq, Eq)]
pub enum LineFault {
    /// The line is malformed, for this cause.
    OfForm(Cause),
    /// The line is a row that is wrong under this direction; this is the first wrong place.
    OfCase(Direction, Place),
}

impl From<Cause> for LineFault {
    ghost use Rattle.std.specs.Prelude.{◌≡◌};
    ghost use Rattle.bidtests.specs.declared.line_fault.LineFault.TheVariants.{OfForm};

    ghost from_gives = { λ cause fault. fault ≡ OfForm cause };

    fn from(cause: Cause) -> Self {
        LineFault::OfForm(cause)
    }
}

impl LineFault {
    ghost use Rattle.std.specs.Prelude.{◌≡◌};
    ghost use Rattle.bidtests.specs.LineFaults.{no_with};

    /// Returns the failing verdict on a file whose first bad line has this number.
    pub fn no(self, line: u64) -> Verdict
        ensures { result ≡ no_with line self }
    {
        match self {
            LineFault::OfForm(cause) => Verdict::Malformed { line, cause },
            LineFault::OfCase(direction, place) => Verdict::Wrong {
                line,
                direction,
                place,
            },
        }
    }
}
