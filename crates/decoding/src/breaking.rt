//! Breaks at the indices of characters.
ghost use Rattle.std.specs.Prelude.{◌≡◌};
ghost use Rattle.lines.specs.LineBreaks.{AreBreaks};

use lines::breaks::Breaks;

/// Returns breaks that are known to be right.
pub fn breaks_at(at: &[usize], len: usize) -> Breaks<'_>
    requires { AreBreaks at.now len }
    ensures { result ≡ record { positions = at.now; len = len } }
{
    Breaks::new(at, len).unwrap()
}
