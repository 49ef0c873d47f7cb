//! The limits that C passes.
ghost use Rattle.std.specs.Prelude.{◌≡◌, IfOk, IfErr, OnErr, OnOk};
ghost use Rattle.units.specs.Limits.{AreAllowed};
ghost use Rattle.for_c.specs.LimitsGiven.{limits_in, RejectsLimits};

use crate::call_error::CallError;
use units::limits::{LimitFault, Limits};

/// How deep explicit levels go (BD2), and how many brackets can be open at once (BD16).
#[repr(C)]
#[derive(Clone, Copy)]
pub struct BidiLimits {
    /// 1 to 125; the standard's limit is 125.
    pub depth: u8,
    /// 0 to 63; the standard's limit is 63.
    pub brackets: u8,
}

impl BidiLimits {
    /// Returns the limits. Fails with `Depth` or `Brackets` if they are not allowed.
    pub fn allowed(self) -> Result<Limits, CallError>
        ensures limits { IfOk result (λ limits. limits ≡ limits_in self) }
        ensures allowed { OnOk result (AreAllowed (limits_in self)) }
        ensures reason { IfErr result (RejectsLimits self) }
        ensures forbidden { OnErr result (AreAllowed (limits_in self) → ⊥) }
    {
        match Limits::new(self.depth, self.brackets) {
            Ok(limits) => Ok(limits),
            Err(LimitFault::Depth) => Err(CallError::Depth),
            Err(LimitFault::Brackets) => Err(CallError::Brackets),
        }
    }
}
