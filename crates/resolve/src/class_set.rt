//! Sets of classes.
ghost use Rattle.std.specs.Prelude.{◌≡◌, not};
ghost use Rattle.units.specs.declared.class.Class.{Class as BidiClass};
ghost use Rattle.explicit.specs.Uniform.{stays_at};
ghost use Rattle.resolve.specs.ClassSets.{holds, is_context_free, is_neutral_or, is_passed};

use units::class::Class;
use units::level::Level;

/// A set of classes, one bit for each class.
#[derive(Clone, Copy)]
pub(crate) struct ClassSet {
    bits: u32,
}

/// B, S, WS, ON, LRI, RLI, FSI and PDI.
const NEUTRALS: u32 = 0b111_1000_0011_1100_0000_0000;

/// The neutrals and AN.
const PASSED: u32 = NEUTRALS | 0b100_0000;

/// BN, PDF and the initiators of embeddings and overrides.
const REMOVED: u32 = 0b111_1100_0010_0000_0000;

/// All but EN, ES, ET, CS and NSM.
const CONTEXT_FREE: u32 = 0b111_1111_1111_1110_0100_0111;

impl ClassSet {
    /// Returns the classes that W1 to W7 change in the same way in every context: AL becomes R, the others are
    /// unchanged.
    pub(crate) fn context_free() -> ClassSet
        ensures { (class : BidiClass) → holds result class ≡ is_context_free class }
    {
        ClassSet { bits: CONTEXT_FREE }
    }

    /// Returns the neutrals, and L or R if it is this direction.
    pub(crate) fn neutral_or(direction: Class) -> ClassSet
        ensures { (class : BidiClass) → holds result class ≡ is_neutral_or direction class }
    {
        let bits = match direction {
            Class::L => NEUTRALS | 0b01,
            Class::R => NEUTRALS | 0b10,
            _ => NEUTRALS,
        };
        ClassSet { bits }
    }

    /// Returns the neutrals, AN, and L or R if it is this last strong class. W1 to W7 leave these unchanged, and the
    /// last strong class is the same after them.
    pub(crate) fn passed(strong: Class) -> ClassSet
        ensures { (class : BidiClass) → holds result class ≡ is_passed strong class }
    {
        let bits = match strong {
            Class::L => PASSED | 0b01,
            Class::R => PASSED | 0b10,
            _ => PASSED,
        };
        ClassSet { bits }
    }

    /// Returns the classes that X9 removes or that can bring a position above this level (W1 to I2): R, AL and AN if it
    /// is even, L, EN and AN if it is odd.
    pub(crate) fn leaving(level: Level) -> ClassSet
        ensures { (class : BidiClass) → holds result class ≡ not (stays_at level class) }
    {
        let bits = if level.get() % 2 == 0 {
            REMOVED | 0b100_0110
        } else {
            REMOVED | 0b100_1001
        };
        ClassSet { bits }
    }

    /// Returns whether the set contains this class. One shift tests any class, so a loop over several kinds of classes
    /// has one branch.
    pub(crate) fn holds(self, class: Class) -> bool
        ensures { result ≡ holds self class }
    {
        self.bits >> (class as u32) & 1 == 1
    }
}
