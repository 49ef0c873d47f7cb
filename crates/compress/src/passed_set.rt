//! The classes that a chosen unit passes: units without a bracket and of these classes have its level.
ghost use Rattle.std.specs.Prelude.{◌≡◌};
ghost use Rattle.units.specs.Classes.{is_removed};
ghost use Rattle.units.specs.declared.class.Class.{Class as BidiClass};
ghost use Rattle.compress.specs.PassedSets.{has};
ghost use Rattle.compress.specs.Squeeze.{passes};

use units::class::Class;

/// A set of classes, one bit for each class.
#[derive(Clone, Copy)]
pub struct PassedSet {
    bits: u32,
}

/// What X9 removes: BN, LRE, LRO, RLE, RLO and PDF.
const REMOVED: u32 = 0b111_1100_0010_0000_0000;

/// The removed classes, and NSM.
const MARKS: u32 = REMOVED | 0b1_0000_0000;

/// The classes of `MARKS`, S, WS, ON, ES and CS.
const NEUTRALS: u32 = MARKS | 0b11_1000_1001_0000;

/// The classes that are passed after each class in a sequence of direction L, in the order of the classes.
const AFTER_IN_L: [u32; 23] = [
    NEUTRALS | 0b1,
    MARKS | 0b10,
    MARKS | 0b100,
    MARKS | 0b1000,
    REMOVED,
    MARKS | 0b10_0000,
    MARKS | 0b100_0000,
    REMOVED,
    REMOVED,
    REMOVED,
    REMOVED,
    NEUTRALS,
    NEUTRALS,
    NEUTRALS,
    REMOVED,
    REMOVED,
    REMOVED,
    REMOVED,
    REMOVED,
    REMOVED,
    REMOVED,
    REMOVED,
    REMOVED,
];

/// The same in a sequence of direction R.
const AFTER_IN_R: [u32; 23] = [
    MARKS | 0b1,
    NEUTRALS | 0b10,
    NEUTRALS | 0b100,
    MARKS | 0b1000,
    REMOVED,
    MARKS | 0b10_0000,
    MARKS | 0b100_0000,
    REMOVED,
    REMOVED,
    REMOVED,
    REMOVED,
    NEUTRALS,
    NEUTRALS,
    NEUTRALS,
    REMOVED,
    REMOVED,
    REMOVED,
    REMOVED,
    REMOVED,
    REMOVED,
    REMOVED,
    REMOVED,
    REMOVED,
];

/// The same of no direction.
const AFTER_IN_NONE: [u32; 23] = [
    MARKS | 0b1,
    MARKS | 0b10,
    MARKS | 0b100,
    MARKS | 0b1000,
    REMOVED,
    MARKS | 0b10_0000,
    MARKS | 0b100_0000,
    REMOVED,
    REMOVED,
    REMOVED,
    REMOVED,
    NEUTRALS,
    NEUTRALS,
    NEUTRALS,
    REMOVED,
    REMOVED,
    REMOVED,
    REMOVED,
    REMOVED,
    REMOVED,
    REMOVED,
    REMOVED,
    REMOVED,
];

impl PassedSet {
    /// Returns the classes that X9 removes.
    pub fn removed() -> PassedSet
        ensures { (class : BidiClass) → has result class ≡ is_removed class }
    {
        PassedSet { bits: REMOVED }
    }

    /// Returns the classes that are passed after this class, in a sequence of this direction.
    pub fn after(direction: Class, class: Class) -> PassedSet
        ensures { (next : BidiClass) → has result next ≡ passes direction class next }
    {
        let bits = match direction {
            Class::L => AFTER_IN_L[class as usize],
            Class::R => AFTER_IN_R[class as usize],
            _ => AFTER_IN_NONE[class as usize],
        };
        PassedSet { bits }
    }

    /// Returns whether the set has this class.
    pub fn has(self, class: Class) -> bool
        ensures { result ≡ has self class }
    {
        self.bits >> (class as u32) & 1 == 1
    }
}
