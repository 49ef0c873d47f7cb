//! Sets of classes.
ghost use Rattle.std.specs.Prelude.{◌≡◌, ◌++◌, ◌∷◌, [], List};
ghost use Rattle.std.specs.List.{list_any};
ghost use Rattle.units.specs.declared.class.Class.{Class as BidiClass};
ghost use Rattle.paragraph.specs.ClassSets.{IsSetOf, bit_of, is_class};

use units::class::Class;

/// A set of classes.
#[derive(Clone, Copy)]
pub struct ClassSet {
    bits: u32,
}

fn bit_of(class: Class) -> u32
    ensures { result ≡ bit_of class }
{
    1 << (class as u32)
}

impl ClassSet {
    /// Returns the empty set.
    pub fn none() -> ClassSet
        ensures { IsSetOf result [] }
    {
        ClassSet { bits: 0 }
    }

    /// Adds this class.
    pub fn with(self, class: Class) -> ClassSet
        ensures { (cs : List BidiClass) → IsSetOf self cs → IsSetOf result (cs ++ class ∷ []) }
    {
        ClassSet {
            bits: self.bits | bit_of(class),
        }
    }

    /// Adds the classes of another set.
    pub fn joined(self, other: ClassSet) -> ClassSet
        ensures { (cs ds : List BidiClass) → IsSetOf self cs → IsSetOf other ds → IsSetOf result (cs ++ ds) }
    {
        ClassSet {
            bits: self.bits | other.bits,
        }
    }

    /// Returns whether the set has this class.
    pub fn has(self, class: Class) -> bool
        ensures { (cs : List BidiClass) → IsSetOf self cs → result ≡ list_any (is_class class) cs }
    {
        self.bits & bit_of(class) != 0
    }
}
