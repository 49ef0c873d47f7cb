//! The explicit level and the current class of one position (X1 to X9).
ghost use Rattle.std.specs.Prelude.{◌≡◌, None, Some};
ghost use Rattle.std.specs.Option.{option_map, option_map_or};
ghost use Rattle.units.specs.Runs.{at_one_level};
ghost use Rattle.units.specs.declared.class.Class.TheVariants.{BN};

use std::marker::Model;
use units::class::Class;
use units::level::Level;

/// Encodes that there is no level.
const NO_LEVEL: u8 = 127;

/// The explicit level and the current class of a position, or none if X9 removes it, in two bytes. If there is none,
/// the class is BN. Contracts see an `Option`.
#[derive(Clone, Copy)]
pub struct LeveledClass {
    number: u8,
    class: Class,
}

impl Model for LeveledClass {
    ghost use Rattle.std.specs.Prelude.{Option, ℕ};
    ghost use Rattle.units.specs.declared.class.Class.{Class};
    ghost use Rattle.explicit.specs.LeveledClasses.{IsLeveledClass, leveled_class_of, number_of_leveled, class_of_leveled};

    ghost Value = { Option (ℕ × Class) };

    ghost view = { λ leveled. leveled_class_of leveled.number leveled.class };

    ghost invariant = { λ leveled. IsLeveledClass leveled.number leveled.class };

    ghost inverse = { λ leveled. record { number = number_of_leveled leveled; class = class_of_leveled leveled } };
}

impl LeveledClass {
    /// Returns none, for a position that X9 removes.
    pub fn none() -> LeveledClass
        ensures { result ≡ None }
    {
        LeveledClass {
            number: NO_LEVEL,
            class: Class::BN,
        }
    }

    /// Returns this level and this class.
    pub fn some(level: Level, class: Class) -> LeveledClass
        ensures { result ≡ Some (level, class) }
    {
        LeveledClass {
            number: level.get(),
            class,
        }
    }

    /// Returns this level and this class, or none.
    pub fn new(leveled: Option<(Level, Class)>) -> LeveledClass
        ensures { result ≡ leveled }
    {
        match leveled {
            Some((level, class)) => LeveledClass::some(level, class),
            None => LeveledClass::none(),
        }
    }

    /// Returns the level, if there is one.
    pub fn level(self) -> Option<Level>
        ensures { result ≡ option_map (λ leveled. leveled.0) self }
    {
        Level::new(self.number)
    }

    /// Returns whether there is a level and it is this one.
    pub fn is_at(self, level: Level) -> bool
        ensures { result ≡ at_one_level (option_map (λ leveled. leveled.0) self) (Some level) }
    {
        let number = level.get();
        self.number == number
    }

    /// Returns the class, or BN if there is none.
    pub fn class(self) -> Class
        ensures { result ≡ option_map_or (λ leveled. leveled.1) self BN }
    {
        self.class
    }

    /// Returns the level and the class, if there are any.
    pub fn get(self) -> Option<(Level, Class)>
        ensures { result ≡ self }
    {
        let level = self.level()?;
        Some((level, self.class))
    }
}
