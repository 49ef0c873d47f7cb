//! What a class opens or closes (X2 to X6), and the level that an initiator asks for.
ghost use Rattle.std.specs.Prelude.{◌≡◌, ◌≤◌, ◌+◌, if◌then◌else◌};
ghost use Rattle.units.specs.Explicit.{next_odd, next_even, override_of};
ghost use Rattle.explicit.specs.StatusStacks.{is_ordinary};
ghost use Rattle.explicit.specs.WantedLevels.{IsOddWanted};

use units::class::Class;
use units::level::Level;

/// All but BN, B, PDF, PDI and the initiators, one bit for each class.
const ORDINARY: u32 = 0b11_1001_1111_1111;

/// Returns whether the class begins and ends nothing and isn't removed (X6). One shift tests any class.
pub(crate) fn is_ordinary(class: Class) -> bool
    ensures { result ≡ is_ordinary class }
{
    ORDINARY >> (class as u32) & 1 == 1
}

/// Returns how far the least odd or the least even level above this one is (X2 to X5c).
pub(crate) fn rise(level: Level, odd: bool) -> u8
    ensures value { level + result ≡ (if odd then next_odd level else next_even level) }
    ensures small { result ≤ 2 }
{
    if odd {
        1 + level.get() % 2
    } else {
        2 - level.get() % 2
    }
}

/// Returns whether an initiator asks for an odd level (X2, X4, X5a, X5c). An FSI does if its content begins right to
/// left.
pub(crate) fn asks_odd(class: Class, right_to_left: bool) -> bool
    ensures { IsOddWanted class right_to_left result }
{
    match class {
        Class::RLE | Class::RLO | Class::RLI => true,
        Class::FSI => right_to_left,
        _ => false,
    }
}

/// Returns the class that an initiator gives to its content (X4, X5).
pub(crate) fn overridden_by(class: Class) -> Option<Class>
    ensures { result ≡ override_of class }
{
    match class {
        Class::RLO => Some(Class::R),
        Class::LRO => Some(Class::L),
        _ => None,
    }
}
