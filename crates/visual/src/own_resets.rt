//! The levels of separators, and of white space before separators and at the end of the line (L1). The removed
//! positions of the line have levels too.
ghost use Rattle.std.specs.Prelude.{◌≡◌, if◌then◌else◌, List, length};
ghost use Rattle.units.specs.declared.class.Class.{Class as ClassOf};
ghost use Rattle.visual.specs.GivenLevels.{AreClassesBy, levels_reset_in};

use lines::resets::resets_spaces_before;
use units::class::Class;
use units::level::Level;

/// Returns the level of the paragraph if the position is reset, and else its own.
fn level_after(reset: bool, para_level: Level, level: u8) -> u8
    ensures { result ≡ (if reset then para_level else level) }
{
    if reset { para_level.get() } else { level }
}

/// Does what `reset_levels` does, with items that have a class each, which `class_of` returns.
pub fn reset_levels_by<T: Copy, F: Fn(T) -> Class>(
    items: &[T],
    class_of: F,
    para_level: Level,
    levels: &mut [u8],
)
    requires callable { F.IsAlwaysCallable class_of }
    requires len { length items.now ≡ length levels.old }
    ensures { (classes : List ClassOf) → AreClassesBy (F.post class_of) items.now classes
        → levels.new ≡ levels_reset_in classes para_level levels.old }
{
    let mut reset = true;
    let mut position = levels.len();
    while position > 0 {
        position -= 1;
        reset = resets_spaces_before(class_of(items[position]), reset);
        levels[position] = level_after(reset, para_level, levels[position]);
    }
}

/// Resets levels of a line to that of the paragraph (L1), in one pass from the end of the line. It resets separators,
/// and before a separator or at the line's end white space, isolate formatting characters and positions that X9
/// removes.
///
/// Positions that X9 removes count as white space, as in section 5.2 of UAX #9. `levels` has the level of each position
/// of the line, also of these.
pub fn reset_levels(classes: &[Class], para_level: Level, levels: &mut [u8])
    requires { length classes.now ≡ length levels.old }
    ensures { levels.new ≡ levels_reset_in classes.now para_level levels.old }
{
    reset_levels_by(classes, |class| class, para_level, levels);
}
