//! The units of four code points, looked up together. Their brackets are looked up only if one of the four has the
//! class ON.
ghost use Rattle.std.specs.Prelude.{ℕ, ◌≡◌, ◌<◌, ◌≤◌, ◌∷◌, [], length, map, slice_index};
ghost use Rattle.std.specs.Char.{IsScalar};
ghost use Rattle.units.specs.Classes.{classes_of};
ghost use Rattle.ucdfiles.specs.Tables.{AreNeutral, AreOfBlock, class_by};
ghost use Rattle.ucdfiles.specs.UnitStages.{unit_by_stages};
ghost use Rattle.paragraph.specs.ClassSets.{IsSetOf};
ghost use Rattle.decoding.specs.PlainUnits.{of_class, plain_unit};

use paragraph::class_set::ClassSet;
use ucdfiles::tables::BorrowedUnits;
use units::bracket::{Bracket, Unit};
use units::class::Class;

/// Writes a unit of this class without a bracket over another unit.
#[inline(always)]
fn write_plain(class: Class, unit: &mut Unit)
    ensures { unit.new ≡ of_class class }
{
    unit.class = class;
    unit.bracket = Bracket::No;
}

/// Writes units of these classes without brackets over four units. Returns the set of the classes.
#[inline(always)]
fn write_four(
    first: Class,
    second: Class,
    third: Class,
    fourth: Class,
    units: &mut [Unit],
) -> ClassSet
    requires { length units.old ≡ 4 }
    ensures units { units.new ≡ of_class first ∷ of_class second ∷ of_class third ∷ of_class fourth ∷ [] }
    ensures classes { IsSetOf result (first ∷ second ∷ third ∷ fourth ∷ []) }
{
    write_plain(first, &mut units[0]);
    write_plain(second, &mut units[1]);
    write_plain(third, &mut units[2]);
    write_plain(fourth, &mut units[3]);
    ClassSet::none()
        .with(first)
        .with(second)
        .with(third)
        .with(fourth)
}

/// Returns the class of a code point.
#[inline(always)]
fn class_of(borrowed: &BorrowedUnits<'_>, code: u32) -> Class
    requires { IsScalar code }
    ensures { result ≡ class_by borrowed.now.classes code }
{
    let k = code as usize;
    borrowed.block_classes(k / 128)[k % 128]
}

/// Writes the bracket of a code point into its unit, which has its class already. The class of each bracket must be ON.
#[inline(always)]
fn write_bracket(borrowed: &BorrowedUnits<'_>, code: u32, unit: &mut Unit)
    requires neutral { AreNeutral borrowed.now.classes borrowed.now.brackets }
    requires scalar { IsScalar code }
    requires plain { unit.old ≡ plain_unit borrowed.now code }
    ensures { unit.new ≡ unit_by_stages borrowed.now code }
{
    if matches!(unit.class, Class::ON) {
        // SAFETY: it is a scalar value.
        let c = unsafe { char::from_u32_unchecked(code) };
        borrowed.write_bracket(c, unit);
    }
}

/// Writes the brackets of four code points into their units, which have their classes already. The class of each
/// bracket must be ON.
#[inline(always)]
fn write_brackets(borrowed: &BorrowedUnits<'_>, codes: &[u32], units: &mut [Unit])
    requires neutral { AreNeutral borrowed.now.classes borrowed.now.brackets }
    requires len { length codes.now ≡ 4 }
    requires scalars { (k : ℕ) → k < 4 → IsScalar (slice_index codes.now k) }
    requires plain { units.old ≡ map (plain_unit borrowed.now) codes.now }
    ensures { units.new ≡ map (unit_by_stages borrowed.now) codes.now }
{
    write_bracket(borrowed, codes[0], &mut units[0]);
    write_bracket(borrowed, codes[1], &mut units[1]);
    write_bracket(borrowed, codes[2], &mut units[2]);
    write_bracket(borrowed, codes[3], &mut units[3]);
}

/// Writes the brackets of four code points into their units, as `write_brackets` does. `classes` is the set of their
/// classes: there are no brackets if it does not have ON.
#[inline(always)]
fn write_known_brackets(
    borrowed: &BorrowedUnits<'_>,
    codes: &[u32],
    classes: ClassSet,
    units: &mut [Unit],
)
    requires neutral { AreNeutral borrowed.now.classes borrowed.now.brackets }
    requires len { length codes.now ≡ 4 }
    requires scalars { (k : ℕ) → k < 4 → IsScalar (slice_index codes.now k) }
    requires plain { units.old ≡ map (plain_unit borrowed.now) codes.now }
    requires classes { IsSetOf classes (classes_of units.old) }
    ensures { units.new ≡ map (unit_by_stages borrowed.now) codes.now }
{
    if classes.has(Class::ON) {
        write_brackets(borrowed, codes, units);
    }
}

/// Writes the units of four ASCII characters, and returns the set of their classes. `ascii` must be the classes of
/// ASCII, and the class of each bracket ON.
#[inline(always)]
pub fn look_up_ascii(
    borrowed: &BorrowedUnits<'_>,
    ascii: &[Class],
    codes: &[u32],
    units: &mut [Unit],
) -> ClassSet
    requires neutral { AreNeutral borrowed.now.classes borrowed.now.brackets }
    requires block { AreOfBlock borrowed.now.classes 0 ascii.now }
    requires len { length codes.now ≡ 4 }
    requires small { (k : ℕ) → k < 4 → slice_index codes.now k < 0x80 }
    requires fits { length units.old ≡ 4 }
    ensures units { units.new ≡ map (unit_by_stages borrowed.now) codes.now }
    ensures classes { IsSetOf result (classes_of units.new) }
{
    let classes = write_four(
        ascii[codes[0] as usize],
        ascii[codes[1] as usize],
        ascii[codes[2] as usize],
        ascii[codes[3] as usize],
        units,
    );
    write_known_brackets(borrowed, codes, classes, units);
    classes
}

/// Writes the units of four code points, and returns the set of their classes. The class of each bracket must be ON.
#[inline(always)]
pub fn look_up_scalars(borrowed: &BorrowedUnits<'_>, codes: &[u32], units: &mut [Unit]) -> ClassSet
    requires neutral { AreNeutral borrowed.now.classes borrowed.now.brackets }
    requires len { length codes.now ≡ 4 }
    requires scalars { (k : ℕ) → k < 4 → IsScalar (slice_index codes.now k) }
    requires fits { length units.old ≡ 4 }
    ensures units { units.new ≡ map (unit_by_stages borrowed.now) codes.now }
    ensures classes { IsSetOf result (classes_of units.new) }
{
    let classes = write_four(
        class_of(borrowed, codes[0]),
        class_of(borrowed, codes[1]),
        class_of(borrowed, codes[2]),
        class_of(borrowed, codes[3]),
        units,
    );
    write_known_brackets(borrowed, codes, classes, units);
    classes
}
