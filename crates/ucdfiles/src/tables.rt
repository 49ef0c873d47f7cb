// The three tables together.
ghost use Rattle.std.specs.Prelude.{◌≡◌, true, ℕ};
ghost use Rattle.ucdfiles.specs.Spans.{holds};
ghost use Rattle.ucdfiles.specs.Tables.{bracket_by, class_by, AreNeutral, AreOfBlock};
ghost use Rattle.units.specs.declared.class.Class.TheVariants.{ON};

use crate::bracket_table::BracketTable;
use crate::class_table::ClassTable;
use crate::mirror_table::MirrorTable;
use crate::span::Span;
use crate::two_stage::BorrowedStages;
use std::alloc::{AllocError, Global};
use std::marker::Model;
use units::bracket::{Bracket, Unit};
use units::class::Class;

/// The tables of the three property files.
#[derive(Drop)]
pub struct Tables {
    classes: ClassTable,
    brackets: BracketTable,
    mirrors: MirrorTable,
    brackets_are_neutral: bool,
}

impl Model for Tables {
    ghost use Rattle.std.specs.Prelude.{◌≡◌, true};
    ghost use Rattle.ucdfiles.specs.Tables.{TablesOf, AreNeutral};

    ghost Value = { TablesOf };

    ghost view = { λ t. record { classes = t.classes; brackets = t.brackets; mirrors = t.mirrors } };

    ghost invariant = { λ t. t.brackets_are_neutral ≡ true → AreNeutral t.classes t.brackets };
}

// Returns whether the span is one character, whose class is ON.
fn is_other_neutral(classes: &ClassTable, span: &Span<Bracket>) -> bool
    ensures { result ≡ true → (c : ℕ) → holds c span.now ≡ true → class_by classes.now c ≡ ON }
{
    match char::from_u32(span.first) {
        Some(c) => span.first == span.last && matches!(classes.class(c), Class::ON),
        None => false,
    }
}

// Returns whether the class of each bracket is known to be ON, as it is in the published files.
fn are_neutral(classes: &ClassTable, brackets: &BracketTable) -> bool
    ensures { result ≡ true → AreNeutral classes.now brackets.now }
{
    for span in brackets.spans() {
        if !is_other_neutral(classes, span) {
            return false;
        }
    }
    true
}

/// How many characters are looked up at once.
const BLOCK: usize = 4;

/// The classes and the brackets of characters, borrowed from the tables for a text. Contracts see the stages that
/// determine the unit of a code point (`unit_by_stages`).
#[derive(Drop)]
pub struct BorrowedUnits<'a> {
    classes: BorrowedStages<'a, Class>,
    brackets: BorrowedStages<'a, Bracket>,
    brackets_are_neutral: bool,
}

impl<'a> Model for BorrowedUnits<'a> {
    ghost use Rattle.std.specs.Prelude.{◌≡◌, true};
    ghost use Rattle.ucdfiles.specs.Tables.{AreNeutral};
    ghost use Rattle.ucdfiles.specs.UnitStages.{UnitStages};

    ghost Value = { UnitStages };

    ghost view = { λ t. record { classes = t.classes; brackets = t.brackets } };

    ghost invariant = { λ t. t.brackets_are_neutral ≡ true → AreNeutral t.classes t.brackets };
}

impl<'a> BorrowedUnits<'a> {
    ghost use Rattle.std.specs.Prelude.{◌+◌, ◌*◌, ◌<◌, ◌≤◌, length, map, take};
    ghost use Rattle.ucdfiles.specs.UnitStages.{unit_by_stages};

    /// Returns the properties of a character that the algorithm uses: its class and its bracket.
    pub fn unit(&self, c: char) -> Unit
        ensures { result ≡ unit_by_stages self.now c }
    {
        let mut unit = Unit {
            class: Class::L,
            bracket: Bracket::No,
        };
        self.write_unit(c, &mut unit);
        unit
    }

    #[tactic(auto, unfolding(crate::specs::Tables::class_by, crate::specs::Tables::bracket_by))]
    #[inline(always)]
    /// Writes the class and the bracket of a character over another unit. They are those that `unit` returns.
    pub fn write_unit(&self, c: char, unit: &mut Unit)
        ensures { unit.new ≡ unit_by_stages self.now c }
    {
        unit.class = self.classes.value(c);
        unit.bracket = Bracket::No;
        if !self.brackets_are_neutral || matches!(unit.class, Class::ON) {
            unit.bracket = self.brackets.value(c);
        }
    }

    /// Returns whether the class of each bracket is known to be ON, as it is in the published files.
    #[inline(always)]
    pub fn are_neutral(&self) -> bool
        ensures { result ≡ true → AreNeutral self.now.classes self.now.brackets }
    {
        self.brackets_are_neutral
    }

    #[tactic(auto, unfolding(crate::specs::Tables::class_by, crate::specs::Tables::bracket_by))]
    #[inline(always)]
    /// Does what `write_unit` does with one test less. The class of each bracket must be ON.
    pub fn write_neutral(&self, c: char, unit: &mut Unit)
        requires { AreNeutral self.now.classes self.now.brackets }
        ensures { unit.new ≡ unit_by_stages self.now c }
    {
        let class = self.classes.value(c);
        unit.class = class;
        unit.bracket = Bracket::No;
        if matches!(class, Class::ON) {
            unit.bracket = self.brackets.value(c);
        }
    }

    #[tactic(auto, unfolding(crate::specs::Tables::class_by))]
    #[inline(always)]
    /// Borrows the classes of a block of 128 code points: the first block has those from 0 on.
    pub fn block_classes(&self, block: usize) -> &[Class]
        requires { block < 8704 }
        ensures { AreOfBlock self.now.classes block result.now }
    {
        self.classes.block(block)
    }

    #[tactic(auto, unfolding(crate::specs::Tables::class_by, crate::specs::Tables::bracket_by))]
    #[inline(always)]
    /// Does what `write_neutral` does for the code point with the index `k` of a block, with one load less: `classes`
    /// must be those of the block.
    pub fn write_in_block(&self, classes: &[Class], block: usize, k: u8, unit: &mut Unit)
        requires neutral { AreNeutral self.now.classes self.now.brackets }
        requires block { block < 8704 }
        requires classes { AreOfBlock self.now.classes block classes.now }
        requires inside { k < 128 }
        ensures { unit.new ≡ unit_by_stages self.now (block * 128 + k) }
    {
        let class = classes[usize::from(k)];
        unit.class = class;
        unit.bracket = Bracket::No;
        if matches!(class, Class::ON) {
            unit.bracket = self.brackets.block(block)[usize::from(k)];
        }
    }

    #[tactic(auto, unfolding(crate::specs::Tables::bracket_by))]
    #[inline(always)]
    /// Writes the bracket of a character over that of a unit.
    pub fn write_bracket(&self, c: char, unit: &mut Unit)
        ensures { unit.new ≡ record { class = unit.old.class; bracket = bracket_by self.now.brackets c } }
    {
        unit.bracket = self.brackets.value(c);
    }

    /// Writes the class and the bracket of the character with the index `k` after those of the characters before it.
    /// The class of each bracket must be ON.
    #[inline(always)]
    fn write_next(&self, text: &[char], k: usize, units: &mut [Unit])
        requires neutral { AreNeutral self.now.classes self.now.brackets }
        requires inside { k < length text.now }
        requires fits { length text.now ≤ length units.old }
        requires before { take k units.old ≡ map (unit_by_stages self.now) (take k text.now) }
        ensures len { length units.new ≡ length units.old }
        ensures written { take (k + 1) units.new ≡ map (unit_by_stages self.now) (take (k + 1) text.now) }
    {
        self.write_neutral(text[k], &mut units[k]);
    }

    /// Writes the class and the bracket of each of these characters, up to fewer than a block at the end. Returns how
    /// many characters it has passed. The class of each bracket must be ON.
    #[inline(always)]
    fn write_blocks(&self, text: &[char], units: &mut [Unit]) -> usize
        requires neutral { AreNeutral self.now.classes self.now.brackets }
        requires fits { length text.now ≤ length units.old }
        ensures len { length units.new ≡ length units.old }
        ensures within { result ≤ length text.now }
        ensures written { take result units.new ≡ map (unit_by_stages self.now) (take result text.now) }
    {
        let blocks = text.len() / BLOCK;
        for block in 0..blocks {
            let k = block * BLOCK;
            self.write_next(text, k, units);
            self.write_next(text, k + 1, units);
            self.write_next(text, k + 2, units);
            self.write_next(text, k + 3, units);
        }
        blocks * BLOCK
    }

    /// Writes the class and the bracket of each of these characters but the first `passed`, which have theirs already.
    #[inline(always)]
    fn write_rest(&self, text: &[char], passed: usize, units: &mut [Unit])
        requires fits { length text.now ≤ length units.old }
        requires within { passed ≤ length text.now }
        requires before { take passed units.old ≡ map (unit_by_stages self.now) (take passed text.now) }
        ensures len { length units.new ≡ length units.old }
        ensures written { take (length text.now) units.new ≡ map (unit_by_stages self.now) text.now }
    {
        for k in passed..text.len() {
            self.write_unit(text[k], &mut units[k]);
        }
    }
}

impl Tables {
    ghost use Rattle.std.specs.Prelude.{length, IfOk};
    ghost use Rattle.ucdfiles.specs.Tables.{TablesOf, unit_by, units_by};
    ghost use Rattle.ucdfiles.specs.UnitStages.{UnitStages, unit_stages};

    /// Makes tables from these three.
    pub fn new(classes: ClassTable, brackets: BracketTable, mirrors: MirrorTable) -> Self
        ensures { result ≡ record { classes = classes; brackets = brackets; mirrors = mirrors } }
    {
        let brackets_are_neutral = are_neutral(&classes, &brackets);
        Tables {
            classes,
            brackets,
            mirrors,
            brackets_are_neutral,
        }
    }

    /// Makes tables as `new` does, without its pass over the brackets: the caller knows that each bracket has the class
    /// ON.
    pub fn with_neutral_brackets(
        classes: ClassTable,
        brackets: BracketTable,
        mirrors: MirrorTable,
    ) -> Self
        requires { AreNeutral classes brackets }
        ensures { result ≡ record { classes = classes; brackets = brackets; mirrors = mirrors } }
    {
        Tables {
            classes,
            brackets,
            mirrors,
            brackets_are_neutral: true,
        }
    }

    /// Borrows the classes and the brackets, to look up the characters of a text one by one.
    pub fn units(&self) -> BorrowedUnits<'_>
        ensures { result ≡ unit_stages self.now }
    {
        BorrowedUnits {
            classes: self.classes.borrowed(),
            brackets: self.brackets.borrowed(),
            brackets_are_neutral: self.brackets_are_neutral,
        }
    }

    /// Returns the properties of a character that the algorithm uses: its class and its bracket.
    pub fn unit(&self, c: char) -> Unit
        ensures { result ≡ unit_by self.now c }
    {
        self.units().unit(c)
    }

    /// Does what `look_up` does. Takes fewer instructions than its loop if there are several characters.
    #[inline(never)]
    fn look_up_blocks(&self, text: &[char], units: &mut [Unit])
        requires { length units.old ≡ length text.now }
        ensures { units.new ≡ units_by self.now text.now }
    {
        let borrowed = self.units();
        let passed = if borrowed.are_neutral() {
            borrowed.write_blocks(text, units)
        } else {
            0
        };
        borrowed.write_rest(text, passed, units);
    }

    /// Writes the class and the bracket of each of these characters.
    #[inline(never)]
    pub fn look_up(&self, text: &[char], units: &mut [Unit])
        requires { length units.old ≡ length text.now }
        ensures { units.new ≡ units_by self.now text.now }
    {
        if text.len() >= BLOCK {
            self.look_up_blocks(text, units);
        } else {
            self.units().write_rest(text, 0, units);
        }
    }

    /// Returns the class and the bracket of each of these characters, in a list of its own.
    pub fn units_of(&self, alloc: Global, text: &[char]) -> Result<Vec<Unit>, AllocError>
        ensures { IfOk result (λ units. units.items ≡ units_by self.now text.now) }
    {
        let none = Unit {
            class: Class::L,
            bracket: Bracket::No,
        };
        let mut units = Vec::from_elem(alloc, none, text.len())?;
        self.look_up(text, &mut units);
        Ok(units)
    }

    /// Returns the mirror images.
    pub fn mirrors(&self) -> &MirrorTable
        ensures { result.now ≡ self.now.mirrors }
    {
        &self.mirrors
    }
}
