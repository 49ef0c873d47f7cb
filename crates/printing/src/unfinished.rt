// The unfinished paragraph of a text that is printed paragraph by paragraph.
use crate::passed::Passed;
use lines::scratch::Scratch;
use std::alloc::Global;
use units::bracket::Unit;
use units::memory::Memory;

/// The unfinished paragraph: counts of what was passed before it, its characters so far with their units, and the
/// `Scratch` of its layout. Later paragraphs use the same lists and `Scratch`, which grow to the longest paragraph.
#[derive(Drop)]
pub(crate) struct Unfinished {
    pub(crate) passed: Passed,
    pub(crate) chars: Vec<char>,
    pub(crate) units: Vec<Unit>,
    pub(crate) scratch: Scratch,
}

impl Unfinished {
    ghost use Rattle.std.specs.Prelude.{◌≡◌, ◌≤◌, [], ◌∷◌, ◌++◌, length, OnErr, OnOk};
    ghost use Rattle.units.specs.Layout.{longest_text};
    ghost use Rattle.lines.specs.Scratches.{room_of};
    ghost use Rattle.printing.specs.UnfinishedParagraphs.{Follows, chars_so_far};

    /// Adds a character with its unit. If memory runs out, no character is left.
    pub(crate) fn add(&mut self, character: char, unit: Unit) -> Result<(), Memory>
        ensures chars { OnOk result (self.new.chars.items ≡ self.old.chars.items ++ character ∷ []) }
        ensures units { OnOk result (self.new.units.items ≡ self.old.units.items ++ unit ∷ []) }
        ensures none { OnErr result ((self.new.chars.items ≡ []) × (self.new.units.items ≡ [])) }
        ensures passed { self.new.passed ≡ self.old.passed }
    {
        if self.chars.push(character).is_err() || self.units.push(unit).is_err() {
            self.chars.clear();
            self.units.clear();
            return Err(Memory);
        }
        Ok(())
    }

    /// Reserves capacity for the layout of the paragraph if `scratch` has less.
    pub(crate) fn reserve_one(&mut self, alloc: Global) -> Result<(), Memory>
        requires { length self.old.units.items ≤ longest_text }
        ensures room { OnOk result (length self.new.units.items ≤ room_of self.new.scratch) }
        ensures chars { self.new.chars.items ≡ self.old.chars.items }
        ensures units { self.new.units.items ≡ self.old.units.items }
        ensures passed { self.new.passed ≡ self.old.passed }
    {
        if self.scratch.room() < self.units.len() {
            self.scratch = Scratch::reserve(alloc, self.units.len())?;
        }
        Ok(())
    }

    /// Passes the paragraph and begins the next one.
    pub(crate) fn pass(&mut self)
        requires characters { chars_so_far self.old ≤ longest_text }
        requires paragraphs { self.old.passed.paragraphs ≤ self.old.passed.characters }
        ensures chars { self.new.chars.items ≡ [] }
        ensures units { self.new.units.items ≡ [] }
        ensures passed { Follows self.old.passed (length self.old.chars.items) self.new.passed }
    {
        self.passed.paragraphs += 1;
        self.passed.characters += self.chars.len();
        self.chars.clear();
        self.units.clear();
    }
}
