//! The stack of directional statuses, and one pass over a paragraph that maintains it (X1 to X8).
ghost use Rattle.std.specs.Prelude.{◌≡◌, ◌<◌, ◌≤◌, ◌+◌, ◌-◌, ◌==◌, ◌&&◌, true, false, ℕ, List, [], Some, None, slice_index_or};
ghost use Rattle.units.specs.Classes.{is_isolate_initiator};
ghost use Rattle.units.specs.declared.class.Class.{Class};
ghost use Rattle.explicit.specs.OpenInitiators.{after_pdi, after_pdf};
ghost use Rattle.explicit.specs.StatusStacks.{Represents, IsReachedStack, before_isolate, entry_count};
ghost use Rattle.explicit.specs.StackChanges.{Closes, Opens, OpensAsking, Passes, TakesInitiator, CountsOverflow, IsInnermost, GivesLeveledInside};
ghost use Rattle.explicit.specs.Stretches.{leveled_by_status};

use crate::leveled_class::LeveledClass;
use crate::roles::{asks_odd, overridden_by, rise};
use arrayvec::ArrayVec;
use std::sync::ledger::Ledger;
use units::class::Class;
use units::level::{Level, ParaLevel};
use units::steps::Steps;

/// A directional status (X1): what applies inside a valid initiator.
#[derive(Clone, Copy, Debug, PartialEq, Eq)]
pub struct Status {
    pub level: Level,
    pub override_class: Option<Class>,
    pub is_isolate: bool,
}

impl Status {
    /// Returns the level and the current class of a position of this class inside this status (X5a to X6a). The class
    /// is neither removed nor a separator.
    pub fn leveled(&self, class: Class) -> (Level, Class)
        ensures { result ≡ leveled_by_status self.now class }
    {
        (self.level, self.override_class.unwrap_or(class))
    }
}

// X1: the status of a paragraph of level 0 before any initiator.
impl Default for Status {
    ghost is_default = { λ status. status ≡ record { level = 0; override_class = None; is_isolate = false } };

    fn default() -> Self {
        Status {
            level: ParaLevel::Zero.level(),
            override_class: None,
            is_isolate: false,
        }
    }
}

/// The levels of a paragraph's statuses: its own level, and the greatest one, which is its depth (BD2).
#[derive(Clone, Copy)]
pub struct LevelRange {
    pub base: Level,
    pub depth: u8,
}

/// The stack of directional statuses (X1): one entry for the paragraph and one for each open valid initiator, and the
/// counts of overflow isolates, of overflow embeddings and of valid isolates. Each entry has a higher level than the
/// one before it, from 0 or 1 to at most 125, the greatest allowed depth, so there are at most 126 entries. The
/// capacity is fixed and enough for every depth.
#[derive(Drop)]
pub struct StatusStack {
    entries: ArrayVec<Status, 127>,
    overflow_isolates: usize,
    overflow_embeddings: usize,
    valid_isolates: usize,
}

impl StatusStack {
    /// Returns a stack without entries, which it has between paragraphs.
    pub fn empty() -> Self
        ensures { entry_count result ≡ 0 }
    {
        StatusStack {
            entries: ArrayVec::new(),
            overflow_isolates: 0,
            overflow_embeddings: 0,
            valid_isolates: 0,
        }
    }

    /// Begins a paragraph of this level, in which no initiator is open yet (X1).
    pub fn begin(&mut self, base: Level)
        requires { entry_count self.old ≡ 0 }
        ensures represents { (depth : ℕ) (cs : List Class) → Represents depth cs base [] self.new }
        ensures size { entry_count self.new ≡ 1 }
    {
        self.entries.push(Status {
            level: base,
            override_class: None,
            is_isolate: false,
        });
        self.overflow_isolates = 0;
        self.overflow_embeddings = 0;
        self.valid_isolates = 0;
    }

    /// Drops the entries that remain at a paragraph's end. Each entry is a step.
    pub fn clear<L: Ledger>(&mut self, steps: &mut Steps<L>)
        ensures empty { entry_count self.new ≡ 0 }
        ensures steps { steps.new ≡ steps.old + entry_count self.old }
    {
        steps.add(self.entries.len());
        self.entries.clear();
    }

    /// Returns the status of the innermost valid initiator, which applies until an initiator is opened or closed.
    pub fn current(&self) -> Status
        requires { 0 < entry_count self.now }
        ensures value { result ≡ slice_index_or self.now.entries.items (entry_count self.now - 1) result }
        ensures innermost { IsInnermost self.now result }
    {
        self.entries[self.entries.len() - 1]
    }

    // X5a to X6a: returns the level and the current class of a position of this class, which is neither removed nor a
    // separator.
    fn leveled_inside(&self, class: Class) -> LeveledClass
        requires { IsReachedStack self.now }
        ensures { GivesLeveledInside self.now class result }
    {
        let current = self.current();
        LeveledClass::some(current.level, current.override_class.unwrap_or(class))
    }

    // X6a: drops the entries from the last isolate's on.
    fn pop_isolate<L: Ledger>(&mut self, steps: &mut Steps<L>)
        ensures popped { self.new.entries.items ≡ before_isolate self.old.entries.items }
        ensures overflow_isolates { self.new.overflow_isolates ≡ self.old.overflow_isolates }
        ensures overflow_embeddings { self.new.overflow_embeddings ≡ self.old.overflow_embeddings }
        ensures valid_isolates { self.new.valid_isolates ≡ self.old.valid_isolates }
        ensures least_steps { steps.old ≤ steps.new }
        ensures all_steps { steps.new + entry_count self.new ≡ steps.old + entry_count self.old }
    {
        while let Some(entry) = self.entries.pop() {
            steps.tick();
            if entry.is_isolate {
                break;
            }
        }
    }

    // X6a: closes the innermost open isolate and everything in it, as a PDI does.
    fn close_isolate<L: Ledger>(&mut self, steps: &mut Steps<L>)
        ensures closed { Closes after_pdi self.old self.new }
        ensures least_steps { steps.old ≤ steps.new }
        ensures all_steps { steps.new + entry_count self.new ≡ steps.old + entry_count self.old }
    {
        if self.overflow_isolates > 0 {
            self.overflow_isolates -= 1;
        } else if self.valid_isolates > 0 {
            self.pop_isolate(steps);
            self.overflow_embeddings = 0;
            self.valid_isolates -= 1;
        }
    }

    // X7: closes the innermost open initiator, if that is an embedding, as a PDF does.
    fn close_embedding(&mut self)
        ensures closed { Closes after_pdf self.old self.new }
        ensures size { entry_count self.new ≤ entry_count self.old }
    {
        if self.overflow_isolates > 0 {
            return;
        }
        if self.overflow_embeddings > 0 {
            self.overflow_embeddings -= 1;
        } else if self.entries.len() >= 2 && !self.current().is_isolate {
            self.entries.pop();
        }
    }

    // X2 to X5c: returns whether no open initiator is an overflow one, so that the next one may be valid.
    fn is_sound(&self) -> bool
        ensures { result ≡ (self.now.overflow_isolates == 0 && self.now.overflow_embeddings == 0) }
    {
        self.overflow_isolates == 0 && self.overflow_embeddings == 0
    }

    // X2 to X5c: opens a valid initiator.
    fn take(&mut self, entry: Status)
        requires { IsReachedStack self.old }
        ensures opened { TakesInitiator entry self.old self.new }
        ensures size { entry_count self.new ≡ entry_count self.old + 1 }
    {
        self.valid_isolates += usize::from(entry.is_isolate);
        self.entries.push(entry);
    }

    // X2 to X5c: counts an overflow initiator. An overflow embedding inside an overflow isolate is not counted.
    fn reject(&mut self, is_isolate: bool)
        requires { IsReachedStack self.old }
        ensures opened { CountsOverflow is_isolate self.old self.new }
        ensures size { entry_count self.new ≡ entry_count self.old }
    {
        if is_isolate {
            self.overflow_isolates += 1;
        } else if self.overflow_isolates == 0 {
            self.overflow_embeddings += 1;
        }
    }

    // X2 to X5c: opens an initiator that is inside no overflow initiator. `odd` says whether it asks for an odd level.
    fn open_sound(&mut self, class: Class, odd: bool, depth: u8)
        requires retained { IsReachedStack self.old }
        requires within { depth ≤ 125 }
        requires sound { (self.old.overflow_isolates == 0 && self.old.overflow_embeddings == 0) ≡ true }
        ensures opened { OpensAsking depth class odd self.old self.new }
        ensures size { entry_count self.new ≤ entry_count self.old + 1 }
    {
        let level = self.current().level;
        let by = rise(level, odd);
        if level.get() + by <= depth {
            self.take(Status {
                level: level.raised(by),
                override_class: overridden_by(class),
                is_isolate: class.is_isolate_initiator(),
            });
        } else {
            self.reject(class.is_isolate_initiator());
        }
    }

    // X2 to X5c: opens an initiator. Inside an overflow initiator the level that it asks for doesn't matter.
    fn open(&mut self, class: Class, right_to_left: bool, depth: u8)
        requires retained { IsReachedStack self.old }
        requires within { depth ≤ 125 }
        ensures opened { Opens depth class right_to_left self.old self.new }
        ensures size { entry_count self.new ≤ entry_count self.old + 1 }
    {
        if self.is_sound() {
            self.open_sound(class, asks_odd(class, right_to_left), depth);
        } else {
            self.reject(class.is_isolate_initiator());
        }
    }

    /// Closes and opens what a position of this class closes and opens (X2 to X9). Returns the level and the current
    /// class of that position, or none if it is removed. An initiator that asks for a level above the depth, 1 to 125,
    /// is an overflow initiator. `right_to_left` says whether the content of an FSI begins right to left. Each entry
    /// that is dropped is a step.
    // Not inlined, initiators that follow one another take more instructions.
    #[inline(always)]
    pub fn pass<L: Ledger>(
        &mut self,
        class: Class,
        right_to_left: bool,
        range: &LevelRange,
        steps: &mut Steps<L>,
    ) -> LeveledClass
        requires retained { IsReachedStack self.old }
        requires within { range.now.depth ≤ 125 }
        ensures passed { Passes range.now.depth range.now.base class right_to_left result self.old self.new }
        ensures least_steps { steps.old ≤ steps.new }
        ensures most_steps { steps.new + entry_count self.new ≤ steps.old + (entry_count self.old + 1) }
    {
        match class {
            Class::PDI => {
                self.close_isolate(steps);
                self.leveled_inside(class)
            }
            Class::PDF => {
                self.close_embedding();
                LeveledClass::none()
            }
            Class::LRI | Class::RLI | Class::FSI => {
                let leveled = self.leveled_inside(class);
                self.open(class, right_to_left, range.depth);
                leveled
            }
            Class::LRE | Class::LRO | Class::RLE | Class::RLO => {
                self.open(class, right_to_left, range.depth);
                LeveledClass::none()
            }
            Class::BN => LeveledClass::none(),
            Class::B => LeveledClass::some(range.base, class),
            _ => self.leveled_inside(class),
        }
    }
}
