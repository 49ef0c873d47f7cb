//! The direction that a bracket pair takes (N0 b to d), from its content and the strong class before it.
ghost use Rattle.std.specs.Prelude.{◌≡◌, ◌<◌, ◌≤◌, ◌+◌, ◌-◌, length};
ghost use Rattle.units.specs.Brackets.{strong_as, same_direction, opposite, occurs_in, context_before, direction_of_pair};
ghost use Rattle.units.specs.Classes.{classes_at};
ghost use Rattle.resolve.specs.Inside.{closer_index, classes_inside, MissesNone, BothMissNone, StillMissesNone, BothStillMissNone, AreCursorsFor, IsNearest, passed_inside, looked_back, seen_by, context_of};

use crate::next_pair::Pair;
use sequences::sequence::Sequence;
use std::sync::ledger::Ledger;
use units::class::Class;
use units::steps::Steps;

/// Returns the strong class that `class` counts as, if any: a number counts as R.
fn strong(class: Class) -> Option<Class>
    ensures { result ≡ strong_as class }
{
    match class {
        Class::L => Some(Class::L),
        Class::R | Class::EN | Class::AN => Some(Class::R),
        _ => None,
    }
}

/// Returns whether `class` counts as `direction`.
fn counts_as(class: Class, direction: Class) -> bool
    ensures { result ≡ same_direction direction (strong_as class) }
{
    matches!(
        (direction, strong(class)),
        (Class::L, Some(Class::L)) | (Class::R, Some(Class::R))
    )
}

/// Returns R for L, and L for every other class.
fn opposite(direction: Class) -> Class
    ensures { result ≡ opposite direction }
{
    match direction {
        Class::L => Class::R,
        _ => Class::L,
    }
}

/// The nearest strong class before an index of a sequence, or sos. The index only moves forward, and the search goes
/// back no further than to the last index, so all pairs together search the sequence once.
#[derive(Clone, Copy)]
pub(crate) struct Nearest {
    index: usize,
    class: Class,
}

impl Nearest {
    /// Returns the state before the first index, where sos is the nearest strong class.
    pub(crate) fn new(sos: Class) -> Self
        ensures index { result.index ≡ 0 }
        ensures class { result.class ≡ sos }
    {
        Nearest {
            index: 0,
            class: sos,
        }
    }

    /// Returns the nearest strong class before a later index. Each class on the way back to it is a step.
    fn class_before<L: Ledger>(
        &self,
        s: &Sequence,
        index: usize,
        classes: &[Class],
        steps: &mut Steps<L>,
    ) -> Class
        requires classes { length classes.now ≡ s.now.extent }
        requires nearest { IsNearest (classes_at classes.now s.now.positions) s.now.sos self.now }
        requires order { self.now.index ≤ index }
        requires within { index < length s.now.positions }
        ensures value { result ≡ context_before (classes_at classes.now s.now.positions) s.now.sos index }
        ensures at_least { steps.old + looked_back (classes_at classes.now s.now.positions) self.now.index index ≤
            steps.new }
        ensures at_most { steps.new + self.now.index ≤ steps.old + index }
    {
        let positions = s.as_slice();
        for k in (self.index..index).rev() {
            steps.tick();
            let class = classes[positions[k] as usize];
            if strong(class).is_some() {
                return class;
            }
        }
        self.class
    }

    /// Moves on to a later index, and returns the nearest strong class before it.
    fn move_to<L: Ledger>(
        &mut self,
        s: &Sequence,
        index: usize,
        classes: &[Class],
        steps: &mut Steps<L>,
    ) -> Class
        requires classes { length classes.now ≡ s.now.extent }
        requires nearest { IsNearest (classes_at classes.now s.now.positions) s.now.sos self.old }
        requires order { self.old.index ≤ index }
        requires within { index < length s.now.positions }
        ensures value { result ≡ context_before (classes_at classes.now s.now.positions) s.now.sos index }
        ensures nearest { IsNearest (classes_at classes.now s.now.positions) s.now.sos self.new }
        ensures index { self.new.index ≡ index }
        ensures at_least { steps.old + looked_back (classes_at classes.now s.now.positions) self.old.index index ≤
            steps.new }
        ensures at_most { steps.new + self.old.index ≤ steps.old + self.new.index }
    {
        let class = self.class_before(s, index, classes, steps);
        *self = Nearest { index, class };
        class
    }
}

/// Searches a sequence for a class that counts as one direction. The cursor only moves forward, so all pairs together
/// search the sequence once.
#[derive(Clone, Copy)]
struct Cursor {
    direction: Class,

    /// The index that the search has reached.
    next: usize,
}

impl Cursor {
    /// Returns a cursor before the first index.
    fn new(direction: Class) -> Self
        ensures direction { result.direction ≡ direction }
        ensures next { result.next ≡ 0 }
    {
        Cursor { direction, next: 0 }
    }

    /// Returns whether a class that counts as the direction is strictly inside a pair. Each class that is passed is a
    /// step.
    fn finds<L: Ledger>(
        &mut self,
        s: &Sequence,
        pair: Pair,
        classes: &[Class],
        steps: &mut Steps<L>,
    ) -> bool
        requires classes { length classes.now ≡ s.now.extent }
        requires order { pair.index < closer_index s.now pair }
        requires within { closer_index s.now pair < length s.now.positions }
        requires next { self.old.next ≤ length s.now.positions - 1 }
        requires passed { MissesNone
            (classes_at classes.now s.now.positions) self.old pair.index (closer_index s.now pair) }
        ensures value { result ≡ occurs_in (classes_inside classes.now s.now pair) self.old.direction }
        ensures direction { self.new.direction ≡ self.old.direction }
        ensures next { self.new.next ≤ length s.now.positions - 1 }
        ensures passed { StillMissesNone (classes_at classes.now s.now.positions) pair.index self.old self.new }
        ensures at_least { steps.old + passed_inside
            (classes_at classes.now s.now.positions) self.old pair.index (closer_index s.now pair) ≤ steps.new }
        ensures at_most { steps.new + self.old.next ≤ steps.old + self.new.next }
    {
        let positions = s.as_slice();
        if self.next <= pair.index {
            self.next = pair.index + 1;
        }
        while (positions[self.next] as usize) < pair.closer
            && !counts_as(classes[positions[self.next] as usize], self.direction)
        {
            steps.tick();
            self.next += 1;
        }
        (positions[self.next] as usize) < pair.closer
    }
}

/// The content of the pairs of a sequence, which are handled in the order of their openers.
#[derive(Clone, Copy)]
pub(crate) struct Insides {
    embedding: Cursor,
    opposite: Cursor,
}

impl Insides {
    /// Returns the state before the first pair.
    pub(crate) fn new(embedding: Class) -> Self
        ensures cursors { AreCursorsFor embedding 0 result }
    {
        Insides {
            embedding: Cursor::new(embedding),
            opposite: Cursor::new(opposite(embedding)),
        }
    }

    /// Returns the direction that a pair takes, from its content and the strong class before it (N0 b to d).
    pub(crate) fn pair_direction<L: Ledger>(
        &mut self,
        s: &Sequence,
        nearest: &mut Nearest,
        pair: Pair,
        classes: &[Class],
        steps: &mut Steps<L>,
    ) -> Option<Class>
        requires classes { length classes.now ≡ s.now.extent }
        requires order { pair.index < closer_index s.now pair }
        requires within { closer_index s.now pair < length s.now.positions }
        requires cursors { AreCursorsFor self.old.embedding.direction (length s.now.positions) self.old }
        requires passed { BothMissNone
            (classes_at classes.now s.now.positions) self.old pair.index (closer_index s.now pair) }
        requires nearest { IsNearest (classes_at classes.now s.now.positions) s.now.sos nearest.old }
        requires following { nearest.old.index ≤ pair.index }
        ensures value { result ≡ direction_of_pair
            self.old.embedding.direction (context_of classes.now s.now pair) (classes_inside classes.now s.now pair) }
        ensures cursors { AreCursorsFor self.old.embedding.direction (length s.now.positions) self.new }
        ensures passed { BothStillMissNone (classes_at classes.now s.now.positions) pair.index self.old self.new }
        ensures nearest { IsNearest (classes_at classes.now s.now.positions) s.now.sos nearest.new }
        ensures following { nearest.new.index ≤ pair.index }
        ensures at_least { steps.old ≤ steps.new }
        ensures at_most { steps.new + seen_by self.old nearest.old ≤ steps.old + seen_by self.new nearest.new }
    {
        let embedding = self.embedding.direction;
        let opposite = self.opposite.direction;
        if self.embedding.finds(s, pair, classes, steps) {
            return Some(embedding);
        }
        if !self.opposite.finds(s, pair, classes, steps) {
            return None;
        }
        let context = nearest.move_to(s, pair.index, classes, steps);
        if counts_as(context, opposite) {
            Some(opposite)
        } else {
            Some(embedding)
        }
    }
}
