//! The turns of a block: if something is given several times, it is each of these in turn.

use crate::given::{Given, Subject};

/// Returns how often something is given of a subject.
fn count_of(given: &[Given], subject: Subject, name: &str) -> usize {
    given.iter().filter(|one| one.is_of(subject, name)).count()
}

/// Returns whether nothing before this index is given of a subject.
fn is_first(given: &[Given], index: usize, subject: Subject, name: &str) -> bool {
    !given.iter().take(index).any(|one| one.is_of(subject, name))
}

/// Returns how many turns there are.
pub fn turns_of(given: &[Given]) -> usize {
    let mut turns = 1_usize;
    for (index, one) in given.iter().enumerate() {
        let Given { subject, name, .. } = one;
        if is_first(given, index, *subject, name) {
            turns = turns.saturating_mul(count_of(given, *subject, name));
        }
    }
    turns
}

/// Returns which of those that are given of a subject is its own in a turn, by its index among them.
fn choice_of(given: &[Given], turn: usize, subject: Subject, name: &str) -> usize {
    let mut rest = turn;
    for (index, one) in given.iter().enumerate() {
        if one.is_of(subject, name) {
            return rest % count_of(given, subject, name).max(1);
        }
        if is_first(given, index, one.subject, &one.name) {
            rest /= count_of(given, one.subject, &one.name).max(1);
        }
    }
    0
}

/// What is given in a turn.
#[derive(Clone, Copy)]
pub struct Turn<'a> {
    pub given: &'a [Given],
    pub number: usize,
}

impl<'a> Turn<'a> {
    /// Returns what is given of a subject.
    pub fn find(self, subject: Subject, name: &str) -> Option<&'a Given> {
        let choice = choice_of(self.given, self.number, subject, name);
        let mut each = self.given.iter().filter(|one| one.is_of(subject, name));
        each.nth(choice)
    }
}
