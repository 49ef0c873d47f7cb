//! The runs whose classes depend on both of their sides (W5, N1).
ghost use Rattle.std.specs.Prelude.{◌≡◌, ℕ, ◌+◌, ◌*◌, ◌<◌, ◌≤◌, length, slice_index};
ghost use Rattle.std.specs.List.{prefix_len};
ghost use Rattle.units.specs.Classes.{classes_at};
ghost use Rattle.sequences.specs.Links.{ArePositions};
ghost use Rattle.resolve.specs.Ahead.{first_class};
ghost use Rattle.resolve.specs.Rewritten.{Rewrites};
ghost use Rattle.rule_columns.specs.Runs.{each_in_run, in_run, ends_run, taken_by};

use resolve::rules::{by_sides, by_w5, is_neutral};
use std::sync::ledger::Ledger;
use units::class::Class;
use units::steps::Steps;

/// A kind of run.
#[derive(Clone, Copy)]
pub enum RunKind {
    /// Of European number terminators (W5).
    Terminators,

    /// Of neutrals and isolate formatting characters (N1).
    Neutrals,
}

impl RunKind {
    ghost use Rattle.rule_columns.specs.Runs.{in_run, taken_by};

    /// Returns whether a class belongs to such a run.
    pub fn holds(self, class: Class) -> bool
        ensures { result ≡ in_run self class }
    {
        match self {
            RunKind::Terminators => matches!(class, Class::ET),
            RunKind::Neutrals => is_neutral(class),
        }
    }

    /// Returns the class that replaces a class of a run between these classes.
    pub fn taken(self, class: Class, before: Class, after: Class) -> Class
        ensures { result ≡ taken_by self class before after }
    {
        match self {
            RunKind::Terminators => by_w5(before, after),
            RunKind::Neutrals => by_sides(class, before, after),
        }
    }
}

/// Returns the first class at these positions that is outside the run, or `end` if there is none.
fn class_past<L: Ledger>(
    rest: &[u32],
    run: RunKind,
    end: Class,
    classes: &[Class],
    steps: &mut Steps<L>,
) -> Class
    requires { (k : ℕ) → k < length rest.now → slice_index rest.now k < length classes.now }
    ensures value { result ≡ first_class (ends_run run) (classes_at classes.now rest.now) end }
    ensures at_least { steps.old + prefix_len (in_run run) (classes_at classes.now rest.now) ≤ steps.new }
    ensures at_most { steps.new ≤ steps.old + prefix_len (in_run run) (classes_at classes.now rest.now) + 1 }
{
    for position in rest {
        steps.tick();
        let class = classes[*position as usize];
        if !run.holds(class) {
            return class;
        }
    }
    end
}

/// Replaces each class of a run at these positions with the class that depends on both sides of the run.
pub fn settle<L: Ledger>(
    positions: &[u32],
    run: RunKind,
    start: Class,
    end: Class,
    classes: &mut [Class],
    steps: &mut Steps<L>,
)
    requires { ArePositions positions.now (length classes.old) }
    ensures classes { Rewrites
        (each_in_run (in_run run) (taken_by run) start end) positions.now classes.old classes.new }
    ensures at_least { steps.old + length positions.now ≤ steps.new }
    ensures at_most { steps.new ≤ steps.old + 2 * length positions.now }
{
    let mut before = start;
    let mut ahead = None;
    for k in 0..positions.len() {
        steps.tick();
        let p = positions[k] as usize;
        let class = classes[p];
        if run.holds(class) {
            let after = match ahead {
                Some(found) => found,
                None => class_past(&positions[k + 1..], run, end, classes, steps),
            };
            classes[p] = run.taken(class, before, after);
            ahead = Some(after);
        } else {
            before = class;
            ahead = None;
        }
    }
}
