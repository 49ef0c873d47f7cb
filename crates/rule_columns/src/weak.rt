//! The weak types (W1 to W7), with a pass for each rule. `classes` has the classes of the sequence's paragraph, by
//! position. Those outside the sequence are unchanged.
ghost use Rattle.std.specs.Prelude.{◌≡◌, ◌+◌, ◌*◌, ◌<◌, ◌≤◌, length, slice_get};
ghost use Rattle.units.specs.Weak.{after_w1, after_w2, after_w3, after_w4, after_w5, after_w6, after_w7, after_weak, class_or};
ghost use Rattle.units.specs.declared.class.Class.TheVariants.{ON};
ghost use Rattle.sequences.specs.Links.{ArePositions};
ghost use Rattle.resolve.specs.Rewritten.{Rewrites};

use crate::runs::{RunKind, settle};
use resolve::rules::{by_w1, by_w2, by_w3, by_w4, by_w6, by_w7, is_base};
use sequences::sequence::Sequence;
use std::sync::ledger::Ledger;
use units::class::Class;
use units::steps::Steps;

/// W1: each nonspacing mark takes the class of the character before it, or ON if that is an isolate initiator or PDI.
/// At the start of the sequence it takes sos.
pub fn w1<L: Ledger>(s: &Sequence, classes: &mut [Class], steps: &mut Steps<L>)
    requires { length classes.old ≡ s.now.extent }
    ensures classes { Rewrites (after_w1 s.now.sos) s.now.positions classes.old classes.new }
    ensures steps { steps.new ≡ steps.old + length s.now.positions }
{
    let positions = s.as_slice();
    let mut base = s.sos();
    for position in positions {
        steps.tick();
        let p = *position as usize;
        let class = classes[p];
        classes[p] = by_w1(base, class);
        if is_base(class) {
            base = class;
        }
    }
}

/// W2: a European number becomes an Arabic number if the first strong class found backward from it (R, L, AL or sos)
/// is AL.
pub fn w2<L: Ledger>(s: &Sequence, classes: &mut [Class], steps: &mut Steps<L>)
    requires { length classes.old ≡ s.now.extent }
    ensures classes { Rewrites (after_w2 s.now.sos) s.now.positions classes.old classes.new }
    ensures steps { steps.new ≡ steps.old + length s.now.positions }
{
    let positions = s.as_slice();
    let mut strong = s.sos();
    for position in positions {
        steps.tick();
        let p = *position as usize;
        let class = classes[p];
        classes[p] = by_w2(strong, class);
        if class.is_strong() {
            strong = class;
        }
    }
}

/// W3: each Arabic letter becomes R.
pub fn w3<L: Ledger>(s: &Sequence, classes: &mut [Class], steps: &mut Steps<L>)
    requires { length classes.old ≡ s.now.extent }
    ensures classes { Rewrites after_w3 s.now.positions classes.old classes.new }
    ensures steps { steps.new ≡ steps.old + length s.now.positions }
{
    let positions = s.as_slice();
    for position in positions {
        steps.tick();
        let p = *position as usize;
        classes[p] = by_w3(classes[p]);
    }
}

/// Returns the class at the position after the one with the number `k`, or ON if that is the last.
fn class_after(positions: &[u32], k: usize, classes: &[Class]) -> Class
    requires positions { ArePositions positions.now (length classes.now) }
    requires inside { k < length positions.now }
    ensures { result ≡ class_or classes.now (slice_get positions.now (k + 1)) ON }
{
    if k + 1 < positions.len() {
        classes[positions[k + 1] as usize]
    } else {
        Class::ON
    }
}

/// W4: a single European separator between two European numbers becomes a European number. A single common separator
/// between two numbers of one type becomes that type.
pub fn w4<L: Ledger>(s: &Sequence, classes: &mut [Class], steps: &mut Steps<L>)
    requires { length classes.old ≡ s.now.extent }
    ensures classes { Rewrites after_w4 s.now.positions classes.old classes.new }
    ensures steps { steps.new ≡ steps.old + length s.now.positions }
{
    let positions = s.as_slice();
    let mut before = Class::ON;
    for k in 0..positions.len() {
        steps.tick();
        let p = positions[k] as usize;
        let class = classes[p];
        classes[p] = by_w4(before, class, class_after(positions, k, classes));
        before = class;
    }
}

/// W5: a run of European terminators next to a European number becomes European numbers.
pub fn w5<L: Ledger>(s: &Sequence, classes: &mut [Class], steps: &mut Steps<L>)
    requires { length classes.old ≡ s.now.extent }
    ensures classes { Rewrites after_w5 s.now.positions classes.old classes.new }
    ensures at_least { steps.old + length s.now.positions ≤ steps.new }
    ensures at_most { steps.new ≤ steps.old + 2 * length s.now.positions }
{
    settle(
        s.as_slice(),
        RunKind::Terminators,
        Class::ON,
        Class::ON,
        classes,
        steps,
    );
}

/// W6: the separators and terminators that remain after W4 and W5 become ON.
pub fn w6<L: Ledger>(s: &Sequence, classes: &mut [Class], steps: &mut Steps<L>)
    requires { length classes.old ≡ s.now.extent }
    ensures classes { Rewrites after_w6 s.now.positions classes.old classes.new }
    ensures steps { steps.new ≡ steps.old + length s.now.positions }
{
    let positions = s.as_slice();
    for position in positions {
        steps.tick();
        let p = *position as usize;
        classes[p] = by_w6(classes[p]);
    }
}

/// W7: a European number becomes L if the first strong class found backward from it (R, L or sos) is L.
pub fn w7<L: Ledger>(s: &Sequence, classes: &mut [Class], steps: &mut Steps<L>)
    requires { length classes.old ≡ s.now.extent }
    ensures classes { Rewrites (after_w7 s.now.sos) s.now.positions classes.old classes.new }
    ensures steps { steps.new ≡ steps.old + length s.now.positions }
{
    let positions = s.as_slice();
    let mut strong = s.sos();
    for position in positions {
        steps.tick();
        let p = *position as usize;
        let class = classes[p];
        classes[p] = by_w7(strong, class);
        if class.is_strong() {
            strong = class;
        }
    }
}

/// Applies W1 to W7, one after another. The result is that of `resolve::weak`, which takes one pass.
pub fn weak_types<L: Ledger>(s: &Sequence, classes: &mut [Class], steps: &mut Steps<L>)
    requires { length classes.old ≡ s.now.extent }
    ensures classes { Rewrites (after_weak s.now.sos) s.now.positions classes.old classes.new }
    ensures at_least { steps.old + 7 * length s.now.positions ≤ steps.new }
    ensures at_most { steps.new ≤ steps.old + 8 * length s.now.positions }
{
    w1(s, classes, steps);
    w2(s, classes, steps);
    w3(s, classes, steps);
    w4(s, classes, steps);
    w5(s, classes, steps);
    w6(s, classes, steps);
    w7(s, classes, steps);
}
