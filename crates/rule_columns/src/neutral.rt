//! The neutrals, each of their two rules alone. `classes` has the classes of the sequence's paragraph, by position.
//! Those outside the sequence are unchanged.
ghost use Rattle.std.specs.Prelude.{◌≡◌, ◌+◌, ◌*◌, ◌≤◌, length};
ghost use Rattle.units.specs.Runs.{direction_of};
ghost use Rattle.resolve.specs.Rewritten.{Rewrites};
ghost use Rattle.rule_columns.specs.Passes.{after_n1, after_n2, by_n2};

use crate::runs::{RunKind, settle};
use resolve::rules::is_neutral;
use sequences::sequence::Sequence;
use std::sync::ledger::Ledger;
use units::class::Class;
use units::steps::Steps;

/// N1: a run of neutrals and isolate formatting characters takes the direction of the text on its two sides, if they
/// agree. European and Arabic numbers act as R, and sos and eos are the sides at the ends of the sequence. Any other
/// run is unchanged.
pub fn n1<L: Ledger>(s: &Sequence, classes: &mut [Class], steps: &mut Steps<L>)
    requires { length classes.old ≡ s.now.extent }
    ensures classes { Rewrites (after_n1 s.now.sos s.now.eos) s.now.positions classes.old classes.new }
    ensures at_least { steps.old + length s.now.positions ≤ steps.new }
    ensures at_most { steps.new ≤ steps.old + 2 * length s.now.positions }
{
    settle(
        s.as_slice(),
        RunKind::Neutrals,
        s.sos(),
        s.eos(),
        classes,
        steps,
    );
}

/// N2: returns the class that replaces a class under this embedding direction.
fn by_n2(embedding: Class, class: Class) -> Class
    ensures { result ≡ by_n2 embedding class }
{
    if is_neutral(class) { embedding } else { class }
}

/// N2: the remaining neutrals take the embedding direction.
pub fn n2(s: &Sequence, classes: &mut [Class])
    requires { length classes.old ≡ s.now.extent }
    ensures { Rewrites (after_n2 (direction_of s.now.level)) s.now.positions classes.old classes.new }
{
    let positions = s.as_slice();
    let embedding = s.level().direction();
    for position in positions {
        let p = *position as usize;
        classes[p] = by_n2(embedding, classes[p]);
    }
}
