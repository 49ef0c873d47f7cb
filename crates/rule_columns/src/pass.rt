//! The rules that read only the classes of a sequence.
ghost use Rattle.std.specs.Prelude.{◌≡◌, length};
ghost use Rattle.resolve.specs.Rewritten.{Rewrites};
ghost use Rattle.rule_columns.specs.Passes.{by_pass};

use crate::neutral::{n1, n2};
use crate::weak::{w1, w2, w3, w4, w5, w6, w7};
use sequences::sequence::Sequence;
use std::sync::ledger::Ledger;
use units::class::Class;
use units::steps::Steps;

/// A rule that reads only the classes of a sequence, with its level, sos and eos.
#[derive(Clone, Copy)]
pub enum Pass {
    W1,
    W2,
    W3,
    W4,
    W5,
    W6,
    W7,
    N1,
    N2,
}

/// Applies a rule to the classes of a sequence. `classes` has the classes of its paragraph, by position. Those at other
/// positions are unchanged.
pub fn apply<L: Ledger>(pass: Pass, s: &Sequence, classes: &mut [Class], steps: &mut Steps<L>)
    requires { length classes.old ≡ s.now.extent }
    ensures { Rewrites (by_pass pass s.now) s.now.positions classes.old classes.new }
{
    match pass {
        Pass::W1 => w1(s, classes, steps),
        Pass::W2 => w2(s, classes, steps),
        Pass::W3 => w3(s, classes, steps),
        Pass::W4 => w4(s, classes, steps),
        Pass::W5 => w5(s, classes, steps),
        Pass::W6 => w6(s, classes, steps),
        Pass::W7 => w7(s, classes, steps),
        Pass::N1 => n1(s, classes, steps),
        Pass::N2 => n2(s, classes),
    }
}
