//! What comes out of each rule of a sequence by itself (W1 to W7, N1 and N2, I1 and I2), from the classes of a
//! sequence.
ghost use Rattle.std.specs.Prelude.{◌≡◌, length, IfOk};

use crate::given::{Given, classes_of};
use crate::results::one_sequence;
use crate::verb::Rule;
use anyhow::Result;
use resolve::implicit::{implicit, resolve_levels};
use resolve::neutral::neutral;
use resolve::weak::weak;
use row_files::shown::{push_classes, push_levels};
use row_files::words::push_word;
use rule_columns::weak::{w1, w2, w3, w4, w5, w6, w7, weak_types};
use sequences::sequence::Sequence;
use sequences::sequences::Sequences;
use std::alloc::{AllocError, Global};
use std::sync::ledger::Ledger;
use units::bracket::{Bracket, Unit};
use units::class::Class;
use units::level::Level;
use units::steps::Steps;

/// The columns that come out of a rule.
#[derive(Clone, Copy)]
enum Changed {
    Classes,
    Levels,
    Both,
}

/// Applies a rule to a sequence. Returns which columns it gives.
fn apply<L: Ledger>(
    rule: Rule,
    s: &Sequence,
    classes: &mut [Class],
    levels: &mut [Option<Level>],
    steps: &mut Steps<L>,
) -> Changed
    requires classes { length classes.old ≡ s.now.extent }
    requires levels { length levels.old ≡ s.now.extent }
{
    match rule {
        Rule::W1 => w1(s, classes, steps),
        Rule::W2 => w2(s, classes, steps),
        Rule::W3 => w3(s, classes, steps),
        Rule::W4 => w4(s, classes, steps),
        Rule::W5 => w5(s, classes, steps),
        Rule::W6 => w6(s, classes, steps),
        Rule::W7 => w7(s, classes, steps),
        Rule::EachWeak => weak_types(s, classes, steps),
        Rule::Weak => weak(s, classes, steps),
        Rule::Neutral => neutral(s, classes, steps),
        Rule::Implicit => {
            implicit(s, classes, levels, steps);
            return Changed::Levels;
        }
        Rule::NeutralToImplicit => {
            resolve_levels(s, classes, levels, steps);
            return Changed::Both;
        }
    }
    Changed::Classes
}

/// Returns the sequence of a paragraph of as many units, each of class ON, so that it has all positions.
fn neutral_sequence<L: Ledger>(
    alloc: Global,
    given: &Given,
    steps: &mut Steps<L>,
) -> Result<Sequences>
    ensures extent { IfOk result (λ sequences. sequences.extent ≡ length given.now.units.items) }
    ensures one { IfOk result (λ sequences. length sequences.all ≡ 1) }
{
    let unit = Unit {
        class: Class::ON,
        bracket: Bracket::No,
    };
    let neutral = Given {
        units: vec![in alloc; unit; given.units.len()]?,
        direction: given.direction,
        limits: given.limits,
    };
    one_sequence(alloc, &neutral, steps)
}

/// Appends the columns that came out, with `|` between both.
fn push_columns(
    out: &mut String,
    changed: Changed,
    classes: &[Class],
    levels: &[Option<Level>],
) -> Result<(), AllocError> {
    match changed {
        Changed::Classes => push_classes(out, classes),
        Changed::Levels => push_levels(out, levels),
        Changed::Both => {
            push_classes(out, classes)?;
            push_word(out, "|")?;
            push_levels(out, levels)
        }
    }
}

/// Appends what a rule gives for the classes of a sequence.
pub fn push_rule<L: Ledger>(
    alloc: Global,
    rule: Rule,
    given: &Given,
    out: &mut String,
    steps: &mut Steps<L>,
) -> Result<()> {
    let sequences = neutral_sequence(alloc, given, steps)?;
    let mut classes = classes_of(alloc, &given.units)?;
    let mut levels = vec![in alloc; None; given.units.len()]?;
    let changed = apply(rule, &sequences.get(0), &mut classes, &mut levels, steps);
    push_columns(out, changed, &classes, &levels)?;
    Ok(())
}
