//! What comes out of the rules of a sequence that contains its whole paragraph, called one after another.
ghost use Rattle.std.specs.Prelude.{◌≡◌, ◌≤◌, ◌<◌, length, IfOk};
ghost use Rattle.units.specs.Classes.{classes_of};
ghost use Rattle.resolve.specs.Resolved.{HasLevels, KeepsOtherLevels};

use crate::given::{Given, classes_of, out_of_memory};
use crate::results::one_sequence;
use anyhow::Result;
use resolve::implicit::implicit;
use resolve::neutral::neutral;
use resolve::paired::paired;
use resolve::pairs::{Pairs, bracket_pairs};
use resolve::theorems::rules_in_order;
use resolve::weak::weak;
use row_files::shown::{push_levels, push_position};
use sequences::sequence::Sequence;
use std::alloc::{AllocError, Global};
use std::sync::ledger::Ledger;
use units::bracket::Unit;
use units::class::Class;
use units::level::Level;
use units::limits::Limits;
use units::steps::Steps;

/// The units of a paragraph, their classes before W1, and the limits that hold.
#[derive(Clone, Copy)]
struct Classed<'a> {
    units: &'a [Unit],
    classes: &'a [Class],
    limits: Limits,
}

/// Makes bracket pairs for `n` positions, without any.
fn pairs_room(alloc: Global, n: usize) -> Result<Pairs>
    ensures { IfOk result (λ pairs. length pairs ≡ n) }
{
    Pairs::with_room(alloc, n).map_err(out_of_memory)
}

/// Finds the bracket pairs of a sequence from the classes after W7.
fn find_pairs<L: Ledger>(
    s: &Sequence,
    para: &Classed,
    classes: &mut [Class],
    pairs: &mut Pairs,
    steps: &mut Steps<L>,
)
    requires units { length para.now.units.now ≡ s.now.extent }
    requires classes { length classes.old ≡ s.now.extent }
    requires room { s.now.extent ≤ length pairs.old }
    ensures room { length pairs.new ≡ length pairs.old }
{
    weak(s, classes, steps);
    bracket_pairs(s, para.units, classes, para.limits, pairs, steps);
}

/// Appends the closing bracket of each of `n` positions, or `-` if no pair begins there.
fn push_closers(out: &mut String, pairs: &Pairs, n: usize) -> Result<(), AllocError>
    requires { n ≤ length pairs.now }
{
    for p in 0..n {
        push_position(out, pairs.closer(p))?;
    }
    Ok(())
}

/// Appends the bracket pairs of a paragraph's one sequence (BD16): for each position that of its closing bracket.
pub fn push_pairs<L: Ledger>(
    alloc: Global,
    given: &Given,
    out: &mut String,
    steps: &mut Steps<L>,
) -> Result<()> {
    let sequences = one_sequence(alloc, given, steps)?;
    let before = classes_of(alloc, &given.units)?;
    let mut classes = Vec::from_slice(alloc, &before)?;
    let mut pairs = pairs_room(alloc, given.units.len())?;
    let para = Classed {
        units: &given.units,
        classes: &before,
        limits: given.limits,
    };
    find_pairs(&sequences.get(0), &para, &mut classes, &mut pairs, steps);
    push_closers(out, &pairs, given.units.len())?;
    Ok(())
}

/// Applies W1 to I2 to a sequence, rule by rule. `classes` are those of its paragraph before W1.
fn resolve_in_order<L: Ledger>(
    s: &Sequence,
    para: &Classed,
    pairs: &mut Pairs,
    classes: &mut [Class],
    levels: &mut [Option<Level>],
    steps: &mut Steps<L>,
)
    requires units { length para.now.units.now ≡ s.now.extent }
    requires before { para.now.classes.now ≡ classes_of para.now.units.now }
    requires classes { length classes.old ≡ s.now.extent }
    requires levels { length levels.old ≡ s.now.extent }
    requires room { s.now.extent ≤ length pairs.old }
    requires copy { classes.old ≡ para.now.classes.now }
    ensures levels { HasLevels para.now.limits.brackets s.now para.now.units.now para.now.classes.now levels.new }
    ensures other_levels { KeepsOtherLevels s.now.positions levels.old levels.new }
{
    rules_in_order();
    weak(s, classes, steps);
    bracket_pairs(s, para.units, classes, para.limits, pairs, steps);
    paired(s, para.classes, pairs, classes, steps);
    neutral(s, classes, steps);
    implicit(s, classes, levels, steps);
}

/// Appends the levels of a paragraph's one sequence after W1 to I2.
pub fn push_in_order<L: Ledger>(
    alloc: Global,
    given: &Given,
    out: &mut String,
    steps: &mut Steps<L>,
) -> Result<()> {
    let sequences = one_sequence(alloc, given, steps)?;
    let before = classes_of(alloc, &given.units)?;
    let mut classes = Vec::from_slice(alloc, &before)?;
    let mut pairs = pairs_room(alloc, given.units.len())?;
    let mut levels = vec![in alloc; None; given.units.len()]?;
    let para = Classed {
        units: &given.units,
        classes: &before,
        limits: given.limits,
    };
    resolve_in_order(
        &sequences.get(0),
        &para,
        &mut pairs,
        &mut classes,
        &mut levels,
        steps,
    );
    push_levels(out, &levels)?;
    Ok(())
}
