//! Checks rows of the rules of UAX #9, each by itself and together, from the cutting of a text into paragraphs to the
//! resolved levels. Its arguments name files of rows. A row is `VERB; DIRECTION; UNITS; RESULT`, or `VERB; DIRECTION;
//! DEPTH; BRACKETS; UNITS; RESULT` with other limits than 125 and 63. `made; POSITIONS; RESULT` makes buffers.
#![tactic(auto)]

ghost use Rattle.std.specs.Prelude.{◌≡◌, ◌<◌};

mod before;
mod given;
mod in_order;
mod made;
mod results;
mod rules;
mod verb;

use anyhow::{Result, bail};
use before::{push_explicit, push_paragraphs, push_partners, push_sequences, push_successors};
use given::{Given, given_of, is_paragraph, out_of_memory};
use in_order::{push_in_order, push_pairs};
use made::push_made;
use paragraph::resolver::Resolver;
use results::{Results, results_in};
use row_files::files::{Check, check_files};
use row_files::shown::push_levels;
use row_files::words::push_word;
use rules::push_rule;
use std::alloc::Global;
use std::marker::Brand;
use std::process::ExitCode;
use std::sync::ledger::{Blank, Ledger};
use units::steps::Steps;
use verb::Verb;

/// Rows of rules.
#[derive(Clone, Copy)]
struct RuleRows;

/// Appends a result before the rules of a sequence.
fn push_results<L: Ledger>(
    alloc: Global,
    verb: Verb,
    given: &Given,
    out: &mut String,
    steps: &mut Steps<L>,
) -> Result<()> {
    let n = given.units.len();
    let found = results_in(alloc, given, steps)?;
    match verb {
        Verb::Level => push_word(out, found.level.level().get())?,
        Verb::Partners => push_partners(out, &found.map, n)?,
        Verb::Explicit => push_explicit(out, &found.explicit, n)?,
        Verb::Sequences => push_sequences(out, &found.sequences)?,
        _ => push_successors(out, &found.sequences)?,
    }
    Ok(())
}

/// Appends the resolved levels of a paragraph (P2 to I2).
fn push_resolved<L: Ledger>(
    alloc: Global,
    given: &Given,
    out: &mut String,
    steps: &mut Steps<L>,
) -> Result<()> {
    if !is_paragraph(&given.units) {
        bail!("a separator ends a paragraph");
    }
    let n = given.units.len();
    let mut resolver = Resolver::with_room(alloc, n).map_err(out_of_memory)?;
    let mut levels = vec![in alloc; None; n]?;
    resolver.resolve(
        &given.units,
        given.direction,
        given.limits,
        &mut levels,
        steps,
    );
    push_levels(out, &levels)?;
    Ok(())
}

/// Appends what comes out of a row.
fn push_result<L: Ledger>(
    alloc: Global,
    verb: Verb,
    given: &Given,
    out: &mut String,
    steps: &mut Steps<L>,
) -> Result<()> {
    match verb {
        Verb::Paragraphs => Ok(push_paragraphs(out, &given.units)?),
        Verb::Level | Verb::Partners | Verb::Explicit | Verb::Sequences | Verb::Successors =>
            push_results(alloc, verb, given, out, steps),
        Verb::Pairs => push_pairs(alloc, given, out, steps),
        Verb::InOrder => push_in_order(alloc, given, out, steps),
        Verb::Levels => push_resolved(alloc, given, out, steps),
        Verb::Rule(rule) => push_rule(alloc, rule, given, out, steps),
    }
}

/// Appends what comes out of a row, and counts steps from the blank.
fn push_counting<L: Ledger>(
    alloc: Global,
    verb: Verb,
    given: &Given,
    out: &mut String,
    blank: Blank,
) -> Result<()>
    requires name { blank.name ≡ L.name }
    requires parts { blank.parts ≡ L.parts }
    requires some { 0 < blank.parts }
{
    push_result(alloc, verb, given, out, &mut Steps::<L>::new(blank))
}

/// Appends what comes out of a row with these inputs.
fn push_for(alloc: Global, verb: Verb, inputs: &[&str], out: &mut String) -> Result<()> {
    let given = given_of(alloc, inputs)?;
    push_counting::<Brand>(alloc, verb, &given, out, Blank::new(1))
}

impl Check for RuleRows {
    fn come_out(&self, alloc: Global, fields: &[&str], out: &mut String) -> Result<()> {
        match *fields {
            ["made", n] => push_made(alloc, n, out),
            [verb, ref inputs @ ..] => push_for(alloc, Verb::of(verb)?, inputs, out),
            [] => bail!("no verb"),
        }
    }
}

fn main(rt: HostRuntime) -> Result<ExitCode> {
    check_files(&rt, &RuleRows)
}
