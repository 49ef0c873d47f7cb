//! Parts of a layout by themselves: the order of a line, L1, and lists of breaks.
ghost use Rattle.std.specs.Prelude.{◌≡◌, ◌<◌};

use crate::by_lines::breaks_of;
use crate::given::items_of;
use crate::layouts::push_order;
use anyhow::{Context, Result, bail, ensure};
use explicit::paragraphs;
use lines::breaks::Breaks;
use lines::order::write_order;
use lines::resets::reset_text;
use lines::runs::Run;
use lines::spans::LineSpan;
use row_files::shown::push_levels;
use row_files::words::{class_of, number_of, numbers_of, push_word};
use std::alloc::Global;
use std::marker::Brand;
use std::sync::ledger::{Blank, Ledger};
use units::bracket::{Bracket, Unit};
use units::level::{Level, ParaLevel};
use units::steps::Steps;

/// Returns the level that a word writes, or none for `x`.
fn level_of(word: &str) -> Result<Option<Level>> {
    if word == "x" {
        return Ok(None);
    }
    let level = Level::new(u8::try_from(number_of(word)?)?);
    Ok(Some(level.context(format_args!("{word} is no level"))?))
}

/// Appends the order of the positions from `start` up to `end` of a text with these levels (L2).
fn push_order_of<K: Ledger>(
    alloc: Global,
    levels: &[Option<Level>],
    line: (usize, usize),
    out: &mut String,
    steps: &mut Steps<K>,
) -> Result<()> {
    let (start, end) = line;
    let is_line = start <= end && end <= levels.len() && end <= 65_536;
    ensure!(is_line, "no line of the text is there");
    let mut runs = vec![in alloc; Run::default(); end]?;
    let mut order = vec![in alloc; 0; end]?;
    let line = LineSpan { levels, start, end };
    let count = write_order(line, None, &mut runs, &mut order, steps);
    push_order(out, order.get(..count).unwrap_or(&[]))?;
    Ok(())
}

/// Returns the level of a paragraph that a word writes, 0 or 1.
fn para_level_of(word: &str) -> Result<ParaLevel> {
    match word {
        "0" => Ok(ParaLevel::Zero),
        "1" => Ok(ParaLevel::One),
        _ => bail!("{word} is no level of a paragraph"),
    }
}

/// Returns the unit of the class with this name. It is no bracket.
fn unit_of(name: &str) -> Result<Unit> {
    Ok(Unit {
        class: class_of(name)?,
        bracket: Bracket::No,
    })
}

/// Appends the levels after L1 of units with these levels before it, in paragraphs with these levels.
fn push_resets<K: Ledger>(
    units: &[Unit],
    at: &[usize],
    paras: &[ParaLevel],
    mut levels: Vec<Option<Level>>,
    out: &mut String,
    steps: &mut Steps<K>,
) -> Result<()> {
    let breaks = breaks_of(at, units.len())?;
    let count = paragraphs(units).count();
    ensure!(paras.len() == count, "not as many levels as paragraphs");
    ensure!(levels.len() == units.len(), "not as many levels as units");
    reset_text(units, &breaks, paras, &mut levels, steps);
    push_levels(out, &levels)?;
    Ok(())
}

/// Appends what comes out of a part of a layout, and counts steps from the blank.
fn push_counting<K: Ledger>(
    alloc: Global,
    fields: &[&str],
    out: &mut String,
    blank: Blank,
) -> Result<()>
    requires name { blank.name ≡ K.name }
    requires parts { blank.parts ≡ K.parts }
    requires some { 0 < blank.parts }
{
    let mut steps = Steps::<K>::new(blank);
    match *fields {
        ["order", line, levels] => {
            let (start, end) = line.split_once("..").context("no `..` is in the line")?;
            let line = (number_of(start)?, number_of(end)?);
            push_order_of(
                alloc,
                &items_of(alloc, levels, level_of)?,
                line,
                out,
                &mut steps,
            )
        }
        ["resets", at, paras, classes, levels] => push_resets(
            &items_of(alloc, classes, unit_of)?,
            &numbers_of(alloc, at)?,
            &items_of(alloc, paras, para_level_of)?,
            items_of(alloc, levels, level_of)?,
            out,
            &mut steps,
        ),
        _ => bail!("no verb has this name and so many fields"),
    }
}

/// Appends what comes out of a part of a layout: `order` of a line, or `resets` of a text.
pub fn push_part(alloc: Global, fields: &[&str], out: &mut String) -> Result<()> {
    push_counting::<Brand>(alloc, fields, out, Blank::new(1))
}

/// Appends the breaks of a text of this length and the length, or the fault.
pub fn push_breaks(alloc: Global, len: &str, at: &str, out: &mut String) -> Result<()> {
    let at = numbers_of(alloc, at)?;
    match Breaks::new(&at, number_of(len)?) {
        Ok(breaks) => {
            push_order(out, breaks.positions())?;
            push_word(out, format_args!("of {}", breaks.text_len()))?;
        }
        Err(fault) => push_word(out, format_args!("{fault:?}"))?,
    }
    Ok(())
}
