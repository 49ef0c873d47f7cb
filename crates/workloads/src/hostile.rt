//! Texts that are only written to cause trouble: each is some letters, and then the same few units over and over.

use crate::digest::Digest;
use crate::inputs::{Inputs, MOST_DRAWS, no_new_input};
use crate::text_maker::TextMaker;
use lines::breaks::Breaks;
use lines::lay_out::lay_out_into;
use lines::scratch::Scratch;
use std::alloc::Global;
use std::io;
use units::bracket::{Bracket, Key, Unit};
use units::class::Class;
use units::level::Direction;

/// The most units of a text.
const MOST: usize = 65_536;

/// The number of units at the start of a text that, with its length, tell it apart from other texts.
const START: usize = 128;

/// How many texts there are, and how many units each has: from half of this number to all of it.
#[derive(Clone, Copy)]
pub struct Amount {
    pub texts: usize,
    pub units: usize,
}

/// What is repeated.
#[derive(Clone, Copy)]
enum Pattern {
    /// These classes.
    Classes(&'static [Class]),
    /// So many initiators or embeddings, then as many of their ends.
    Nested(Class, Class, usize),
    /// So many opening brackets, then as many closing ones, of the same pair or not.
    Brackets(usize, bool),
}

const PATTERNS: [Pattern; 9] = [
    Pattern::Classes(&[Class::FSI]),
    Pattern::Classes(&[Class::RLI, Class::R, Class::PDI, Class::WS]),
    Pattern::Classes(&[Class::L, Class::R]),
    Pattern::Classes(&[
        Class::R,
        Class::EN,
        Class::CS,
        Class::EN,
        Class::ET,
        Class::WS,
        Class::L,
    ]),
    Pattern::Nested(Class::RLE, Class::PDF, 130),
    Pattern::Nested(Class::LRI, Class::PDI, 1_000),
    Pattern::Brackets(1, true),
    Pattern::Brackets(62, true),
    Pattern::Brackets(40, false),
];

const LETTERS: [Class; 8] = [
    Class::L,
    Class::R,
    Class::AL,
    Class::EN,
    Class::AN,
    Class::NSM,
    Class::WS,
    Class::ON,
];

/// Returns a unit of this class that isn't a bracket.
fn unit(class: Class) -> Unit {
    Unit {
        class,
        bracket: Bracket::No,
    }
}

/// Adds a unit so many times.
fn push_times(units: &mut Vec<Unit>, unit: Unit, count: usize) -> io::Result<()> {
    for _ in 0..count {
        units.push(unit)?;
    }
    Ok(())
}

/// Adds `depth` times a unit, then a letter, and then `depth` times another unit.
fn push_around(units: &mut Vec<Unit>, open: Unit, close: Unit, depth: usize) -> io::Result<()> {
    push_times(units, open, depth)?;
    push_times(units, unit(Class::R), 1)?;
    push_times(units, close, depth)
}

/// Adds units of these classes.
fn push_classes(units: &mut Vec<Unit>, classes: &[Class]) -> io::Result<()> {
    for class in classes {
        units.push(unit(*class))?;
    }
    Ok(())
}

/// Adds the units of a pattern, once.
fn push_pattern(units: &mut Vec<Unit>, pattern: Pattern) -> io::Result<()> {
    match pattern {
        Pattern::Classes(classes) => push_classes(units, classes),
        Pattern::Nested(open, close, depth) => push_around(units, unit(open), unit(close), depth),
        Pattern::Brackets(depth, matched) => {
            let open = of_bracket(Bracket::Open(Key::new(40)));
            let close = of_bracket(Bracket::Close(Key::new(if matched { 40 } else { 91 })));
            push_around(units, open, close, depth)
        }
    }
}

/// Returns the unit of a bracket.
fn of_bracket(bracket: Bracket) -> Unit {
    Unit {
        class: Class::ON,
        bracket,
    }
}

/// Returns a pattern repeated until it has a thousand units or more.
fn stretch(alloc: Global, pattern: Pattern) -> io::Result<Vec<Unit>> {
    let mut units = Vec::new(alloc);
    for _ in 0..1_000 {
        if units.len() >= 1_000 {
            break;
        }
        push_pattern(&mut units, pattern)?;
    }
    Ok(units)
}

/// Adds letters.
fn push_letters(units: &mut Vec<Unit>, count: usize, maker: &mut TextMaker) -> io::Result<()> {
    for _ in 0..count {
        units.push(unit(LETTERS[maker.below(8) % 8]))?;
    }
    Ok(())
}

/// Adds a stretch again and again, until there are so many units.
fn push_stretches(units: &mut Vec<Unit>, stretch: &[Unit], least: usize) -> io::Result<()> {
    for _ in 0..least {
        if units.len() >= least {
            break;
        }
        units.extend_from_slice(stretch)?;
    }
    Ok(())
}

/// Draws a text of at least half as many units as `most`: letters, and then a stretch again and again. It replaces what
/// was in `units`.
fn draw(
    maker: &mut TextMaker,
    stretch: &[Unit],
    most: usize,
    units: &mut Vec<Unit>,
) -> io::Result<()> {
    let least = (most / 2).saturating_add(maker.below(most / 2));
    let letters = 8 + maker.below(64);
    units.clear();
    push_letters(units, letters, maker)?;
    push_stretches(units, stretch, least)
}

/// Returns the digest of a text's length and of the classes at its start.
fn digest_of(units: &[Unit]) -> Digest {
    let mut digest = Digest::new();
    digest.add_size(units.len());
    for unit in units.iter().take(START) {
        digest.add_bytes(unit.class.short().as_bytes());
    }
    digest
}

/// Makes the text with this number, which differs from all earlier ones. It replaces what was in `units`.
fn make(
    alloc: Global,
    number: usize,
    seed: u64,
    most: usize,
    units: &mut Vec<Unit>,
    texts: &mut Inputs,
) -> io::Result<()> {
    let mut maker = TextMaker::new(seed, number);
    let stretch = stretch(alloc, PATTERNS[number % 9])?;
    for _ in 0..MOST_DRAWS {
        draw(&mut maker, &stretch, most, units)?;
        if texts.add(digest_of(units))? {
            return Ok(());
        }
    }
    Err(no_new_input())
}

/// Lays out a text, and adds the levels of its paragraphs, its levels and its order to the digest.
fn lay_out(room: &mut Scratch, text: &[Unit], digest: &mut Digest) -> io::Result<()> {
    let Ok(breaks) = Breaks::new(&[], text.len()) else {
        return Err(io::ErrorKind::InvalidData.into());
    };
    let Ok(()) = lay_out_into(room, text, Direction::Auto, &breaks) else {
        return Err(io::ErrorKind::InvalidData.into());
    };
    let layout = room.layout();
    digest.add_para_levels(layout.para_levels());
    digest.add_levels(layout.levels());
    for k in 0..layout.line_count() {
        digest.add_sizes(layout.line(k).order);
    }
    Ok(())
}

/// Lays out so many texts in a room.
fn lay_out_each(
    alloc: Global,
    amount: Amount,
    seed: u64,
    units: &mut Vec<Unit>,
    room: &mut Scratch,
) -> io::Result<Digest> {
    let mut digest = Digest::new();
    let mut texts = Inputs::new(alloc);
    for number in 0..amount.texts {
        make(alloc, number, seed, amount.units, units, &mut texts)?;
        lay_out(room, units, &mut digest)?;
    }
    Ok(digest)
}

/// Lays out so many texts.
pub fn lay_out_hostile(alloc: Global, amount: Amount, seed: u64) -> io::Result<Digest> {
    let Ok(mut room) = Scratch::with_room(alloc, MOST) else {
        return Err(io::ErrorKind::OutOfMemory.into());
    };
    let mut units = Vec::new(alloc);
    lay_out_each(alloc, amount, seed, &mut units, &mut room)
}
