//! What comes out before the rules of a sequence.
ghost use Rattle.std.specs.Prelude.{◌≤◌, ◌<◌, length};
ghost use Rattle.explicit.specs.IsolateMaps.{room};

use explicit::isolates::IsolateMap;
use explicit::levels::Explicit;
use explicit::paragraphs;
use row_files::shown::push_position;
use row_files::words::push_word;
use sequences::sequence::Sequence;
use sequences::sequences::Sequences;
use std::alloc::AllocError;
use units::bracket::Unit;

/// Appends the number of units of each paragraph (P1).
pub fn push_paragraphs(out: &mut String, text: &[Unit]) -> Result<(), AllocError> {
    for piece in paragraphs(text) {
        push_word(out, piece.len())?;
    }
    Ok(())
}

/// Appends the partner of each of `n` positions, or `-` for none (BD9).
pub fn push_partners(out: &mut String, map: &IsolateMap, n: usize) -> Result<(), AllocError>
    requires { n ≤ room map.now }
{
    for p in 0..n {
        push_position(out, map.partner(p))?;
    }
    Ok(())
}

/// Appends a position's explicit level and current class, or `x` if it is removed (X1 to X9).
fn push_explicit_at(out: &mut String, explicit: &Explicit, p: usize) -> Result<(), AllocError>
    requires { p < length explicit.now }
{
    match explicit.at(p) {
        Some((level, class)) => {
            push_word(out, format_args!("{}:{}", level.get(), class.short()))
        }
        None => push_word(out, "x"),
    }
}

/// Appends the explicit level and the current class of each of `n` positions.
pub fn push_explicit(out: &mut String, explicit: &Explicit, n: usize) -> Result<(), AllocError>
    requires { n ≤ length explicit.now }
{
    for p in 0..n {
        push_explicit_at(out, explicit, p)?;
    }
    Ok(())
}

/// Appends a sequence's positions, its level, its sos and its eos (X10).
fn push_sequence(out: &mut String, s: &Sequence) -> Result<(), AllocError> {
    for p in s.positions() {
        push_word(out, p)?;
    }
    let (level, sos, eos) = (s.level().get(), s.sos().short(), s.eos().short());
    push_word(out, format_args!("level {level} sos {sos} eos {eos}"))
}

/// Appends all sequences, with `|` between them.
pub fn push_sequences(out: &mut String, sequences: &Sequences) -> Result<(), AllocError> {
    for k in 0..sequences.count() {
        if k > 0 {
            push_word(out, "|")?;
        }
        push_sequence(out, &sequences.get(k))?;
    }
    Ok(())
}

/// Appends the position after one of a sequence, or `-` after the last one (BD13).
fn push_successor(out: &mut String, s: &Sequence, k: usize) -> Result<(), AllocError>
    requires { k < length s.now.positions }
{
    push_position(out, s.after(s.as_slice()[k] as usize))
}

/// Appends the position after each one of a sequence.
fn push_successors_in(out: &mut String, s: &Sequence) -> Result<(), AllocError> {
    for k in 0..s.as_slice().len() {
        push_successor(out, s, k)?;
    }
    Ok(())
}

/// Appends the position after each one of all sequences.
pub fn push_successors(out: &mut String, sequences: &Sequences) -> Result<(), AllocError> {
    for k in 0..sequences.count() {
        push_successors_in(out, &sequences.get(k))?;
    }
    Ok(())
}
