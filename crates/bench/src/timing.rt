//! The clock.

use lines::breaks::Breaks;
use lines::lay_out::lay_out_into;
use lines::scratch::Scratch;
use std::io;
use std::time::{Duration, Instant};
use units::bracket::Unit;
use units::level::Direction;

/// Lays out a text. Returns the number of lines, or 0 if the scratch has no capacity for it.
pub fn line_count(text: &[Unit], room: &mut Scratch) -> usize {
    let Ok(breaks) = Breaks::new(&[], text.len()) else {
        return 0;
    };
    match lay_out_into(room, text, Direction::Auto, &breaks) {
        Ok(()) => room.layout().line_count(),
        Err(_) => 0,
    }
}

/// Lays out a text `rounds` times. Returns the time that this takes, and the number of all lines.
fn time(
    rt: &HostRuntime,
    text: &[Unit],
    rounds: usize,
    room: &mut Scratch,
) -> io::Result<(Duration, usize)> {
    let start = Instant::now(rt)?;
    let mut lines: usize = 0;
    for _ in 0..rounds {
        lines = lines.saturating_add(line_count(text, room));
    }
    Ok((start.elapsed(rt)?, lines))
}

/// Does so three times. Returns the least time, and the number of lines of the first.
pub fn least_time(
    rt: &HostRuntime,
    text: &[Unit],
    rounds: usize,
    room: &mut Scratch,
) -> io::Result<(Duration, usize)> {
    let (mut least, lines) = time(rt, text, rounds, room)?;
    for _ in 0..2 {
        let (elapsed, _) = time(rt, text, rounds, room)?;
        least = least.min(elapsed);
    }
    Ok((least, lines))
}

/// Returns the tenths of a nanosecond that each of `units` units takes, as a whole number.
pub fn tenths_each(elapsed: Duration, units: usize) -> u128 {
    elapsed.as_nanos().saturating_mul(10) / (units.max(1) as u128)
}
