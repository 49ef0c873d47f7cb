// Reads directions from the value of an option.
ghost use Rattle.std.specs.Prelude.{IfOk, IfErr};
ghost use Rattle.requests.specs.DirectionWords.{EndsDirections, SaysDirections};

use crate::fault::Fault;
use crate::items::{ReadsItem, read_all};
use std::alloc::Global;
use units::level::Direction;

/// Reads the name of a direction.
#[derive(Drop)]
struct DirectionWords;

impl ReadsItem<Direction> for DirectionWords {
    ghost use Rattle.requests.specs.DirectionWords.{direction_of};
    ghost use Rattle.requests.specs.declared.fault.Fault.TheVariants.{NoDirection};

    ghost reading = { λ _. direction_of };

    ghost unread = { λ _ word item. NoDirection word item };

    fn read(&self, item: &[u8]) -> Option<Direction> {
        match item {
            b"auto" => Some(Direction::Auto),
            b"ltr" => Some(Direction::Ltr),
            b"rtl" => Some(Direction::Rtl),
            b"auto-rtl" => Some(Direction::AutoRtl),
            _ => None,
        }
    }

    fn fault<'a>(&self, word: &'a str, item: &'a [u8]) -> Fault<'a> {
        Fault::NoDirection { word, item }
    }
}

/// Reads the directions in `word`, one or more, separated by blanks. Fails with `NoDirection` at the first item that is
/// not a direction, with `NoDirections` if there is no item, and with `OutOfMemory` if an allocation fails.
pub fn directions_in<'a>(alloc: Global, word: &'a str) -> Result<Vec<Direction>, Fault<'a>>
    ensures directions { IfOk result (λ directions. SaysDirections word.now directions.items) }
    ensures fault { IfErr result (EndsDirections word.now) }
{
    let directions = read_all(alloc, &DirectionWords, word)?;
    if directions.is_empty() {
        return Err(Fault::NoDirections);
    }
    Ok(directions)
}
