// An expected order as it is read.
ghost use Rattle.std.specs.Prelude.{◌≡◌};
ghost use Rattle.std.specs.List.{position};
ghost use Rattle.report.specs.ReadExpected.{is_read as is_read_by, order_read};

use crate::terms::Positions;
use units::level::Level;

/// The rest of an expected order, without the positions that are not compared.
#[derive(Drop)]
pub struct ReadOrder<'a> {
    compared: Positions,
    levels: &'a [Option<Level>],
    order: &'a [usize],
}

/// Returns whether a position of a text with these levels is read.
fn is_read(compared: Positions, levels: &[Option<Level>], position: usize) -> bool
    ensures { result ≡ is_read_by compared levels.now position }
{
    match levels.get(position) {
        Some(level) => compared.has(*level),
        None => true,
    }
}

/// Returns the index of the first position that is read.
fn first_read(compared: Positions, levels: &[Option<Level>], order: &[usize]) -> Option<usize>
    ensures { result ≡ position (is_read_by compared levels.now) order.now }
{
    order.iter().position(|p| is_read(compared, levels, *p))
}

impl<'a> ReadOrder<'a> {
    ghost use Rattle.report.specs.Comparing.{remaining_order};

    /// Makes the expected order of a text with these levels, as it is read.
    pub fn new(
        compared: Positions,
        levels: &'a [Option<Level>],
        order: &'a [usize],
    ) -> ReadOrder<'a>
        ensures { remaining_order result ≡ order_read compared levels.now order.now }
    {
        ReadOrder {
            compared,
            levels,
            order,
        }
    }
}

impl<'a> Iterator for ReadOrder<'a> {
    ghost use Rattle.std.specs.Iterator.{YieldsFirst, item_count};
    ghost use Rattle.report.specs.Comparing.{remaining_order};

    type Item = usize;

    ghost next_gives = { YieldsFirst remaining_order };

    ghost remaining = { item_count remaining_order };

    fn next(&mut self) -> Option<usize> {
        let at = first_read(self.compared, self.levels, self.order)?;
        let position = self.order[at];
        self.order = &self.order[at + 1..];
        Some(position)
    }
}
