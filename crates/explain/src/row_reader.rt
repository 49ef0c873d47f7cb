// Reads lines in order, up to a wanted row.
ghost use Rattle.std.specs.Prelude.{◌≡◌, ◌*◌, ◌≤◌, IfOk, IsSome, length, vec_capacity};
ghost use Rattle.units.specs.Text.{longest_line};
ghost use Rattle.bidtests.specs.declared.line_reader.TheConstants.{MOST_UNITS};

use crate::characters::read_characters;
use crate::row_fault::RowFault;
use bidtests::expected::Expected;
use bidtests::kind::Kind;
use bidtests::line_reader::{Asked, LineReader, MOST_UNITS};
use std::alloc::Global;
use std::marker::Model;
use units::memory::Memory;

/// Reads the lines, and stores the characters of the row.
#[derive(Drop)]
pub struct RowReader {
    reader: LineReader,
    chars: Vec<char>,
}

impl Model for RowReader {
    ghost use Rattle.std.specs.Prelude.{◌*◌, ◌≤◌, vec_capacity};
    ghost use Rattle.units.specs.Text.{longest_line};
    ghost use Rattle.explain.specs.Searching.{RowReading};

    ghost Value = { RowReading };

    ghost view = { λ s. record { reading = s.reader; chars = s.chars.items } };

    ghost invariant = { λ s. longest_line ≤ 2 * vec_capacity s.chars };
}

impl RowReader {
    ghost use Rattle.bidtests.specs.LineReadings.{HasNoList, expected_in};
    ghost use Rattle.bidtests.specs.Readings.{expected_of};
    ghost use Rattle.explain.specs.Searching.{SaysOfRow};

    /// Creates a reader before the first line.
    pub fn new(alloc: Global) -> Result<RowReader, Memory>
        ensures { IfOk result (λ rows. HasNoList rows.reading) }
    {
        let reader = LineReader::new(alloc)?;
        let chars = Vec::with_capacity(alloc, MOST_UNITS)?;
        Ok(RowReader { reader, chars })
    }

    /// Reads a line, given the lines before it. Returns what its row asks for if its number is at least `wanted`.
    /// `number` is the number of the line.
    pub fn take_line(
        &mut self,
        kind: Kind<'_>,
        wanted: u64,
        number: u64,
        line: &[u8],
    ) -> Result<Option<Asked>, RowFault>
        requires { length line.now ≤ longest_line }
        ensures says { SaysOfRow kind.entry wanted number line.now self.old self.new result }
        ensures fits { IfOk result (λ row. IsSome row → length self.new.reading.text ≤ MOST_UNITS) }
    {
        let row = match self.reader.read_line(kind, line) {
            Ok(row) => row,
            Err(cause) => {
                return Err(RowFault::Malformed {
                    line: number,
                    cause,
                });
            }
        };
        if number < wanted {
            return Ok(None);
        }
        let Some(asked) = row else {
            return Err(RowFault::NoRow);
        };
        read_characters(kind, line, &mut self.chars);
        Ok(Some(asked))
    }

    /// Returns the expected results of the row that was read last. `asked` is what it asks for.
    pub fn expected(&self, asked: Asked) -> Expected<'_>
        ensures { expected_of result ≡ expected_in self.now.reading asked }
    {
        self.reader.expected(asked)
    }

    /// Returns the characters of the row's text. A row of classes has none.
    pub fn chars(&self) -> &[char]
        ensures { result.now ≡ self.now.chars }
    {
        &self.chars
    }
}
