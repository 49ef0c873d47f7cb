//! A row of a test file.
ghost use Rattle.std.specs.Prelude.{◌≡◌, ◌≤◌, length};
ghost use Rattle.bidtests.specs.Readings.{expected_of};
ghost use Rattle.bidtests.specs.declared.line_reader.TheConstants.{MOST_UNITS};
ghost use Rattle.explain.specs.Searching.{row_in};

use crate::row_reader::RowReader;
use bidtests::expected::Expected;
use bidtests::line_reader::Asked;
use std::marker::Model;

/// A row of a test file, with its text and its expected results. Rows of code points also have the characters of the
/// text.
#[derive(Drop)]
pub struct ChosenRow {
    rows: RowReader,
    asked: Asked,
}

impl Model for ChosenRow {
    ghost use Rattle.std.specs.Prelude.{◌≤◌, length};
    ghost use Rattle.bidtests.specs.declared.line_reader.TheConstants.{MOST_UNITS};
    ghost use Rattle.explain.specs.Searching.{row_in};
    ghost use Rattle.explain.specs.WantedRows.{RowView};

    ghost Value = { RowView };

    ghost view = { λ s. row_in s.rows s.asked };

    ghost invariant = { λ s. length s.rows.reading.text ≤ MOST_UNITS };
}

impl ChosenRow {
    /// Returns the row that was read last. `asked` is what it asks for.
    pub fn new(rows: RowReader, asked: Asked) -> ChosenRow
        requires { length rows.reading.text ≤ MOST_UNITS }
        ensures { result ≡ row_in rows asked }
    {
        ChosenRow { rows, asked }
    }

    /// Returns the expected results. The text has at most 32,768 units.
    pub fn expected(&self) -> Expected<'_>
        ensures expected { expected_of result ≡ self.now.expected }
        ensures fits { length result.text.now ≤ MOST_UNITS }
    {
        self.rows.expected(self.asked)
    }

    /// Returns the characters of the text. A row of classes has none.
    pub fn chars(&self) -> &[char]
        ensures { result.now ≡ self.now.chars }
    {
        self.rows.chars()
    }
}
