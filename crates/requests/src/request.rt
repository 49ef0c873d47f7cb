// The requests.

use report::terms::Leniency;
use rows::form::Form;
use std::num::{NonZeroU16, NonZeroU64};
use units::level::Direction;

/// The kinds of conformance files.
#[derive(Clone, Copy, Debug, PartialEq, Eq)]
pub enum FileKind {
    /// In the form of BidiTest.txt: the rows are lists of classes.
    Classes,
    /// In the form of BidiCharacterTest.txt: the rows are lists of code points.
    Characters,
}

/// What is printed of a text.
#[derive(Clone, Copy, Debug, PartialEq, Eq)]
pub enum Print {
    /// Its levels.
    Levels,
    /// Its lines as they are shown, with a break after every `columns` characters of a paragraph.
    Reorder { columns: Option<NonZeroU16> },
    /// What each rule does to it.
    Explained,
}

/// Where the tables come from.
#[derive(Clone, Copy, Debug, PartialEq, Eq)]
pub enum TableSource<'a> {
    /// The three files in the folder of this name.
    Folder(&'a str),
    /// The built-in Unicode data.
    BuiltIn,
}

/// The letters of the texts of rows.
#[derive(Clone, Copy, Debug, PartialEq, Eq)]
pub enum RowLetters<'a> {
    /// The items of this value: names of classes, or code points.
    Alphabet(&'a str),
    /// The letters of a form of hard texts.
    OfForm(Form),
}

/// Which texts over their letters rows have.
#[derive(Clone, Copy, Debug, PartialEq, Eq)]
pub enum RowsForm {
    /// All texts of the lengths, the shorter ones first.
    Exhaustive,
    /// `count` texts, drawn with a seed.
    Random { seed: u64, count: u64 },
}

/// The requested rows.
#[derive(Clone, Copy, Debug, PartialEq, Eq)]
pub struct AskedRows<'a> {
    /// The kind of the file that the rows form.
    pub kind: FileKind,
    /// The tables for rows of characters. Rows of classes need none.
    pub tables: TableSource<'a>,
    pub letters: RowLetters<'a>,
    pub form: RowsForm,
    /// The value of `--length`: the lengths of the texts.
    pub lengths: &'a str,
    /// The value of `--directions`: the directions of each text.
    pub directions: &'a str,
}

/// The text whose lines are requested as rows.
#[derive(Clone, Copy, Debug, PartialEq, Eq)]
pub struct AskedLines<'a> {
    /// The kind of the file that the lines form.
    pub kind: FileKind,
    /// The tables for the characters of the text.
    pub tables: TableSource<'a>,
    pub file: &'a str,
    /// The value of `--directions`: the directions of each line.
    pub directions: &'a str,
}

/// The row of a conformance file that is to be explained.
#[derive(Clone, Copy, Debug, PartialEq, Eq)]
pub struct WantedRow<'a> {
    /// The kind of the file.
    pub kind: FileKind,
    /// The tables. Only a file of characters needs them.
    pub tables: Option<TableSource<'a>>,
    /// The number of the row's line, counted from 1.
    pub line: NonZeroU64,
    pub file: &'a str,
}

/// How a conformance file is reported on.
#[derive(Clone, Copy, Debug, PartialEq, Eq)]
pub struct ReportOptions {
    /// The maximum number of wrong cases that are printed.
    pub most: u64,
    /// Which expected results are compared.
    pub leniency: Leniency,
}

/// A request. Files and folders have the names that were given.
#[derive(Clone, Copy, Debug, PartialEq, Eq)]
pub enum Request<'a> {
    /// Print the text of the file in this form, with these tables.
    Text {
        tables: TableSource<'a>,
        direction: Direction,
        file: &'a str,
        print: Print,
    },
    /// Print what each rule does to the classes in `classes`.
    ExplainClasses {
        classes: &'a str,
        direction: Direction,
    },
    /// Print what each rule does to a text of the code points in `codes`, with these tables.
    ExplainCodes {
        codes: &'a str,
        tables: TableSource<'a>,
        direction: Direction,
    },
    /// Print what each rule does to the text of this row, under each of its directions, and the expected results beside
    /// the defined ones.
    ExplainRow(WantedRow<'a>),
    /// Judge a conformance file. Only a file of characters needs the tables.
    Judge {
        kind: FileKind,
        tables: Option<TableSource<'a>>,
        file: &'a str,
    },
    /// Report on a conformance file: print its first wrong cases, up to a limit, and the number of all wrong cases.
    /// Only a file of characters needs the tables.
    Report {
        kind: FileKind,
        tables: Option<TableSource<'a>>,
        file: &'a str,
        options: ReportOptions,
    },
    /// Print these rows as a conformance file on which a judge's verdict is yes.
    Rows(AskedRows<'a>),
    /// Print the lines of this text as rows.
    RowsOf(AskedLines<'a>),
}
