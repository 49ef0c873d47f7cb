// Why arguments make no request.
ghost use Rattle.std.specs.Prelude.{◌≡◌, Some};
ghost use Rattle.command.specs.Rejections.{no_request_text, usage_without_request, words_without_request};

use crate::help::{BIDI_USAGE, EXPLAIN_USAGE, JUDGE_USAGE, REPORT_USAGE, ROWS_USAGE};
use clap::Error;
use std::fmt;

/// The subcommands that take `--built-in` as an alternative to `--tables`.
#[derive(Clone, Copy, Debug, PartialEq, Eq)]
pub enum TableCommand {
    Explain,
    Judge,
    Report,
    Rows,
}

/// Why arguments that `clap` accepts make no request. Its text is printed for the user.
#[derive(Clone, Copy, Debug, PartialEq, Eq)]
pub enum NoRequest {
    /// This subcommand has both `--tables` and `--built-in`.
    TwoTables(TableCommand),
    /// `explain` has classes, and also tables or a text.
    ClassesAndText,
    /// `explain` has code points, and also classes or a text.
    CodesAndText,
    /// `explain` has no text, code points or classes.
    NoText,
    /// `explain` has a row, and also classes, code points or a direction.
    RowAndText,
    /// `explain` has a row, but not the kind of its file.
    RowWithoutKind,
    /// `explain` has a row, but no file.
    RowWithoutFile,
    /// `explain` has the kind of a file, but no row.
    KindWithoutRow,
    /// `rows` has a text, and also an argument that determines texts of a form.
    TextAndForm,
    /// `rows` has neither a form nor a text.
    NoForm,
    /// `rows` has a form, but no lengths.
    NoLength,
    /// `rows` has no alphabet, but its form needs one.
    NoAlphabet,
    /// `rows` has an alphabet, but its form has its own letters.
    AlphabetAndForm,
    /// There is no subcommand.
    NoSubcommand,
}

impl NoRequest {
    /// Returns in words what is wrong.
    fn words(self) -> &'static str
        ensures { result.now ≡ words_without_request self }
    {
        match self {
            NoRequest::TwoTables(_) => {
                "the argument '--tables <DIR>' cannot be used with '--built-in'"
            }
            NoRequest::ClassesAndText => {
                "the argument '--classes <CLASSES>' cannot be used with '--tables <DIR>', '--built-in' or '<FILE>'"
            }
            NoRequest::CodesAndText => {
                "the argument '--codes <CODES>' cannot be used with '--classes <CLASSES>' or '<FILE>'"
            }
            NoRequest::NoText =>
                "'<FILE>' is required, or '--codes <CODES>', or '--classes <CLASSES>'",
            NoRequest::RowAndText => {
                "the argument '--row <LINE>' cannot be used with '--classes <CLASSES>', '--codes <CODES>' \
                 or '--direction <DIRECTION>'"
            }
            NoRequest::RowWithoutKind => {
                "the argument '--kind <KIND>' is required with '--row <LINE>'"
            }
            NoRequest::RowWithoutFile => "'<FILE>' is required with '--row <LINE>'",
            NoRequest::KindWithoutRow => {
                "the argument '--kind <KIND>' can be used only with '--row <LINE>'"
            }
            NoRequest::TextAndForm => {
                "the argument '--of <FILE>' cannot be used with '--form <FORM>', '--alphabet <LETTERS>', \
                 '--length <LENGTHS>', '--seed <N>' or '--count <N>'"
            }
            NoRequest::NoForm => "'--form <FORM>' is required, or '--of <FILE>'",
            NoRequest::NoLength => {
                "the argument '--length <LENGTHS>' is required with '--form <FORM>'"
            }
            NoRequest::NoAlphabet => {
                "the argument '--alphabet <LETTERS>' is required with '--form exhaustive' and '--form random'"
            }
            NoRequest::AlphabetAndForm => {
                "the argument '--alphabet <LETTERS>' can be used only with '--form exhaustive' and '--form random'"
            }
            NoRequest::NoSubcommand => "a subcommand is needed",
        }
    }

    /// Returns the usage of the subcommand.
    fn usage(self) -> &'static str
        ensures { result.now ≡ usage_without_request self }
    {
        match self {
            NoRequest::TwoTables(TableCommand::Explain) => EXPLAIN_USAGE,
            NoRequest::TwoTables(TableCommand::Judge) => JUDGE_USAGE,
            NoRequest::TwoTables(TableCommand::Report) => REPORT_USAGE,
            NoRequest::TwoTables(TableCommand::Rows) => ROWS_USAGE,
            NoRequest::ClassesAndText | NoRequest::CodesAndText | NoRequest::NoText => {
                EXPLAIN_USAGE
            }
            NoRequest::RowAndText | NoRequest::RowWithoutKind => EXPLAIN_USAGE,
            NoRequest::RowWithoutFile | NoRequest::KindWithoutRow => EXPLAIN_USAGE,
            NoRequest::TextAndForm | NoRequest::NoForm | NoRequest::NoLength => ROWS_USAGE,
            NoRequest::NoAlphabet | NoRequest::AlphabetAndForm => ROWS_USAGE,
            NoRequest::NoSubcommand => BIDI_USAGE,
        }
    }
}

impl fmt::Display for NoRequest {
    ghost output = { λ why. Some (no_request_text why) };

    fn fmt<W: fmt::Write>(&self, f: &mut fmt::Formatter<W>) -> fmt::Result {
        let words = self.words();
        let usage = self.usage();
        write!(
            f,
            "error: {words}\n\nUsage: {usage}\n\nFor more information, try '--help'.\n"
        )
    }
}

/// Why the arguments make no request.
#[derive(Debug, Drop)]
pub enum WordsFault {
    /// `clap` rejects them, they ask for help or the version, or an allocation failed.
    ByClap(Error),
    /// `clap` accepts them, but they make no request.
    NoRequest(NoRequest),
}

impl From<Error> for WordsFault {
    ghost use Rattle.std.specs.Prelude.{◌≡◌};
    ghost use Rattle.command.specs.declared.rejection.WordsFault.TheVariants.{ByClap};

    ghost from_gives = { λ error fault. fault ≡ ByClap error };

    fn from(error: Error) -> Self {
        WordsFault::ByClap(error)
    }
}

impl From<NoRequest> for WordsFault {
    ghost use Rattle.std.specs.Prelude.{◌≡◌};
    ghost use Rattle.command.specs.declared.rejection.WordsFault.TheVariants as fault;

    ghost from_gives = { λ why given. given ≡ fault.NoRequest why };

    fn from(why: NoRequest) -> Self {
        WordsFault::NoRequest(why)
    }
}
