// The arguments of the subcommands.
ghost use Rattle.std.specs.Prelude.{◌≡◌};
ghost use Rattle.clap.specs.Walk.{rule_of};
ghost use Rattle.command.specs.CommandLine.{built_in_rule, choice_rule, columns_rule, direction_rule, directions_rule};
ghost use Rattle.command.specs.CommandLine.{file_rule, flag_rule, kind_rule, number_rule, option_rule, row_rule};
ghost use Rattle.command.specs.CommandLine.{tables_rule, verbose_rule};

use crate::help;
use clap::builder::ValueParser;
use clap::{Arg, ArgAction};
use std::alloc::Global;

/// The names of directions.
pub const DIRECTIONS: [&str; 4] = ["auto", "ltr", "rtl", "auto-rtl"];

/// The names of kinds of files.
pub const KINDS: [&str; 2] = ["classes", "characters"];

/// The names of forms of rows.
pub const FORMS: [&str; 8] = [
    "exhaustive",
    "random",
    "nest",
    "brackets",
    "marks",
    "numbers",
    "isolates",
    "separators",
];

/// Returns the required argument FILE.
pub fn file_argument<'a>(alloc: Global) -> Arg<'a>
    ensures { rule_of result ≡ file_rule }
{
    Arg::new(alloc, "file")
        .value_name("FILE")
        .required(true)
        .help("The file to read, or `-` for standard input")
}

/// Returns an option that may be left out, with this name, this name of its value, and this help.
pub fn option_argument<'a>(
    alloc: Global,
    name: &'a str,
    value_name: &'a str,
    help: &'a str,
) -> Arg<'a>
    ensures { rule_of result ≡ option_rule name.now }
{
    Arg::new(alloc, name)
        .long(name)
        .value_name(value_name)
        .help(help)
}

/// Returns an option that may be left out, and whose value is one of these words.
pub fn choice_argument<'a>(
    alloc: Global,
    name: &'a str,
    value_name: &'a str,
    words: &'a [&'a str],
    help: &'a str,
) -> Arg<'a>
    ensures { rule_of result ≡ choice_rule name.now words.entry }
{
    option_argument(alloc, name, value_name, help).value_parser(words)
}

/// Returns the option `--tables DIR`, which is optional and must not be empty.
pub fn tables_argument<'a>(alloc: Global, help: &'a str) -> Arg<'a>
    ensures { rule_of result ≡ tables_rule }
{
    option_argument(alloc, "tables", "DIR", help).value_parser(ValueParser::NonEmptyString)
}

/// Returns the flag `--built-in`, an alternative to `--tables`.
pub fn built_in_argument<'a>(alloc: Global, help: &'a str) -> Arg<'a>
    ensures { rule_of result ≡ built_in_rule }
{
    flag_argument(alloc, "built-in", help)
}

/// Returns the option `--direction`. The default is `auto`.
pub fn direction_argument<'a>(alloc: Global, words: &'a [&'a str]) -> Arg<'a>
    ensures { rule_of result ≡ direction_rule words.entry }
{
    choice_argument(alloc, "direction", "DIRECTION", words, help::DIRECTION_HELP).default_value(
        "auto",
    )
}

/// Returns the option `--row LINE`, which is optional.
pub fn row_argument<'a>(alloc: Global) -> Arg<'a>
    ensures { rule_of result ≡ row_rule }
{
    option_argument(alloc, "row", "LINE", help::ROW_HELP).value_parser(clap::value_parser!(
        u64
    ).range(1..))
}

/// Returns the option `--columns N`, which is optional.
pub fn columns_argument<'a>(alloc: Global) -> Arg<'a>
    ensures { rule_of result ≡ columns_rule }
{
    option_argument(alloc, "columns", "N", help::COLUMNS_HELP).value_parser(clap::value_parser!(
        u16
    ).range(1..))
}

/// Returns the option `--directions DIRECTIONS`. The default is `auto ltr rtl`.
pub fn directions_argument<'a>(alloc: Global) -> Arg<'a>
    ensures { rule_of result ≡ directions_rule }
{
    option_argument(alloc, "directions", "DIRECTIONS", help::DIRECTIONS_HELP).default_value(
        "auto ltr rtl",
    )
}

/// Returns an option of this name that may be left out, with a number of 64 bits as its value.
pub fn number_argument<'a>(alloc: Global, name: &'a str, help: &'a str) -> Arg<'a>
    ensures { rule_of result ≡ number_rule name.now }
{
    option_argument(alloc, name, "N", help).value_parser(clap::value_parser!(u64))
}

/// Returns a flag of this name.
pub fn flag_argument<'a>(alloc: Global, name: &'a str, help: &'a str) -> Arg<'a>
    ensures { rule_of result ≡ flag_rule name.now }
{
    Arg::new(alloc, name)
        .long(name)
        .action(ArgAction::SetTrue)
        .help(help)
}

/// Returns the flag `--verbose`, which also has the form `-v`.
pub fn verbose_argument<'a>(alloc: Global) -> Arg<'a>
    ensures { rule_of result ≡ verbose_rule }
{
    flag_argument(alloc, "verbose", help::VERBOSE_HELP).short('v')
}

/// Returns the option `--kind`, which is required.
pub fn kind_argument<'a>(alloc: Global, words: &'a [&'a str]) -> Arg<'a>
    ensures { rule_of result ≡ kind_rule words.entry }
{
    choice_argument(alloc, "kind", "KIND", words, help::KIND_HELP).required(true)
}
