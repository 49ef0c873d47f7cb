// The command line of `bidi`.
ghost use Rattle.std.specs.Prelude.{◌≡◌, IfOk};
ghost use Rattle.clap.specs.Simple.{app_of};
ghost use Rattle.command.specs.CommandLine.{IsBidi, bidi_top, explain_app, judge_app, levels_app, reorder_app};
ghost use Rattle.command.specs.CommandLine.{report_app, rows_app};

use crate::arguments::{
    DIRECTIONS, FORMS, KINDS, built_in_argument, choice_argument, columns_argument,
    direction_argument, directions_argument, file_argument, flag_argument, kind_argument,
    number_argument, option_argument, row_argument, tables_argument, verbose_argument,
};
use crate::help::{self, EXPLAIN_DIRECTION_HELP};
use clap::Command;
use std::alloc::{AllocError, Global};

fn levels_command<'a>(alloc: Global, directions: &'a [&'a str]) -> Result<Command<'a>, AllocError>
    ensures { IfOk result (λ command. app_of command ≡ levels_app directions.entry) }
{
    Command::new(alloc, "levels")
        .about("Prints the levels of a text")
        .long_about(help::LEVELS_LONG_ABOUT)
        .after_help(help::LEVELS_EXAMPLE)
        .arg(tables_argument(alloc, help::TABLES_HELP))?
        .arg(direction_argument(alloc, directions))?
        .arg(file_argument(alloc))?
        .arg(verbose_argument(alloc))
}

fn reorder_command<'a>(alloc: Global, directions: &'a [&'a str]) -> Result<Command<'a>, AllocError>
    ensures { IfOk result (λ command. app_of command ≡ reorder_app directions.entry) }
{
    Command::new(alloc, "reorder")
        .about("Prints the lines of a text as they are shown")
        .long_about(help::REORDER_LONG_ABOUT)
        .after_help(help::REORDER_EXAMPLE)
        .arg(tables_argument(alloc, help::TABLES_HELP))?
        .arg(direction_argument(alloc, directions))?
        .arg(columns_argument(alloc))?
        .arg(file_argument(alloc))?
        .arg(verbose_argument(alloc))
}

/// Returns the subcommand `explain`. `clap` accepts any combination of its arguments. `explain_in` decides which
/// combinations form a request.
fn explain_command<'a>(
    alloc: Global,
    kinds: &'a [&'a str],
    directions: &'a [&'a str],
) -> Result<Command<'a>, AllocError>
    ensures { IfOk result (λ command. app_of command ≡ explain_app kinds.entry directions.entry) }
{
    Command::new(alloc, "explain")
        .about("Prints what each rule does")
        .long_about(help::EXPLAIN_LONG_ABOUT)
        .after_help(help::EXPLAIN_EXAMPLE)
        .override_usage(help::EXPLAIN_USAGE)
        .arg(tables_argument(alloc, help::EXPLAIN_TABLES_HELP))?
        .arg(built_in_argument(alloc, help::EXPLAIN_BUILT_IN_HELP))?
        .arg(option_argument(alloc, "classes", "CLASSES", help::CLASSES_HELP))?
        .arg(option_argument(alloc, "codes", "CODES", help::CODES_HELP))?
        .arg(row_argument(alloc))?
        .arg(choice_argument(alloc, "kind", "KIND", kinds, help::EXPLAIN_KIND_HELP))?
        .arg(choice_argument(
            alloc,
            "direction",
            "DIRECTION",
            directions,
            EXPLAIN_DIRECTION_HELP,
        ))?
        .arg(file_argument(alloc).required(false))?
        .arg(verbose_argument(alloc))
}

fn judge_command<'a>(alloc: Global, kinds: &'a [&'a str]) -> Result<Command<'a>, AllocError>
    ensures { IfOk result (λ command. app_of command ≡ judge_app kinds.entry) }
{
    Command::new(alloc, "judge")
        .about("Judges a conformance file")
        .long_about(help::JUDGE_LONG_ABOUT)
        .after_help(help::JUDGE_EXAMPLE)
        .override_usage(help::JUDGE_USAGE)
        .arg(kind_argument(alloc, kinds))?
        .arg(tables_argument(alloc, help::JUDGE_TABLES_HELP))?
        .arg(built_in_argument(alloc, help::JUDGE_BUILT_IN_HELP))?
        .arg(file_argument(alloc))?
        .arg(verbose_argument(alloc))
}

fn report_command<'a>(alloc: Global, kinds: &'a [&'a str]) -> Result<Command<'a>, AllocError>
    ensures { IfOk result (λ command. app_of command ≡ report_app kinds.entry) }
{
    Command::new(alloc, "report")
        .about("Prints the wrong cases of a conformance file, and their counts")
        .long_about(help::REPORT_LONG_ABOUT)
        .after_help(help::REPORT_EXAMPLE)
        .override_usage(help::REPORT_USAGE)
        .arg(kind_argument(alloc, kinds))?
        .arg(tables_argument(alloc, help::JUDGE_TABLES_HELP))?
        .arg(built_in_argument(alloc, help::JUDGE_BUILT_IN_HELP))?
        .arg(number_argument(alloc, "most", help::REPORT_MOST_HELP))?
        .arg(flag_argument(alloc, "order", help::REPORT_ORDER_HELP))?
        .arg(flag_argument(alloc, "shown", help::REPORT_SHOWN_HELP))?
        .arg(file_argument(alloc))?
        .arg(verbose_argument(alloc))
}

/// Returns the subcommand `rows`. `clap` accepts any combination of its arguments. `rows_in` decides which combinations
/// form a request.
fn rows_command<'a>(
    alloc: Global,
    forms: &'a [&'a str],
    kinds: &'a [&'a str],
) -> Result<Command<'a>, AllocError>
    ensures { IfOk result (λ command. app_of command ≡ rows_app forms.entry kinds.entry) }
{
    Command::new(alloc, "rows")
        .about("Prints a conformance file of hard texts or of a text's lines, with right answers")
        .long_about(help::ROWS_LONG_ABOUT)
        .after_help(help::ROWS_EXAMPLE)
        .override_usage(help::ROWS_USAGE)
        .arg(choice_argument(alloc, "form", "FORM", forms, help::FORM_HELP))?
        .arg(choice_argument(alloc, "kind", "KIND", kinds, help::ROWS_KIND_HELP))?
        .arg(tables_argument(alloc, help::TABLES_HELP))?
        .arg(built_in_argument(alloc, help::ROWS_BUILT_IN_HELP))?
        .arg(option_argument(alloc, "alphabet", "LETTERS", help::ALPHABET_HELP))?
        .arg(option_argument(alloc, "length", "LENGTHS", help::LENGTH_HELP))?
        .arg(directions_argument(alloc))?
        .arg(number_argument(alloc, "seed", help::ROWS_SEED_HELP))?
        .arg(number_argument(alloc, "count", help::ROWS_COUNT_HELP))?
        .arg(option_argument(alloc, "of", "FILE", help::OF_HELP))?
        .arg(verbose_argument(alloc))
}

/// Returns the command `bidi` without its subcommands. One of them is required.
fn bidi_alone<'a>(alloc: Global) -> Command<'a>
    ensures { app_of result ≡ bidi_top }
{
    Command::new(alloc, "bidi")
        .about(help::BIDI_ABOUT)
        .long_about(help::BIDI_LONG_ABOUT)
        .after_help(help::BIDI_EXAMPLE)
        .version(help::BIDI_VERSION)
        .subcommand_required(true)
}

/// Returns the command `bidi` as `clap` reads it.
pub fn bidi_command<'a>(alloc: Global) -> Result<Command<'a>, AllocError>
    ensures { IfOk result (λ command. IsBidi (app_of command)) }
{
    let directions = DIRECTIONS.as_slice();
    let kinds = KINDS.as_slice();
    let forms = FORMS.as_slice();
    bidi_alone(alloc)
        .subcommand(levels_command(alloc, directions)?)?
        .subcommand(reorder_command(alloc, directions)?)?
        .subcommand(explain_command(alloc, kinds, directions)?)?
        .subcommand(judge_command(alloc, kinds)?)?
        .subcommand(report_command(alloc, kinds)?)?
        .subcommand(rows_command(alloc, forms, kinds)?)
}
