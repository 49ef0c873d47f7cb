// Why the arguments of a subcommand make no request.
ghost use Rattle.std.specs.Prelude.{◌≡◌};
ghost use Rattle.clap.specs.Matches.{found_of};
ghost use Rattle.clap.specs.Simple.{subcommand_rows_of};
ghost use Rattle.clap.specs.Walk.{rows_of};
ghost use Rattle.command.specs.Rejections.{explain_rejection, form_rejection, has_classes_and_text, has_codes_and_text};
ghost use Rattle.command.specs.Rejections.{rejection_in_subcommand, rejection_without_request, row_rejection, rows_rejection};
ghost use Rattle.command.specs.Rejections.{text_rejection};

use crate::asked_rows::is_over_alphabet;
use crate::explaining::has_text_words;
use crate::rejection::{NoRequest, TableCommand};
use crate::values::{has_table_words, has_two_tables, has_value, text_of};
use clap::ArgMatches;

/// Returns whether `explain` has classes, and also a text or tables.
fn has_classes_and_text(matches: &ArgMatches<'_>) -> bool
    ensures { result ≡ has_classes_and_text (rows_of (found_of matches.now)) }
{
    has_value(matches, "classes") && (has_table_words(matches) || has_value(matches, "file"))
}

/// Returns whether `explain` has code points, and also classes or a text.
fn has_codes_and_text(matches: &ArgMatches<'_>) -> bool
    ensures { result ≡ has_codes_and_text (rows_of (found_of matches.now)) }
{
    has_value(matches, "codes") && (has_value(matches, "classes") || has_value(matches, "file"))
}

/// Returns why the arguments of `explain`, with a row, make no request.
fn row_rejection(matches: &ArgMatches<'_>) -> NoRequest
    ensures { result ≡ row_rejection (rows_of (found_of matches.now)) }
{
    if has_text_words(matches) {
        NoRequest::RowAndText
    } else if has_value(matches, "kind") {
        NoRequest::RowWithoutFile
    } else {
        NoRequest::RowWithoutKind
    }
}

/// Returns why the arguments of `explain`, without a row, make no request.
fn text_rejection(matches: &ArgMatches<'_>) -> NoRequest
    ensures { result ≡ text_rejection (rows_of (found_of matches.now)) }
{
    if has_classes_and_text(matches) {
        NoRequest::ClassesAndText
    } else if has_codes_and_text(matches) {
        NoRequest::CodesAndText
    } else {
        NoRequest::NoText
    }
}

/// Returns why the arguments of `explain` make no request.
fn explain_rejection(matches: &ArgMatches<'_>) -> NoRequest
    ensures { result ≡ explain_rejection (rows_of (found_of matches.now)) }
{
    if has_two_tables(matches) {
        NoRequest::TwoTables(TableCommand::Explain)
    } else if has_value(matches, "row") {
        row_rejection(matches)
    } else if has_value(matches, "kind") {
        NoRequest::KindWithoutRow
    } else {
        text_rejection(matches)
    }
}

/// Returns why the arguments of `rows`, with a form, make no request.
fn form_rejection(matches: &ArgMatches<'_>) -> NoRequest
    ensures { result ≡ form_rejection (rows_of (found_of matches.now)) }
{
    if !has_value(matches, "length") {
        NoRequest::NoLength
    } else if is_over_alphabet(text_of(matches, "form")) {
        NoRequest::NoAlphabet
    } else {
        NoRequest::AlphabetAndForm
    }
}

/// Returns why the arguments of `rows` make no request.
fn rows_rejection(matches: &ArgMatches<'_>) -> NoRequest
    ensures { result ≡ rows_rejection (rows_of (found_of matches.now)) }
{
    if has_two_tables(matches) {
        NoRequest::TwoTables(TableCommand::Rows)
    } else if has_value(matches, "of") {
        NoRequest::TextAndForm
    } else if has_value(matches, "form") {
        form_rejection(matches)
    } else {
        NoRequest::NoForm
    }
}

/// Returns why the arguments of the subcommand of this name make no request. `judge` and `report` make none only if two
/// sources of tables are named, since `clap` requires the rest.
fn rejection_in_subcommand(name: &str, matches: &ArgMatches<'_>) -> NoRequest
    ensures { result ≡ rejection_in_subcommand name.now (rows_of (found_of matches.now)) }
{
    match name {
        "explain" => explain_rejection(matches),
        "judge" => NoRequest::TwoTables(TableCommand::Judge),
        "report" => NoRequest::TwoTables(TableCommand::Report),
        "rows" => rows_rejection(matches),
        _ => NoRequest::NoSubcommand,
    }
}

/// Returns why the given subcommand makes no request.
pub fn rejection_without_request(matches: &ArgMatches<'_>) -> NoRequest
    ensures { result ≡ rejection_without_request (subcommand_rows_of matches.now) }
{
    match matches.subcommand() {
        Some((name, inner)) => rejection_in_subcommand(name, inner),
        None => NoRequest::NoSubcommand,
    }
}
