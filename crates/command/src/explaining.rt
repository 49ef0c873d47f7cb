// The requests of `explain`.
ghost use Rattle.std.specs.Prelude.{◌≡◌, codes, false, IfSome, IfNone};
ghost use Rattle.clap.specs.Matches.{found_of};
ghost use Rattle.clap.specs.Walk.{rows_of};
ghost use Rattle.command.specs.CommandLine.{AsksFor, AsksToExplainRow};
ghost use Rattle.command.specs.Rejections.{has_row_words, has_text_words, has_two_tables};
ghost use Rattle.requests.specs.declared.request.Request.{Request as RequestOf};
ghost use Rattle.requests.specs.declared.request.WantedRow.{WantedRow as WantedRowSpec};

use crate::values::{
    direction_in, has_table_words, has_two_tables, has_value, kind_in, line_in, named_tables,
    tables_in, text_of,
};
use clap::ArgMatches;
use requests::request::{Print, Request, WantedRow};

/// Returns whether `explain` has the argument `--row` or `--kind`. Only a row has a kind.
fn has_row_words(matches: &ArgMatches<'_>) -> bool
    ensures { result ≡ has_row_words (rows_of (found_of matches.now)) }
{
    has_value(matches, "row") || has_value(matches, "kind")
}

/// Returns whether `explain` has the argument `--classes`, `--codes` or `--direction`. None of them can be used with a
/// row.
pub fn has_text_words(matches: &ArgMatches<'_>) -> bool
    ensures { result ≡ has_text_words (rows_of (found_of matches.now)) }
{
    has_value(matches, "classes") || has_value(matches, "codes") || has_value(matches, "direction")
}

/// Returns the row that `explain` is to explain.
fn explain_row_in<'a>(matches: &ArgMatches<'a>) -> Option<WantedRow<'a>>
    requires { has_two_tables (rows_of (found_of matches.now)) ≡ false }
    ensures some { IfSome result (AsksToExplainRow (rows_of (found_of matches.now))) }
    ensures none { IfNone result ((wanted : WantedRowSpec)
        → ¬ (AsksToExplainRow (rows_of (found_of matches.now)) wanted)) }
{
    if has_text_words(matches) || !has_value(matches, "row") {
        return None;
    }
    Some(WantedRow {
        kind: kind_in(matches)?,
        tables: named_tables(matches),
        line: line_in(matches),
        file: text_of(matches, "file")?,
    })
}

/// Returns the request of `explain` without a row: a text or code points, with tables if they are named, or classes.
fn explain_text_in<'a>(matches: &ArgMatches<'a>) -> Option<Request<'a>>
    requires row { has_row_words (rows_of (found_of matches.now)) ≡ false }
    requires tables { has_two_tables (rows_of (found_of matches.now)) ≡ false }
    ensures some { IfSome result (AsksFor (codes "explain") (rows_of (found_of matches.now))) }
    ensures none { IfNone result ((request : RequestOf)
        → ¬ (AsksFor (codes "explain") (rows_of (found_of matches.now)) request)) }
{
    let direction = direction_in(matches);
    match (
        has_table_words(matches),
        text_of(matches, "classes"),
        text_of(matches, "codes"),
        text_of(matches, "file"),
    ) {
        (_, None, None, Some(file)) => Some(Request::Text {
            tables: tables_in(matches),
            direction,
            file,
            print: Print::Explained,
        }),
        (_, None, Some(codes), None) => Some(Request::ExplainCodes {
            codes,
            tables: tables_in(matches),
            direction,
        }),
        (false, Some(classes), None, None) => Some(Request::ExplainClasses { classes, direction }),
        _ => None,
    }
}

/// Returns the request of `explain`: a row, a text, code points or classes.
pub fn explain_in<'a>(matches: &ArgMatches<'a>) -> Option<Request<'a>>
    ensures some { IfSome result (AsksFor (codes "explain") (rows_of (found_of matches.now))) }
    ensures none { IfNone result ((request : RequestOf)
        → ¬ (AsksFor (codes "explain") (rows_of (found_of matches.now)) request)) }
{
    if has_two_tables(matches) {
        None
    } else if has_row_words(matches) {
        Some(Request::ExplainRow(explain_row_in(matches)?))
    } else {
        explain_text_in(matches)
    }
}
