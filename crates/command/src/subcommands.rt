// The requests of the subcommands.
ghost use Rattle.std.specs.Prelude.{◌≡◌, codes, IfSome, IfNone};
ghost use Rattle.clap.specs.Matches.{found_of};
ghost use Rattle.clap.specs.Simple.{subcommand_rows_of};
ghost use Rattle.clap.specs.Walk.{rows_of};
ghost use Rattle.command.specs.CommandLine.{AsksFor, IsAskedBy, leniency_in};
ghost use Rattle.requests.specs.declared.request.Request.{Request as RequestOf};

use crate::asked_rows::rows_in;
use crate::explaining::explain_in;
use crate::values::{
    columns_in, direction_in, has_flag, has_two_tables, kind_in, named_tables, number_in,
    tables_in, text_of,
};
use clap::ArgMatches;
use report::terms::{Leniency, Parts, Positions};
use requests::request::{Print, ReportOptions, Request};

fn levels_in<'a>(matches: &ArgMatches<'a>) -> Option<Request<'a>>
    ensures some { IfSome result (AsksFor (codes "levels") (rows_of (found_of matches.now))) }
    ensures none { IfNone result ((request : RequestOf)
        → ¬ (AsksFor (codes "levels") (rows_of (found_of matches.now)) request)) }
{
    Some(Request::Text {
        tables: tables_in(matches),
        direction: direction_in(matches),
        file: text_of(matches, "file")?,
        print: Print::Levels,
    })
}

fn reorder_in<'a>(matches: &ArgMatches<'a>) -> Option<Request<'a>>
    ensures some { IfSome result (AsksFor (codes "reorder") (rows_of (found_of matches.now))) }
    ensures none { IfNone result ((request : RequestOf)
        → ¬ (AsksFor (codes "reorder") (rows_of (found_of matches.now)) request)) }
{
    let columns = columns_in(matches);
    Some(Request::Text {
        tables: tables_in(matches),
        direction: direction_in(matches),
        file: text_of(matches, "file")?,
        print: Print::Reorder { columns },
    })
}

fn judge_in<'a>(matches: &ArgMatches<'a>) -> Option<Request<'a>>
    ensures some { IfSome result (AsksFor (codes "judge") (rows_of (found_of matches.now))) }
    ensures none { IfNone result ((request : RequestOf)
        → ¬ (AsksFor (codes "judge") (rows_of (found_of matches.now)) request)) }
{
    if has_two_tables(matches) {
        return None;
    }
    Some(Request::Judge {
        kind: kind_in(matches)?,
        tables: named_tables(matches),
        file: text_of(matches, "file")?,
    })
}

/// Returns which expected results `report` compares.
fn leniency_in(matches: &ArgMatches<'_>) -> Leniency
    ensures { result ≡ leniency_in (rows_of (found_of matches.now)) }
{
    Leniency {
        parts: if has_flag(matches, "order") {
            Parts::OrderAlone
        } else {
            Parts::All
        },
        positions: if has_flag(matches, "shown") {
            Positions::Shown
        } else {
            Positions::All
        },
    }
}

fn report_in<'a>(matches: &ArgMatches<'a>) -> Option<Request<'a>>
    ensures some { IfSome result (AsksFor (codes "report") (rows_of (found_of matches.now))) }
    ensures none { IfNone result ((request : RequestOf)
        → ¬ (AsksFor (codes "report") (rows_of (found_of matches.now)) request)) }
{
    if has_two_tables(matches) {
        return None;
    }
    let options = ReportOptions {
        most: number_in(matches, "most", 20),
        leniency: leniency_in(matches),
    };
    Some(Request::Report {
        kind: kind_in(matches)?,
        tables: named_tables(matches),
        file: text_of(matches, "file")?,
        options,
    })
}

/// Returns the request of the subcommand of this name.
fn request_in<'a>(name: &str, matches: &ArgMatches<'a>) -> Option<Request<'a>>
    ensures some { IfSome result (AsksFor name.now (rows_of (found_of matches.now))) }
    ensures none { IfNone result ((request : RequestOf)
        → ¬ (AsksFor name.now (rows_of (found_of matches.now)) request)) }
{
    match name {
        "levels" => levels_in(matches),
        "reorder" => reorder_in(matches),
        "explain" => explain_in(matches),
        "judge" => judge_in(matches),
        "report" => report_in(matches),
        "rows" => rows_in(matches),
        _ => None,
    }
}

/// Returns the request of the given subcommand.
pub fn request_by<'a>(matches: &ArgMatches<'a>) -> Option<Request<'a>>
    ensures some { IfSome result (IsAskedBy (subcommand_rows_of matches.now)) }
    ensures none { IfNone result ((request : RequestOf)
        → ¬ (IsAskedBy (subcommand_rows_of matches.now) request)) }
{
    let (name, inner) = matches.subcommand()?;
    request_in(name, inner)
}
