// Reads the arguments of a command line.
ghost use Rattle.std.specs.Prelude.{◌≡◌, IfOk, IfErr};
ghost use Rattle.clap.specs.Matches.{found_of};
ghost use Rattle.clap.specs.Simple.{subcommand_rows_of};
ghost use Rattle.clap.specs.Walk.{rows_of, texts};
ghost use Rattle.command.specs.CommandLine.{HasMet, IsInvokedBy, IsReadAs, IsRejectedByClap, MakesNone, detail_by};
ghost use Rattle.command.specs.CommandLine.{detail_in};

use crate::command_line::bidi_command;
use crate::invocation::Invocation;
use crate::rejection::{NoRequest, WordsFault};
use crate::rejections::rejection_without_request;
use crate::subcommands::request_by;
use crate::values::has_flag;
use clap::{ArgMatches, Error};
use requests::fault::Detail;
use std::alloc::Global;

/// Parses the arguments. Fails with the error of `clap` that rejects them.
fn matches_of<'a>(alloc: Global, words: &'a [&'a str]) -> Result<ArgMatches<'a>, Error>
    ensures met { IfOk result (λ matches. HasMet (texts words.now) (subcommand_rows_of matches)) }
    ensures rejected { IfErr result (IsRejectedByClap (texts words.now)) }
{
    let mut command = bidi_command(alloc)?;
    command.try_get_matches_from_mut(words)
}

/// Returns the detail in which a fault is reported, from the arguments of a subcommand.
fn detail_in(matches: &ArgMatches<'_>) -> Detail
    ensures { result ≡ detail_in (rows_of (found_of matches.now)) }
{
    if has_flag(matches, "verbose") {
        Detail::Verbose
    } else {
        Detail::Brief
    }
}

/// Returns the detail in which a fault is reported, for the given subcommand.
fn detail_by(matches: &ArgMatches<'_>) -> Detail
    ensures { result ≡ detail_by (subcommand_rows_of matches.now) }
{
    match matches.subcommand() {
        Some((_, inner)) => detail_in(inner),
        None => Detail::Brief,
    }
}

/// Returns the request of the given subcommand and its detail, or why it makes no request.
fn invocation_or_rejection<'a>(matches: &ArgMatches<'a>) -> Result<Invocation<'a>, NoRequest>
    ensures invocation { IfOk result (IsInvokedBy (subcommand_rows_of matches.now)) }
    ensures rejection { IfErr result (MakesNone (subcommand_rows_of matches.now)) }
{
    match request_by(matches) {
        Some(request) => Ok(Invocation {
            request,
            detail: detail_by(matches),
        }),
        None => Err(rejection_without_request(matches)),
    }
}

/// Reads the arguments of a command line. The first is the program's name. Arguments that are rejected, or that ask for
/// help or the version, are an error with the text for the user.
pub fn invocation_of<'a>(alloc: Global, words: &'a [&'a str]) -> Result<Invocation<'a>, WordsFault>
    ensures { IsReadAs (texts words.now) result }
{
    let matches = matches_of(alloc, words)?;
    Ok(invocation_or_rejection(&matches)?)
}
