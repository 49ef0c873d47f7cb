// The values of a subcommand's arguments.
ghost use Rattle.std.specs.Prelude.{◌≡◌, codes, false, is_some, option_map};
ghost use Rattle.clap.specs.Matches.{found_of};
ghost use Rattle.clap.specs.Walk.{first_of, one_of, rows_of};
ghost use Rattle.command.specs.CommandLine.{ColumnsAre, LineIs, NamesTables, NumberIs, direction_named, folder_of};
ghost use Rattle.command.specs.CommandLine.{kind_named};
ghost use Rattle.command.specs.Rejections.{has_table_words, has_two_tables, is_given};

use clap::ArgMatches;
use requests::request::{FileKind, TableSource};
use std::num::{NonZeroU16, NonZeroU64};
use units::level::Direction;

/// Returns the value of an argument, if it has one.
pub fn text_of<'a>(matches: &ArgMatches<'a>, id: &str) -> Option<&'a str>
    ensures { option_map (λ text. text.now) result ≡ first_of id.now (rows_of (found_of matches.now)) }
{
    matches.get_str(id)
}

/// Returns whether an argument has a value.
pub fn has_value(matches: &ArgMatches<'_>, id: &str) -> bool
    ensures { result ≡ is_some (first_of id.now (rows_of (found_of matches.now))) }
{
    text_of(matches, id).is_some()
}

/// Returns whether a flag is given.
pub fn has_flag(matches: &ArgMatches<'_>, id: &str) -> bool
    ensures { result ≡ is_given (first_of id.now (rows_of (found_of matches.now))) }
{
    match text_of(matches, id) {
        Some("true") => true,
        _ => false,
    }
}

/// Returns the number of 64 bits in an argument, or `default` if the argument is not given.
pub fn number_in(matches: &ArgMatches<'_>, id: &str, default: u64) -> u64
    ensures { NumberIs default (one_of id.now (rows_of (found_of matches.now))) result }
{
    matches.get_one::<u64>(id).unwrap_or(default)
}

/// Returns the number of columns if it is given.
pub fn columns_in(matches: &ArgMatches<'_>) -> Option<NonZeroU16>
    ensures { ColumnsAre (one_of (codes "columns") (rows_of (found_of matches.now))) result }
{
    matches.get_one::<NonZeroU16>("columns")
}

/// Returns the line whose row is to be explained, or the first line if none is given.
pub fn line_in(matches: &ArgMatches<'_>) -> NonZeroU64
    ensures { LineIs (one_of (codes "row") (rows_of (found_of matches.now))) result }
{
    matches
        .get_one::<NonZeroU64>("row")
        .unwrap_or(NonZeroU64::MIN)
}

/// Returns the direction of each paragraph.
pub fn direction_in(matches: &ArgMatches<'_>) -> Direction
    ensures { result ≡ direction_named (first_of (codes "direction") (rows_of (found_of matches.now))) }
{
    match text_of(matches, "direction") {
        Some("ltr") => Direction::Ltr,
        Some("rtl") => Direction::Rtl,
        Some("auto-rtl") => Direction::AutoRtl,
        _ => Direction::Auto,
    }
}

/// Returns the kind of the file if it is given.
pub fn kind_in(matches: &ArgMatches<'_>) -> Option<FileKind>
    ensures { result ≡ kind_named (first_of (codes "kind") (rows_of (found_of matches.now))) }
{
    match text_of(matches, "kind") {
        Some("classes") => Some(FileKind::Classes),
        Some("characters") => Some(FileKind::Characters),
        _ => None,
    }
}

/// Returns the source of a text's tables: the folder if one is named, otherwise the built-in facts.
pub fn tables_in<'a>(matches: &ArgMatches<'a>) -> TableSource<'a>
    ensures { folder_of result ≡ first_of (codes "tables") (rows_of (found_of matches.now)) }
{
    match text_of(matches, "tables") {
        Some(folder) => TableSource::Folder(folder),
        None => TableSource::BuiltIn,
    }
}

/// Returns whether `--tables` or `--built-in` is given.
pub fn has_table_words(matches: &ArgMatches<'_>) -> bool
    ensures { result ≡ has_table_words (rows_of (found_of matches.now)) }
{
    has_value(matches, "tables") || has_flag(matches, "built-in")
}

/// Returns whether both `--tables` and `--built-in` are given.
pub fn has_two_tables(matches: &ArgMatches<'_>) -> bool
    ensures { result ≡ has_two_tables (rows_of (found_of matches.now)) }
{
    has_value(matches, "tables") && has_flag(matches, "built-in")
}

/// Returns the tables of `--tables` or `--built-in` if one of them is given.
pub fn named_tables<'a>(matches: &ArgMatches<'a>) -> Option<TableSource<'a>>
    requires { has_two_tables (rows_of (found_of matches.now)) ≡ false }
    ensures { NamesTables (rows_of (found_of matches.now)) result }
{
    match text_of(matches, "tables") {
        Some(folder) => Some(TableSource::Folder(folder)),
        None if has_flag(matches, "built-in") => Some(TableSource::BuiltIn),
        None => None,
    }
}
