// The requests of `rows`.
ghost use Rattle.std.specs.Prelude.{◌≡◌, ◌≢◌, codes, false, IfSome, IfNone, None, Some, option_map};
ghost use Rattle.clap.specs.Matches.{found_of};
ghost use Rattle.clap.specs.Walk.{first_of, rows_of};
ghost use Rattle.command.specs.CommandLine.{AsksFor, AsksForLines, AsksForRows, FormIs, LettersAre, form_word};
ghost use Rattle.command.specs.CommandLine.{rows_kind};
ghost use Rattle.command.specs.Rejections.{has_form_words, has_two_tables, is_over_alphabet};
ghost use Rattle.requests.specs.declared.request.AskedLines.{AskedLines as AskedLinesOf};
ghost use Rattle.requests.specs.declared.request.AskedRows.{AskedRows as AskedRowsOf};
ghost use Rattle.requests.specs.declared.request.Request.{Request as RequestOf};
ghost use Rattle.requests.specs.declared.request.RowLetters.{RowLetters as LettersOf};
ghost use Rattle.rows.specs.declared.form.Form.{Form as HardForm};

use crate::values::{has_two_tables, has_value, kind_in, number_in, tables_in, text_of};
use clap::ArgMatches;
use requests::request::{AskedLines, AskedRows, FileKind, Request, RowLetters, RowsForm};
use rows::form::Form;

/// Returns which texts the rows have: all, or some drawn texts.
fn form_in(matches: &ArgMatches<'_>) -> RowsForm
    ensures { FormIs (rows_of (found_of matches.now)) result }
{
    match text_of(matches, "form") {
        Some("exhaustive") => RowsForm::Exhaustive,
        _ => RowsForm::Random {
            seed: number_in(matches, "seed", 0),
            count: number_in(matches, "count", 1000),
        },
    }
}

/// Returns whether this form takes an alphabet.
pub fn is_over_alphabet(form: Option<&str>) -> bool
    ensures { result ≡ is_over_alphabet (option_map (λ word. word.now) form.entry) }
{
    match form {
        Some("exhaustive" | "random") => true,
        _ => false,
    }
}

/// Returns the form of hard texts with this name.
fn hard_form(word: &str) -> Option<Form>
    ensures some { IfSome result (λ form. word.now ≡ form_word form) }
    ensures none { IfNone result ((form : HardForm) → word.now ≢ form_word form) }
{
    match word {
        "nest" => Some(Form::Nest),
        "brackets" => Some(Form::Brackets),
        "marks" => Some(Form::Marks),
        "numbers" => Some(Form::Numbers),
        "isolates" => Some(Form::Isolates),
        "separators" => Some(Form::Separators),
        _ => None,
    }
}

/// Returns the letters of the rows' texts.
fn letters_in<'a>(matches: &ArgMatches<'a>) -> Option<RowLetters<'a>>
    ensures some { IfSome result (LettersAre (rows_of (found_of matches.now))) }
    ensures none { IfNone result ((letters : LettersOf) → ¬ (LettersAre (rows_of (found_of matches.now)) letters)) }
{
    let form = text_of(matches, "form");
    match text_of(matches, "alphabet") {
        Some(alphabet) if is_over_alphabet(form) => Some(RowLetters::Alphabet(alphabet)),
        Some(_) => None,
        None => Some(RowLetters::OfForm(hard_form(form?)?)),
    }
}

/// Returns the kind of the file that the rows form, or `default` if none is given.
fn rows_kind_in(matches: &ArgMatches<'_>, default: FileKind) -> FileKind
    ensures { result ≡ rows_kind default (rows_of (found_of matches.now)) }
{
    kind_in(matches).unwrap_or(default)
}

/// Returns the rows that `rows` is to print, if a form is given.
fn form_rows_in<'a>(matches: &ArgMatches<'a>) -> Option<AskedRows<'a>>
    requires of { first_of (codes "of") (rows_of (found_of matches.now)) ≡ None }
    requires tables { has_two_tables (rows_of (found_of matches.now)) ≡ false }
    ensures some { IfSome result (AsksForRows (rows_of (found_of matches.now))) }
    ensures none { IfNone result ((asked : AskedRowsOf) → ¬ (AsksForRows (rows_of (found_of matches.now)) asked)) }
{
    Some(AskedRows {
        kind: rows_kind_in(matches, FileKind::Classes),
        tables: tables_in(matches),
        letters: letters_in(matches)?,
        form: form_in(matches),
        lengths: text_of(matches, "length")?,
        directions: text_of(matches, "directions")?,
    })
}

/// Returns whether `rows` has an argument that determines the texts of a form.
fn has_form_words(matches: &ArgMatches<'_>) -> bool
    ensures { result ≡ has_form_words (rows_of (found_of matches.now)) }
{
    has_value(matches, "form")
        || has_value(matches, "alphabet")
        || has_value(matches, "length")
        || has_value(matches, "seed")
        || has_value(matches, "count")
}

/// Returns the text whose lines `rows` is to print.
fn text_rows_in<'a>(matches: &ArgMatches<'a>, file: &'a str) -> Option<AskedLines<'a>>
    requires of { first_of (codes "of") (rows_of (found_of matches.now)) ≡ Some file.now }
    requires tables { has_two_tables (rows_of (found_of matches.now)) ≡ false }
    ensures some { IfSome result (AsksForLines (rows_of (found_of matches.now))) }
    ensures none { IfNone result ((asked : AskedLinesOf) → ¬ (AsksForLines (rows_of (found_of matches.now)) asked)) }
{
    if has_form_words(matches) {
        return None;
    }
    Some(AskedLines {
        kind: rows_kind_in(matches, FileKind::Characters),
        tables: tables_in(matches),
        file,
        directions: text_of(matches, "directions")?,
    })
}

/// Returns the request of `rows`: the lines of a text, or rows of a form.
pub fn rows_in<'a>(matches: &ArgMatches<'a>) -> Option<Request<'a>>
    ensures some { IfSome result (AsksFor (codes "rows") (rows_of (found_of matches.now))) }
    ensures none { IfNone result ((request : RequestOf)
        → ¬ (AsksFor (codes "rows") (rows_of (found_of matches.now)) request)) }
{
    if has_two_tables(matches) {
        return None;
    }
    match text_of(matches, "of") {
        Some(file) => Some(Request::RowsOf(text_rows_in(matches, file)?)),
        None => Some(Request::Rows(form_rows_in(matches)?)),
    }
}
