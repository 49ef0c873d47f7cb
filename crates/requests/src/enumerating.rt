// Prints requested rows: texts of some lengths over some letters, as a conformance file.
ghost use Rattle.std.specs.Prelude.{◌≡◌, [], ◌∷◌, Some, IfErr, IfOk, OnOk};
ghost use Rattle.std.specs.List.{All};
ghost use Rattle.bidtests.specs.declared.kind.Kind.TheVariants as file;
ghost use Rattle.rows.specs.Letters.{IsLetterOf};
ghost use Rattle.requests.specs.DirectionWords.{SaysDirections};
ghost use Rattle.requests.specs.RowsPrinted.{HasPrintedRows, HasPrintedTexts, chars_asked, letters_asked, texts_over};
ghost use Rattle.requests.specs.LengthWords.{lengths_named};
ghost use Rattle.requests.specs.Parts.{FailsIn, IsFirstFault, MemoryLeaves, alphabet_parts, making_part, rows_parts};

use crate::directions::directions_in;
use crate::fault::Fault;
use crate::files::Files;
use crate::items::{ClassNames, CodePoints, read_all};
use crate::lengths::{Lengths, lengths_in};
use crate::request::{AskedRows, FileKind, RowLetters, RowsForm};
use crate::table_source::tables_by;
use bidtests::kind::Kind;
use rows::exhaustive::Exhaustive;
use rows::letter::Letter;
use rows::letters::{character_letters, class_letters};
use rows::print::print_exhaustive;
use rows::print_random::print_random;
use rows::random::Random;
use std::alloc::Global;
use std::io::Write;
use units::level::Direction;

/// The lengths of the texts, and the directions of each text.
#[derive(Clone, Copy)]
struct RowOptions<'d> {
    lengths: Lengths,
    directions: &'d [Direction],
}

/// Prints the texts of this form over the given letters, with these options.
fn print_form<'a, W: Write>(
    alloc: Global,
    kind: Kind<'_>,
    form: RowsForm,
    letters: &[Letter],
    options: RowOptions<'_>,
    out: &mut W,
) -> Result<(), Fault<'a>>
    requires { All (IsLetterOf kind) letters.now }
    ensures printed { OnOk result (HasPrintedTexts kind.entry form options.entry.directions.now
        (texts_over letters.now options.entry.lengths.least options.entry.lengths.greatest)
        (W.contents out.old) (W.contents out.new)) }
    ensures fault { IfErr result (FailsIn (making_part form
        (texts_over letters.now options.entry.lengths.least options.entry.lengths.greatest) ∷ [])
        (W.contents out.old) (W.contents out.new)) }
    ensures memory { IfErr result (MemoryLeaves (W.contents out.old) (W.contents out.new)) }
{
    let Lengths { least, greatest } = options.lengths;
    match form {
        RowsForm::Exhaustive => {
            let texts = match Exhaustive::new(letters, least, greatest) {
                Ok(texts) => texts,
                Err(fault) => return Err(Fault::NoRows(fault)),
            };
            print_exhaustive(alloc, out, kind, &texts, options.directions)?;
        }
        RowsForm::Random { seed, count } => {
            let texts = match Random::new(letters, least, greatest, seed, count as usize) {
                Ok(texts) => texts,
                Err(fault) => return Err(Fault::NoRows(fault)),
            };
            print_random(alloc, out, kind, &texts, options.directions)?;
        }
    }
    Ok(())
}

/// Returns the requested letters of rows of classes. Fails at the first name that is not a class, or if an allocation
/// fails.
fn letters_of_classes<'a>(alloc: Global, letters: RowLetters<'a>) -> Result<Vec<Letter>, Fault<'a>>
    ensures letters { IfOk result (λ made. letters_asked file.Classes letters.entry ≡ Some made.items) }
    ensures kind { IfOk result (λ made. All (IsLetterOf file.Classes) made.items) }
    ensures fault { IfErr result (IsFirstFault (alphabet_parts FileKind.Classes letters.entry)) }
{
    match letters {
        RowLetters::Alphabet(names) => {
            let classes = read_all(alloc, &ClassNames, names)?;
            Ok(class_letters(alloc, &classes)?)
        }
        RowLetters::OfForm(form) => Ok(class_letters(alloc, form.classes())?),
    }
}

/// Prints the requested rows of characters, after it has read their tables. `characters` and `options` are those of the
/// request.
fn print_of_characters<'a, F: Files, W: Write>(
    alloc: Global,
    asked: AskedRows<'a>,
    characters: &[char],
    options: RowOptions<'_>,
    files: &F,
    out: &mut W,
) -> Result<(), Fault<'a>>
    requires kind { asked.kind ≡ FileKind.Characters }
    requires characters { chars_asked asked.letters ≡ Some characters.now }
    requires lengths { lengths_named asked.lengths.now ≡ Some (options.lengths.least, options.lengths.greatest) }
    requires directions { SaysDirections asked.directions.now options.directions.now }
    ensures printed { OnOk result
        (HasPrintedRows (F.facts files.now) asked.entry (W.contents out.old) (W.contents out.new)) }
    ensures fault { IfErr result
        (FailsIn (rows_parts (F.facts files.now) asked.entry) (W.contents out.old) (W.contents out.new)) }
    ensures memory { IfErr result (MemoryLeaves (W.contents out.old) (W.contents out.new)) }
{
    let tables = tables_by(alloc, files, asked.tables)?;
    let letters = character_letters(alloc, &tables, characters)?;
    print_form(
        alloc,
        Kind::Characters(&tables),
        asked.form,
        &letters,
        options,
        out,
    )
}

/// Prints the requested rows, with the results of the rules. Errors are checked in this order: the lengths, the
/// directions, the first item of the alphabet that is not a class or not a code point, the tables (as in `tables_by`),
/// and whether the texts can be enumerated or drawn. Also fails if an allocation or a write fails. For rows of classes
/// no tables are read.
pub fn print_rows<'a, F: Files, W: Write>(
    alloc: Global,
    asked: AskedRows<'a>,
    files: &F,
    out: &mut W,
) -> Result<(), Fault<'a>>
    ensures printed { OnOk result
        (HasPrintedRows (F.facts files.now) asked.entry (W.contents out.old) (W.contents out.new)) }
    ensures fault { IfErr result
        (FailsIn (rows_parts (F.facts files.now) asked.entry) (W.contents out.old) (W.contents out.new)) }
    ensures memory { IfErr result (MemoryLeaves (W.contents out.old) (W.contents out.new)) }
{
    let lengths = lengths_in(asked.lengths)?;
    let directions = directions_in(alloc, asked.directions)?;
    let options = RowOptions {
        lengths,
        directions: &directions,
    };
    match asked.kind {
        FileKind::Classes => {
            let letters = letters_of_classes(alloc, asked.letters)?;
            print_form(alloc, Kind::Classes, asked.form, &letters, options, out)
        }
        FileKind::Characters => match asked.letters {
            RowLetters::Alphabet(codes) => {
                let characters = read_all(alloc, &CodePoints, codes)?;
                print_of_characters(alloc, asked, &characters, options, files, out)
            }
            RowLetters::OfForm(form) => {
                let characters = form.characters();
                print_of_characters(alloc, asked, characters, options, files, out)
            }
        },
    }
}
