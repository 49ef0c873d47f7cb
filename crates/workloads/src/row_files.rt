//! Test files as authors of engines use them: rows of hard texts are written with what the rules give. Then the files
//! are judged, or reported on with other limits, so that some rows are wrong.

use crate::digest::Digest;
use crate::inputs::{Inputs, MOST_DRAWS, no_new_input};
use bidtests::judge::Judge;
use bidtests::kind::{Kind, StoredKind};
use bidtests::verdict_line::print_verdict;
use report::print::print_report;
use report::report::Report;
use report::terms::Terms;
use rows::form::Form;
use rows::letter::Letter;
use rows::letters::{character_letters, class_letters};
use rows::print_random::print_random;
use rows::random::Random;
use std::alloc::Global;
use std::io;
use ucdfiles::tables::Tables;
use units::level::Direction;
use units::limits::Limits;
use units::slice_source::SliceSource;

/// The number of texts of a file.
const TEXTS: usize = 400;

/// The forms of hard texts. The last one is of characters only, since classes carry no brackets.
const FORMS: [Form; 6] = [
    Form::Nest,
    Form::Marks,
    Form::Numbers,
    Form::Isolates,
    Form::Separators,
    Form::Brackets,
];

const DIRECTIONS: [Direction; 3] = [Direction::Auto, Direction::Ltr, Direction::Rtl];

/// Returns the error for memory that was refused, or for what else went wrong, as a fault of a stream.
fn rejected() -> io::Error {
    io::ErrorKind::OutOfMemory.into()
}

/// Returns the letters of a form, of a kind.
fn letters_of(alloc: Global, kind: Kind<'_>, form: Form) -> io::Result<Vec<Letter>> {
    let letters = match kind {
        Kind::Classes => class_letters(alloc, form.classes()),
        Kind::Characters(tables) => character_letters(alloc, tables, form.characters()),
    };
    letters.map_err(|_| rejected())
}

/// Returns the form of the file with this number and kind.
fn form_of(number: usize, kind: Kind<'_>) -> Form {
    match kind {
        Kind::Classes => FORMS[number / 2 % 5],
        Kind::Characters(_) => FORMS[number / 2 % 6],
    }
}

/// Writes a file of this kind with texts of this form, and replaces what was there.
fn write_file(
    alloc: Global,
    kind: Kind<'_>,
    form: Form,
    seed: u64,
    file: &mut Vec<u8>,
) -> io::Result<()> {
    file.clear();
    let letters = letters_of(alloc, kind, form)?;
    let Ok(texts) = Random::new(&letters, 1, 48, seed, TEXTS) else {
        return Err(rejected());
    };
    print_random(alloc, file, kind, &texts, &DIRECTIONS).map_err(|_| rejected())
}

/// Writes the file with this number and kind, which differs from all earlier ones and is not empty. It replaces what
/// was in `file`.
fn write_new_file(
    alloc: Global,
    kind: Kind<'_>,
    number: usize,
    seed: u64,
    file: &mut Vec<u8>,
    files: &mut Inputs,
) -> io::Result<()> {
    let seed = seed.wrapping_mul(65_536).wrapping_add(number as u64);
    for draw in 0..MOST_DRAWS {
        let seed = seed.wrapping_add(draw << 48);
        write_file(alloc, kind, form_of(number, kind), seed, file)?;
        if !file.is_empty() && files.add(Digest::of_bytes(file))? {
            return Ok(());
        }
    }
    Err(no_new_input())
}

/// Judges a file in pieces, and adds the line of the verdict.
fn judge(alloc: Global, kind: Kind<'_>, file: &[u8], reported: &mut Vec<u8>) -> io::Result<()> {
    let kind = StoredKind::Borrowed(kind);
    let mut judge = Judge::new(alloc, kind, Limits::standard()).map_err(|_| rejected())?;
    for piece in file.chunks(4_096) {
        judge.feed(piece);
    }
    print_verdict(reported, &judge.finish())
}

/// Reports on a file with other limits, and adds the report.
fn report_on(alloc: Global, kind: Kind<'_>, file: &[u8], reported: &mut Vec<u8>) -> io::Result<()> {
    let limits = Limits::new(6, 3).map_err(|_| rejected())?;
    let kind = StoredKind::Borrowed(kind);
    let report = Report::new(alloc, kind, Terms::strict(limits)).map_err(|_| rejected())?;
    let mut source = SliceSource::new(file);
    match print_report(reported, report, &mut source, 20) {
        Ok(_) => Ok(()),
        Err(_) => Err(rejected()),
    }
}

/// Writes a file, and judges it or reports on it.
fn work_on(
    alloc: Global,
    tables: &Tables,
    number: usize,
    seed: u64,
    file: &mut Vec<u8>,
    files: &mut Inputs,
    digest: &mut Digest,
) -> io::Result<()> {
    let kind = if number % 2 == 0 {
        Kind::Characters(tables)
    } else {
        Kind::Classes
    };
    write_new_file(alloc, kind, number, seed, file, files)?;
    let mut reported = Vec::new(alloc);
    if number / 12 % 2 == 0 {
        judge(alloc, kind, file, &mut reported)?;
    } else {
        report_on(alloc, kind, file, &mut reported)?;
    }
    digest.add_bytes(file);
    digest.add_bytes(&reported);
    Ok(())
}

/// Judges or reports on so many files.
pub fn judge_files(alloc: Global, count: usize, seed: u64) -> io::Result<Digest> {
    let tables = standard::tables();
    let mut file = Vec::new(alloc);
    let mut files = Inputs::new(alloc);
    let mut digest = Digest::new();
    for number in 0..count {
        work_on(
            alloc,
            &tables,
            number,
            seed,
            &mut file,
            &mut files,
            &mut digest,
        )?;
    }
    Ok(digest)
}
