// Reads the text of FILE.
ghost use Rattle.std.specs.Prelude.{◌≤◌, length, IfOk, IfErr};
ghost use Rattle.units.specs.Layout.{longest_text};
ghost use Rattle.requests.specs.Printed.{HoldsText, most_text_bytes};
ghost use Rattle.requests.specs.ReadFiles.{origin_of};
ghost use Rattle.requests.specs.Parts.{EndsFile, IsFirstFault, text_parts};

use crate::fault::Fault;
use crate::files::Files;
use crate::opening::{MOST_TEXT_BYTES, open};
use printing::place::TextPlace;
use printing::written::Written;
use std::alloc::Global;
use units::source::ByteSource;

/// Returns all bytes of FILE.
fn bytes_in_file<'a, F: Files>(
    alloc: Global,
    file: &'a str,
    files: &F,
) -> Result<Vec<u8>, Fault<'a>>
    ensures begins { IfOk result (λ bytes.
        (F.facts files.now).Begins (origin_of file.now) most_text_bytes bytes.items) }
    ensures bytes { IfOk result (λ bytes.
        (F.facts files.now).Holds (origin_of file.now) most_text_bytes bytes.items) }
    ensures bound { IfOk result (λ bytes. length bytes.items ≤ most_text_bytes) }
    ensures fault { IfErr result (EndsFile (F.facts files.now) most_text_bytes file.now) }
{
    let mut source = open(alloc, files, file, MOST_TEXT_BYTES)?;
    let mut bytes = Vec::new(alloc);
    let mut piece = [0; 4096];
    loop {
        match source.read(&mut piece) {
            Err(_) => {
                let unread = files.unread(&source);
                return Err(Fault::CannotRead {
                    name: file,
                    folder: None,
                    most: MOST_TEXT_BYTES,
                    unread,
                    written: Written::Whole,
                });
            }
            Ok(0) => return Ok(bytes),
            Ok(n) => bytes.extend_from_slice(&piece[..n])?,
        }
    }
}

/// Returns the text of FILE, which is UTF-8.
pub fn text_in_file<'a, F: Files>(
    alloc: Global,
    file: &'a str,
    files: &F,
) -> Result<Vec<char>, Fault<'a>>
    ensures text { IfOk result (λ text. HoldsText (F.facts files.now) file.now text.items) }
    ensures bound { IfOk result (λ text. length text.items ≤ longest_text) }
    ensures fault { IfErr result
        (IsFirstFault (text_parts (F.facts files.now) file.now)) }
{
    let bytes = bytes_in_file(alloc, file, files)?;
    match str::from_utf8(&bytes) {
        Ok(text) => Ok(text.chars().collect(alloc)?),
        Err(_) => Err(Fault::NotUtf8 {
            name: file,
            place: TextPlace::after_utf8(&bytes),
            written: Written::Whole,
        }),
    }
}
