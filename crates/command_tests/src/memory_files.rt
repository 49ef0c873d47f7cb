//! Files and standard input in memory, whose reads may fail after some of the bytes.
ghost use Rattle.std.specs.Prelude.{◌≡◌};
ghost use Rattle.units.specs.Provides.{unread_of};
ghost use Rattle.command_tests.specs.MemoryFiles.{IsOpenedOver, begins-gave, fails-gave, memory_facts, stored_at, whole-gave};

use requests::files::{Files, OpenFault};
use std::alloc::Global;
use std::marker::Model;
use ucdfiles::small::{BRACKETS, CLASSES, MIRRORS};
use units::reader_source::ReaderSource;
use units::unread::Unread;

/// A file in memory. A read past its first `readable` bytes fails, since the file is then too large.
#[derive(Clone, Copy)]
pub struct MemoryFile<'a> {
    pub name: &'a str,
    pub bytes: &'a [u8],
    pub readable: u64,
}

/// Returns a file that can be read to its end.
pub fn whole<'a>(name: &'a str, bytes: &'a [u8]) -> MemoryFile<'a>
    ensures { result ≡ record { name = name.entry; bytes = bytes.entry; readable = u64.MAX } }
{
    MemoryFile {
        name,
        bytes,
        readable: u64::MAX,
    }
}

/// Files in memory, and standard input. Contracts see their names, their bytes, and how many bytes can be read.
#[derive(Drop)]
pub struct MemoryFiles<'a> {
    files: &'a [MemoryFile<'a>],
    input: Option<MemoryFile<'a>>,
}

impl<'a> Model for MemoryFiles<'a> {
    ghost use Rattle.std.specs.Prelude.{map, option_map};
    ghost use Rattle.command_tests.specs.MemoryFiles.{Stored, stored_file};

    ghost Value = { Stored };

    ghost view = { λ t. record {
      files = map (λ file. stored_file file.name file.bytes file.readable) t.files.now;
      input = option_map (λ file. stored_file file.name file.bytes file.readable) t.input;
    } };
}

impl<'a> MemoryFiles<'a> {
    ghost use Rattle.std.specs.Prelude.{◌≡◌, None, Some, map};
    ghost use Rattle.command_tests.specs.MemoryFiles.{stored_file};

    /// Creates files without standard input. If two have the same name, the first is opened.
    pub fn new(files: &'a [MemoryFile<'a>]) -> Self
        ensures { result ≡ record {
          files = map (λ file. stored_file file.name file.bytes file.readable) files.now;
          input = None;
        } }
    {
        MemoryFiles { files, input: None }
    }

    /// Returns the same files, with the contents of this file as standard input.
    pub fn with_input(self, input: MemoryFile<'a>) -> Self
        ensures { result ≡ record self.entry {
          input =
              Some (stored_file input.entry.name input.entry.bytes input.entry.readable);
        } }
    {
        MemoryFiles {
            files: self.files,
            input: Some(input),
        }
    }
}

impl<'a> Files for MemoryFiles<'a> {
    type Source = ReaderSource<&'a [u8]>;

    ghost opens = { λ files origin most source. IsOpenedOver (stored_at files origin) most source };

    ghost facts = { memory_facts };

    ghost why = { λ source. unread_of source.state };

    ghost gave = { λ files origin most opened now bytes. begins-gave (stored_at files origin) most opened now bytes };

    ghost gave_all = { λ files origin most opened now bytes.
        whole-gave (stored_at files origin) most opened now bytes };

    ghost gave_up = { λ files origin most opened now bytes. fails-gave (stored_at files origin) most opened now bytes };

    fn file(&self, _alloc: Global, name: &str, most: u64) -> Result<Self::Source, OpenFault> {
        match self.files.iter().find(|file| file.name == name) {
            Some(file) => Ok(ReaderSource::new(file.bytes, most.min(file.readable))),
            None => Err(OpenFault::Cannot(Unread::Missing)),
        }
    }

    fn input(&self, _alloc: Global, most: u64) -> Result<Self::Source, OpenFault> {
        match self.input {
            Some(file) => Ok(ReaderSource::new(file.bytes, most.min(file.readable))),
            None => Err(OpenFault::Cannot(Unread::Missing)),
        }
    }

    fn unread(&self, source: &Self::Source) -> Unread {
        source.unread()
    }
}

/// Returns the tables of the folder `t`, and a file `FILE`.
pub fn tables_and<'a>(bytes: &'a [u8]) -> [MemoryFile<'a>; 4] {
    [
        whole("t/DerivedBidiClass.txt", CLASSES),
        whole("t/BidiBrackets.txt", BRACKETS),
        whole("t/BidiMirroring.txt", MIRRORS),
        whole("FILE", bytes),
    ]
}
