// The tables of a folder.
ghost use Rattle.std.specs.Prelude.{◌≡◌, ℕ, List, IfOk, IfErr};
ghost use Rattle.units.specs.declared.unread.Unread.{Unread};
ghost use Rattle.ucdfiles.specs.ClassFile.{StatesClasses};
ghost use Rattle.ucdfiles.specs.PairFiles.{bracket_fault, mirror_fault, StatesBrackets, StatesMirrors};
ghost use Rattle.ucdfiles.specs.Tables.{class_by, bracket_by, mirror_by};
ghost use Rattle.requests.specs.FaultText.{EndsOpening};
ghost use Rattle.requests.specs.ReadFiles.{AreTables, CannotOpen, FileNamed, HoldsClasses, HoldsTable, IsClassPath};
ghost use Rattle.requests.specs.ReadFiles.{bracket_name, class_name, extracted_name, in_folder, mirror_name};
ghost use Rattle.requests.specs.ReadFiles.{most_file_bytes, table_file};
ghost use Rattle.requests.specs.Parts.{IsFirstFault, table_parts};
ghost use Rattle.requests.specs.TableFaults.{CannotOpenClasses, EndsClasses, EndsTable, table_fault};

use crate::fault::Fault;
use crate::files::{Files, OpenFault};
use crate::opening::MOST_FILE_BYTES;
use printing::written::Written;
use std::alloc::Global;
use ucdfiles::bracket_table::BracketTable;
use ucdfiles::class_table::ClassTable;
use ucdfiles::fault::TableFault;
use ucdfiles::mirror_table::MirrorTable;
use ucdfiles::tables::Tables;
use units::unread::Unread;

/// The file of the classes in the folder of the tables.
pub const CLASSES: &str = "DerivedBidiClass.txt";

/// The file of the classes, relative to the folder in which Unicode publishes the other two.
const EXTRACTED_CLASSES: &str = "extracted/DerivedBidiClass.txt";

/// The file of the bracket pairs.
pub const BRACKETS: &str = "BidiBrackets.txt";

/// The file of the mirror images.
pub const MIRRORS: &str = "BidiMirroring.txt";

/// Opens the file of this name in the folder.
fn open_in<F: Files>(
    alloc: Global,
    files: &F,
    folder: &str,
    name: &str,
) -> Result<F::Source, OpenFault>
    ensures opened { IfOk result (F.opens files.now (FileNamed (in_folder folder.now name.now)) most_file_bytes) }
    ensures cannot { IfErr result (λ fault. (unread : Unread) → fault ≡ OpenFault.Cannot unread
        → CannotOpen (F.facts files.now) folder.now name.now unread) }
{
    let path = format!(in alloc; "{folder}/{name}")?;
    files.file(alloc, path.as_str(), MOST_FILE_BYTES)
}

/// Opens the table's file of this name in the folder. Fails with `CannotRead` and the reason if it can't be opened, and
/// with `OutOfMemory` if an allocation fails.
fn open_table<'a, F: Files>(
    alloc: Global,
    files: &F,
    folder: &'a str,
    name: &'static str,
) -> Result<F::Source, Fault<'a>>
    ensures opened { IfOk result (F.opens files.now (FileNamed (in_folder folder.now name.now)) most_file_bytes) }
    ensures fault { IfErr result
        (EndsOpening (CannotOpen (F.facts files.now) folder.now name.now) (table_file folder.now name.now)) }
{
    match open_in(alloc, files, folder, name) {
        Ok(source) => Ok(source),
        Err(OpenFault::Cannot(unread)) => Err(Fault::CannotRead {
            name,
            folder: Some(folder),
            most: MOST_FILE_BYTES,
            unread,
            written: Written::Whole,
        }),
        Err(OpenFault::Memory) => Err(Fault::OutOfMemory),
    }
}

/// Opens the file of the classes in the folder's subfolder `extracted`. `unread` is the reason why the one in the
/// folder can't be opened. If this one can't be opened either, fails with `CannotRead` for the one in the folder. Fails
/// with `OutOfMemory` if an allocation fails.
fn open_extracted<'a, F: Files>(
    alloc: Global,
    files: &F,
    folder: &'a str,
    unread: Unread,
) -> Result<F::Source, Fault<'a>>
    requires { CannotOpen (F.facts files.now) folder.now class_name unread }
    ensures opened { IfOk result (F.opens files.now (FileNamed (in_folder folder.now extracted_name)) most_file_bytes) }
    ensures fault { IfErr result
        (EndsOpening (CannotOpenClasses (F.facts files.now) folder.now) (table_file folder.now class_name)) }
{
    match open_in(alloc, files, folder, EXTRACTED_CLASSES) {
        Ok(source) => Ok(source),
        Err(OpenFault::Cannot(_)) => Err(Fault::CannotRead {
            name: CLASSES,
            folder: Some(folder),
            most: MOST_FILE_BYTES,
            unread,
            written: Written::Whole,
        }),
        Err(OpenFault::Memory) => Err(Fault::OutOfMemory),
    }
}

/// Opens the file of the classes: the one in the folder or, if that can't be opened, the one in its subfolder
/// `extracted`, where Unicode publishes it. If neither can be opened, the fault names the first, with its reason.
fn open_classes<'a, F: Files>(
    alloc: Global,
    files: &F,
    folder: &'a str,
) -> Result<F::Source, Fault<'a>>
    ensures opened { IfOk result (λ source. (path : List ℕ) × IsClassPath (F.facts files.now) folder.now path
        × F.opens files.now (FileNamed path) most_file_bytes source) }
    ensures fault { IfErr result
        (EndsOpening (CannotOpenClasses (F.facts files.now) folder.now) (table_file folder.now class_name)) }
{
    match open_in(alloc, files, folder, CLASSES) {
        Ok(source) => Ok(source),
        Err(OpenFault::Cannot(unread)) => open_extracted(alloc, files, folder, unread),
        Err(OpenFault::Memory) => Err(Fault::OutOfMemory),
    }
}

/// Returns the fault of the table's file of this name in the folder. `unread` is the reason if a read of it failed.
fn fault_of_table<'a>(
    folder: &'a str,
    name: &'static str,
    fault: TableFault,
    unread: Unread,
) -> Fault<'a>
    ensures { result ≡ table_fault name.entry folder.entry fault unread }
{
    match (fault.line(), fault) {
        (Some(line), _) => Fault::FaultyLine {
            name,
            folder,
            line,
            fault,
        },
        (None, TableFault::Memory) => Fault::OutOfMemory,
        (None, _) => Fault::CannotRead {
            name,
            folder: Some(folder),
            most: MOST_FILE_BYTES,
            unread,
            written: Written::Whole,
        },
    }
}

/// Reads the classes of the folder.
fn read_classes<'a, F: Files>(
    alloc: Global,
    files: &F,
    folder: &'a str,
) -> Result<ClassTable, Fault<'a>>
    ensures ok { IfOk result (λ table. HoldsClasses (F.facts files.now) folder.now
        (λ bytes. StatesClasses bytes (class_by table))) }
    ensures err { IfErr result (EndsClasses (F.facts files.now) folder.now) }
{
    let mut source = open_classes(alloc, files, folder)?;
    match ClassTable::read(alloc, &mut source) {
        Ok(table) => Ok(table),
        Err(fault) => {
            let unread = files.unread(&source);
            Err(fault_of_table(folder, CLASSES, fault, unread))
        }
    }
}

/// Reads the brackets of the folder.
fn read_brackets<'a, F: Files>(
    alloc: Global,
    files: &F,
    folder: &'a str,
) -> Result<BracketTable, Fault<'a>>
    ensures ok { IfOk result (λ table. HoldsTable (F.facts files.now) folder.now bracket_name
        (λ bytes. StatesBrackets bytes (bracket_by table))) }
    ensures err { IfErr result (EndsTable (F.facts files.now) bracket_fault folder.now bracket_name) }
{
    let mut source = open_table(alloc, files, folder, BRACKETS)?;
    match BracketTable::read(alloc, &mut source) {
        Ok(table) => Ok(table),
        Err(fault) => {
            let unread = files.unread(&source);
            Err(fault_of_table(folder, BRACKETS, fault, unread))
        }
    }
}

/// Reads the mirror images of the folder.
fn read_mirrors<'a, F: Files>(
    alloc: Global,
    files: &F,
    folder: &'a str,
) -> Result<MirrorTable, Fault<'a>>
    ensures ok { IfOk result (λ table. HoldsTable (F.facts files.now) folder.now mirror_name
        (λ bytes. StatesMirrors bytes (mirror_by table))) }
    ensures err { IfErr result (EndsTable (F.facts files.now) mirror_fault folder.now mirror_name) }
{
    let mut source = open_table(alloc, files, folder, MIRRORS)?;
    match MirrorTable::read(alloc, &mut source) {
        Ok(table) => Ok(table),
        Err(fault) => {
            let unread = files.unread(&source);
            Err(fault_of_table(folder, MIRRORS, fault, unread))
        }
    }
}

/// Reads the tables of a folder: the classes, from the folder or its subfolder `extracted`, then the brackets, then the
/// mirror images. Fails with the first fault: a file that can't be opened or read, the first faulty line of a file, or
/// a failed allocation.
pub fn read_tables<'a, F: Files>(
    alloc: Global,
    files: &F,
    folder: &'a str,
) -> Result<Tables, Fault<'a>>
    ensures tables { IfOk result (AreTables (F.facts files.now) folder.now) }
    ensures fault { IfErr result
        (IsFirstFault (table_parts (F.facts files.now) folder.now)) }
{
    let classes = read_classes(alloc, files, folder)?;
    let brackets = read_brackets(alloc, files, folder)?;
    let mirrors = read_mirrors(alloc, files, folder)?;
    Ok(Tables::new(classes, brackets, mirrors))
}
