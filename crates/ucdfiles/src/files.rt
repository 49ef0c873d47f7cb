// The three tables, read from the bytes of their files.
ghost use Rattle.std.specs.Prelude.{IfOk, IfErr};
ghost use Rattle.ucdfiles.specs.ClassFile.{class_fault, StatesClasses};
ghost use Rattle.ucdfiles.specs.Files.{StateTables, IsFaulty, IsFirstFaulty};
ghost use Rattle.ucdfiles.specs.PairFiles.{bracket_fault, mirror_fault, StatesBrackets, StatesMirrors};
ghost use Rattle.ucdfiles.specs.Tables.{class_by, bracket_by, mirror_by};

use crate::bracket_table::BracketTable;
use crate::class_table::ClassTable;
use crate::fault::TableFault;
use crate::mirror_table::MirrorTable;
use crate::tables::Tables;
use std::alloc::Global;
use thiserror::Error;
use units::slice_source::SliceSource;

/// Why the bytes of the three files state no tables: the fault of the first faulty file.
#[derive(Clone, Copy, Debug, PartialEq, Eq, Error)]
pub enum FileFault {
    /// The fault of the file of the classes.
    #[error("DerivedBidiClass.txt: {0}")]
    Classes(TableFault),
    /// The fault of the file of the brackets.
    #[error("BidiBrackets.txt: {0}")]
    Brackets(TableFault),
    /// The fault of the file of the mirror images.
    #[error("BidiMirroring.txt: {0}")]
    Mirrors(TableFault),
}

/// Reads the classes that these bytes state.
fn read_classes(alloc: Global, bytes: &[u8]) -> Result<ClassTable, TableFault>
    ensures ok { IfOk result (λ table. StatesClasses bytes.now (class_by table)) }
    ensures err { IfErr result (IsFaulty class_fault bytes.now) }
{
    let mut source = SliceSource::new(bytes);
    ClassTable::read(alloc, &mut source)
}

/// Reads the brackets that these bytes state.
fn read_brackets(alloc: Global, bytes: &[u8]) -> Result<BracketTable, TableFault>
    ensures ok { IfOk result (λ table. StatesBrackets bytes.now (bracket_by table)) }
    ensures err { IfErr result (IsFaulty bracket_fault bytes.now) }
{
    let mut source = SliceSource::new(bytes);
    BracketTable::read(alloc, &mut source)
}

/// Reads the mirror images that these bytes state.
fn read_mirrors(alloc: Global, bytes: &[u8]) -> Result<MirrorTable, TableFault>
    ensures ok { IfOk result (λ table. StatesMirrors bytes.now (mirror_by table)) }
    ensures err { IfErr result (IsFaulty mirror_fault bytes.now) }
{
    let mut source = SliceSource::new(bytes);
    MirrorTable::read(alloc, &mut source)
}

impl Tables {
    /// Reads the tables that the bytes of the three files state: DerivedBidiClass.txt, BidiBrackets.txt and
    /// BidiMirroring.txt. Fails with the fault of the first faulty file. The fault is never `Read`, because reading a
    /// slice can't fail.
    pub fn read(
        alloc: Global,
        classes: &[u8],
        brackets: &[u8],
        mirrors: &[u8],
    ) -> Result<Tables, FileFault>
        ensures ok { IfOk result (StateTables classes.now brackets.now mirrors.now) }
        ensures err { IfErr result (IsFirstFaulty classes.now brackets.now mirrors.now) }
    {
        let classes = match read_classes(alloc, classes) {
            Ok(table) => table,
            Err(fault) => return Err(FileFault::Classes(fault)),
        };
        let brackets = match read_brackets(alloc, brackets) {
            Ok(table) => table,
            Err(fault) => return Err(FileFault::Brackets(fault)),
        };
        match read_mirrors(alloc, mirrors) {
            Ok(mirrors) => Ok(Tables::new(classes, brackets, mirrors)),
            Err(fault) => Err(FileFault::Mirrors(fault)),
        }
    }
}
