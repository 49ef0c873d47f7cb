//! Tables read from the bytes of their files, and shared.
ghost use Rattle.std.specs.Prelude.{◌≡◌, IfOk, IfErr};
ghost use Rattle.std.specs.Arc.{arc_value};
ghost use Rattle.ucdfiles.specs.Files.{StateTables};
ghost use Rattle.for_c.specs.ReadTables.{RejectsTables, error_of_file, fault_number, fault_number_in};

use crate::call_error::CallError;
use std::alloc::Global;
use std::sync::Arc;
use ucdfiles::fault::TableFault;
use ucdfiles::files::FileFault;
use ucdfiles::tables::Tables;

/// What is wrong with a file.
#[repr(C)]
#[derive(Clone, Copy)]
pub struct BidiFault {
    /// The number of the bad line, from 1.
    pub line: u64,
    /// The number of the kind of fault.
    pub kind: u32,
}

/// Returns the number of the kind of a fault, 0 if it is not one of a line.
fn kind_of(fault: TableFault) -> u32
    ensures { result ≡ fault_number fault }
{
    match fault {
        TableFault::CodePoint(_) => 1,
        TableFault::Backwards(_) => 2,
        TableFault::ClassName(_) => 3,
        TableFault::Fields(_) => 4,
        TableFault::Overlap(_) => 5,
        TableFault::Twice(_) => 6,
        TableFault::BracketKind(_) => 7,
        TableFault::LineTooLong(_) => 8,
        TableFault::TooMany(_) => 9,
        TableFault::Read | TableFault::Memory => 0,
    }
}

/// Returns the number of the kind of the fault that an error names in a file, 0 if it names none.
pub fn kind_in(error: CallError) -> u32
    ensures { result ≡ fault_number_in error }
{
    match error {
        CallError::ClassFile(fault)
        | CallError::BracketFile(fault)
        | CallError::MirrorFile(fault) => { kind_of(fault) }
        _ => 0,
    }
}

/// Returns the error for the fault of a file: `Memory`, or else the error that names the file. Reading bytes never
/// fails.
fn error_of_file(fault: FileFault) -> CallError
    ensures { result ≡ error_of_file fault }
{
    match fault {
        FileFault::Classes(TableFault::Memory)
        | FileFault::Brackets(TableFault::Memory)
        | FileFault::Mirrors(TableFault::Memory) => CallError::Memory,
        FileFault::Classes(fault) => CallError::ClassFile(fault),
        FileFault::Brackets(fault) => CallError::BracketFile(fault),
        FileFault::Mirrors(fault) => CallError::MirrorFile(fault),
    }
}

/// Reads tables from the bytes of the three property files. Fails with `Memory`, or with the first bad line of the
/// first bad file.
pub fn read_tables(
    alloc: Global,
    classes: &[u8],
    brackets: &[u8],
    mirrors: &[u8],
) -> Result<Tables, CallError>
    ensures ok { IfOk result (StateTables classes.now brackets.now mirrors.now) }
    ensures err { IfErr result (RejectsTables classes.now brackets.now mirrors.now) }
{
    match Tables::read(alloc, classes, brackets, mirrors) {
        Ok(tables) => Ok(tables),
        Err(fault) => Err(error_of_file(fault)),
    }
}

/// Returns another owner of the same tables. They are freed with the last of their owners. Fails with `Memory`.
pub fn share_tables(tables: &Arc<Tables, Global>) -> Result<Arc<Tables, Global>, CallError>
    ensures same { IfOk result (λ shared. arc_value shared ≡ arc_value tables.now) }
    ensures reason { IfErr result (λ error. error ≡ CallError.Memory) }
{
    Arc::try_clone(tables).map_err(|_| CallError::Memory)
}
