//! Tables read from the bytes of their files, shared, and looked up.
ghost use Rattle.std.specs.Prelude.{◌≡◌, None, Some};
ghost use Rattle.std.specs.Char.{IsScalar};
ghost use Rattle.standard.specs.declared.facts.TheConstants.{BRACKETS, CLASSES, EDITION, MIRRORS};
ghost use Rattle.room.specs.Written.{WritesWhole};
ghost use Rattle.for_c.specs.ReadTables.{fault_named};
ghost use Rattle.for_c.specs.Statuses.{ReturnsStatus, ReturnsStatusNaming, Puts};
ghost use Rattle.for_c.specs.declared.version.TheConstants.{VERSION};
ghost use Rattle.bidi_c.specs.ContentsAt.{contents_at, tables_at};
ghost use Rattle.bidi_c.specs.ContentsIn.{tables_in};
ghost use Rattle.bidi_c.specs.MadeTables.{HaveTables, MakesTables, image_by};
ghost use Rattle.bidi_c.specs.Sharing.{SharesTables};

use crate::bidi_handle::BidiHandle;
use crate::contents::Contents;
use for_c::call_error::{CallError, status};
use for_c::columns::write_items;
use for_c::properties::mirror_image;
use for_c::read_tables::{BidiFault, kind_in, read_tables};
use for_c::version::VERSION;
use standard::facts::EDITION;
use std::alloc::Global;
use std::sync::Arc;
use ucdfiles::tables::Tables;

fn hold_tables(alloc: Global, made: Tables, tables: &mut BidiHandle) -> Result<(), CallError>
    ensures { Puts (λ contents. tables_in contents ≡ Some made) (λ error. error ≡ CallError.Memory)
        (contents_at tables.old) (contents_at tables.new) result }
{
    match Arc::new(alloc, made) {
        Ok(made) => tables.hold(alloc, Contents::Tables(made)),
        Err(_) => Err(CallError::Memory),
    }
}

fn make_tables(
    alloc: Global,
    classes: &[u8],
    brackets: &[u8],
    mirrors: &[u8],
    tables: &mut BidiHandle,
) -> Result<(), CallError>
    ensures { MakesTables classes.now brackets.now mirrors.now (contents_at tables.old)
        (contents_at tables.new) result }
{
    let made = read_tables(alloc, classes, brackets, mirrors)?;
    hold_tables(alloc, made, tables)
}

/// Makes tables from the bytes of the three property files: DerivedBidiClass.txt, BidiBrackets.txt and
/// BidiMirroring.txt. What the handle contained before is freed after that. If it fails, the handle is unchanged, and
/// `fault` says what is wrong with the file that the status names.
#[unsafe(no_mangle)]
pub extern "C" fn bidi_tables_new(
    alloc: Global,
    classes: &[u8],
    brackets: &[u8],
    mirrors: &[u8],
    tables: &mut BidiHandle,
    fault: &mut BidiFault,
) -> u32
    ensures { ReturnsStatusNaming fault_named (MakesTables classes.now brackets.now mirrors.now
        (contents_at tables.old) (contents_at tables.new)) result fault.old fault.new }
{
    let done = make_tables(alloc, classes, brackets, mirrors, tables);
    if let Err(error) = done {
        *fault = BidiFault {
            line: error.place(),
            kind: kind_in(error),
        };
    }
    status(done)
}

/// Puts the tables of the edition of Unicode that is built in into the handle. They are constants; memory is only taken
/// for the handle. What the handle contained before is freed then. It fails only if that memory is refused, and then
/// the handle is unchanged.
#[unsafe(no_mangle)]
pub extern "C" fn bidi_tables_standard(alloc: Global, tables: &mut BidiHandle) -> u32
    ensures { ReturnsStatus (Puts (λ contents. HaveTables contents CLASSES BRACKETS MIRRORS) (λ error.
        error ≡ CallError.Memory)
        (contents_at tables.old) (contents_at tables.new)) result }
{
    status(hold_tables(alloc, standard::tables(), tables))
}

/// Writes the number of the edition that is built in to `text`, if it fits there, as "17.0.0". Returns how many bytes
/// it has.
#[unsafe(no_mangle)]
pub extern "C" fn bidi_edition(text: &mut [u8]) -> usize
    ensures { WritesWhole EDITION.now result text.old text.new }
{
    write_items(EDITION.as_bytes(), text)
}

/// Writes the version of the product to `text`, if it fits there, as "1.1.0". Returns how many bytes it has.
#[unsafe(no_mangle)]
pub extern "C" fn bidi_version(text: &mut [u8]) -> usize
    ensures { WritesWhole VERSION.now result text.old text.new }
{
    write_items(VERSION.as_bytes(), text)
}

fn share_tables(
    alloc: Global,
    tables: &mut BidiHandle,
    shared: &mut BidiHandle,
) -> Result<(), CallError>
    ensures tables { contents_at tables.new ≡ contents_at tables.old }
    ensures shared { SharesTables (contents_at tables.old) (contents_at shared.old) (contents_at shared.new) result }
{
    let Some(contents) = tables.contents() else {
        return Err(CallError::NoTables);
    };
    let by = contents.share_tables()?;
    shared.hold(alloc, Contents::Tables(by))
}

/// Makes `shared` a handle of its own on the same tables, which another thread may use while this one uses `tables`.
/// The tables are freed with the last of their owners. What `shared` contained before is freed after that. If it fails,
/// `shared` is unchanged.
#[unsafe(no_mangle)]
pub extern "C" fn bidi_tables_share(
    alloc: Global,
    tables: &mut BidiHandle,
    shared: &mut BidiHandle,
) -> u32
    ensures tables { contents_at tables.new ≡ contents_at tables.old }
    ensures shared { ReturnsStatus (SharesTables (contents_at tables.old) (contents_at shared.old)
        (contents_at shared.new)) result }
{
    status(share_tables(alloc, tables, shared))
}

/// Frees tables, unless something else owns them too. The handle is all zero after that, as it may be before.
#[unsafe(no_mangle)]
pub extern "C" fn bidi_tables_free(alloc: Global, tables: &mut BidiHandle)
    ensures { contents_at tables.new ≡ None }
{
    tables.empty(alloc);
}

/// Returns the mirrored character of a code point (L4), or the code point if it has none or there are no tables.
#[unsafe(no_mangle)]
pub extern "C" fn bidi_mirror(tables: &mut BidiHandle, code: u32) -> u32
    ensures tables { contents_at tables.new ≡ contents_at tables.old }
    ensures other { (IsScalar code → ⊥) → result ≡ code }
    ensures image { IsScalar code → result ≡ image_by (tables_at tables.old) code }
{
    match tables.tables() {
        Some(by) => mirror_image(by, code),
        None => code,
    }
}
