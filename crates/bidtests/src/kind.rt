//! The two kinds of test files.
ghost use Rattle.std.specs.Prelude.{◌≡◌};
ghost use Rattle.bidtests.specs.FileKinds.{stored_tables, tables_of};

use std::alloc::Global;
use std::sync::Arc;
use ucdfiles::tables::Tables;

/// The kind of a test file.
#[derive(Clone, Copy)]
pub enum Kind<'t> {
    /// A BidiTest.txt: each row lists classes.
    Classes,
    /// A BidiCharacterTest.txt: each row lists code points, whose units come from these tables.
    Characters(&'t Tables),
}

/// The kind of a test file, for a value that stores it.
#[derive(Drop)]
pub enum StoredKind<'t> {
    /// Either kind, with borrowed tables.
    Borrowed(Kind<'t>),
    /// A BidiCharacterTest.txt, with tables that other owners may share.
    Shared(Arc<Tables, Global>),
}

impl StoredKind<'_> {
    /// Returns the kind, and borrows its tables.
    pub fn kind(&self) -> Kind<'_>
        ensures { tables_of result ≡ stored_tables self.now }
    {
        match self {
            StoredKind::Borrowed(kind) => *kind,
            StoredKind::Shared(tables) => Kind::Characters(&**tables),
        }
    }
}
