//! A handle, as C has it.
ghost use Rattle.std.specs.Prelude.{◌≡◌, ◌↔◌, IsSome, Some, None, true, MatchOption};
ghost use Rattle.std.specs.Borrow.{sem};
ghost use Rattle.for_c.specs.Statuses.{Puts};
ghost use Rattle.for_c.specs.declared.call_error.CallError.TheVariants.{Memory};

use crate::contents::Contents;
use crate::handle::Handle;
use for_c::call_error::CallError;
use std::alloc::Global;
use ucdfiles::tables::Tables;

/// What C has: all zero, or what a call has put into it.
#[repr(C)]
pub struct BidiHandle {
    pub handle: Handle,
    made: bool,
    ghost made_iff_some: { (made ≡ true) ↔ IsSome handle.value },
}

impl BidiHandle {
    ghost use Rattle.bidi_c.specs.ContentsIn.{tables_in};
    ghost use Rattle.bidi_c.specs.BorrowedContents.{BorrowsContentsIf, EndsUnchanged};

    fn none(alloc: Global) -> BidiHandle
        ensures { result.handle.value ≡ None }
    {
        BidiHandle {
            handle: Handle::empty(alloc),
            made: false,
        }
    }

    fn of(contents: Box<Contents>) -> BidiHandle
        ensures { result.handle.value ≡ Some contents.value }
    {
        BidiHandle {
            handle: Handle::of(contents),
            made: true,
        }
    }

    /// Borrows its contents, unless it is empty.
    pub(crate) fn contents(&mut self) -> Option<&mut Contents>
        ensures* writes_back { sem 𝓛 (BorrowsContentsIf self.entry result) }
        ensures value { MatchOption result (self.old.handle.value ≡ None)
            (λ contents. self.old.handle.value ≡ Some contents.now) }
    {
        if self.made {
            Some(unsafe { &mut *(self.handle.at as *mut Contents) })
        } else {
            None
        }
    }

    /// Borrows the tables, if it contains tables.
    pub(crate) fn tables(&mut self) -> Option<&Tables>
        ensures* unchanged { sem 𝓛 (EndsUnchanged self.entry) }
        ensures value { MatchOption result (tables_in self.old.handle.value ≡ None)
            (λ tables. tables_in self.old.handle.value ≡ Some tables.now) }
    {
        let Some(contents) = self.contents() else {
            return None;
        };
        contents.tables()
    }

    /// Frees its contents.
    pub(crate) fn empty(&mut self, alloc: Global)
        ensures { self.new.handle.value ≡ None }
    {
        *self = BidiHandle::none(alloc);
    }

    /// Replaces its contents by `contents`, and frees what it contained before. Fails with `Memory`; then it is
    /// unchanged.
    pub(crate) fn hold(&mut self, alloc: Global, contents: Contents) -> Result<(), CallError>
        ensures { Puts (λ new. new ≡ Some contents) (λ error. error ≡ Memory) self.old.handle.value
            self.new.handle.value result }
    {
        match Box::new(alloc, contents) {
            Ok(contents) => {
                *self = BidiHandle::of(contents);
                Ok(())
            }
            Err(_) => Err(CallError::Memory),
        }
    }
}

impl Drop for BidiHandle {
    fn drop(self) {
        let BidiHandle { handle, made } = self;
        if made {
            drop(handle.into_box());
        } else {
            handle.end();
        }
    }
}
