//! The pointer of a handle, in a form that C can have.
ghost use Rattle.std.specs.Prelude.{◌≡◌, Option, IsSome, Some, None};
ghost use Rattle.bidi_c.specs.declared.contents.Contents.{Contents as ContentsOf};

use crate::contents::Contents;
use std::alloc::Global;
use std::marker::Model;
use std::ptr::null_mut;

/// A pointer that owns what a handle contains, or nothing.
#[repr(C)]
pub struct Handle {
    pub(crate) at: *mut u8,
    alloc: Global,
    pub ghost value: { Option ContentsOf },
}

impl Model for Handle {
    ghost use Rattle.bidi_c.specs.Owned.{owned};
    ghost use Rattle.bidi_c.specs.contracts.contents.Contents.{the_row};

    ghost also_owns = { λ h. owned the_row h.alloc h.at h.value };
}

impl Handle {
    pub(crate) fn empty(alloc: Global) -> Handle
        ensures { result.value ≡ None }
    {
        Handle {
            at: null_mut(),
            alloc,
        }
    }

    /// Returns a handle that owns the contents of the box.
    pub(crate) fn of(contents: Box<Contents>) -> Handle
        ensures { result.value ≡ Some contents.value }
    {
        let (at, alloc) = Box::into_raw_with_allocator(contents);
        Handle {
            at: at as *mut u8,
            alloc,
        }
    }

    /// Returns the box of what the handle owns.
    pub(crate) fn into_box(self) -> Box<Contents>
        requires { IsSome self.value }
        ensures { self.value ≡ Some result.value }
    {
        let Handle { at, alloc } = self;
        unsafe { Box::from_raw(alloc, at as *mut Contents) }
    }

    pub(crate) fn end(self)
        requires { self.value ≡ None }
    {
        let Handle { at: _, alloc: _ } = self;
    }
}

// SAFETY: it owns its contents, and these own what they point to.
unsafe impl Send for Handle {}
