//! A `Box<Library>`, or none, in the form that C has it.
ghost use Rattle.std.specs.Prelude.{◌≡◌, Option, Some, None, IfSome};
ghost use Rattle.vg_handle.specs.Handles.{flag_of, handle_owns, kept_coded};
ghost use Rattle.vg_library.specs.declared.library.Library.{Library};

use crate::parts::Parts;
use std::alloc::Global;
use std::marker::Model;
use std::mem::replace;
use vg_library::Library;

/// A library that C keeps: a pointer, and 1 where there is one. C begins with a null pointer and 0,
/// changes neither, and has one call at a time take the handle.
#[repr(C)]
pub struct Handle {
    ptr: *mut (),
    full: usize,
    pub ghost kept: { Option Library } by { kept_coded },
    pub ghost said: { full ≡ flag_of kept },
}

impl Model for Handle {
    ghost also_owns = { λ h. handle_owns h.ptr h.kept };
}

impl Handle {
    // The handle that keeps nothing.
    fn empty() -> Handle
        ensures { result.kept ≡ None }
    {
        Handle {
            ptr: std::ptr::null_mut(),
            full: 0,
        }
    }

    // A handle of the parts of a box.
    fn of_parts(parts: Parts<Library, Global>) -> Handle
        ensures { result.kept ≡ Some parts.value }
    {
        let Parts { ptr, alloc: _ } = parts;
        Handle {
            ptr: ptr as *mut (),
            full: 1,
        }
    }

    // Whether something is kept, and the handle.
    fn asked(self) -> (usize, Handle)
        ensures { (result.1 ≡ self) × (result.0 ≡ flag_of result.1.kept) }
    {
        let Handle { ptr, full } = self;
        (full, Handle { ptr, full })
    }

    // The parts of the box that is kept.
    fn into_parts(self, alloc: Global) -> Parts<Library, Global>
        requires { flag_of self.kept ≡ 1 }
        ensures { self.kept ≡ Some result.value }
    {
        let Handle { ptr, full: _ } = self;
        Parts {
            ptr: ptr as *mut Library,
            alloc,
        }
    }

    // Leaves a handle that keeps nothing.
    fn leave(self)
        requires { self.kept ≡ None }
    {
        let Handle { ptr: _, full: _ } = self;
    }

    /// What is kept, which is then kept no more. Takes no memory.
    pub fn take(&mut self, alloc: Global) -> Option<Box<Library, Global>>
        ensures emptied { self.new.kept ≡ None }
        ensures some { IfSome result (λ b. self.old.kept ≡ Some b.value) }
        ensures none { result ≡ None → self.old.kept ≡ None }
    {
        let (full, handle) = replace(self, Handle::empty()).asked();
        if full == 1 {
            Some(handle.into_parts(alloc).into_box())
        } else {
            handle.leave();
            None
        }
    }

    /// Keeps a library, where none is kept. Takes no memory.
    pub fn put(&mut self, value: Box<Library, Global>)
        requires { self.old.kept ≡ None }
        ensures { self.new.kept ≡ Some value.value }
    {
        replace(self, Handle::of_parts(Parts::of(value))).leave();
    }
}
