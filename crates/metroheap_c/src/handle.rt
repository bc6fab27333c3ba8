//! What C keeps of a machine. A call takes the box out of the handle and puts it back, so the bodies of the calls need
//! no `unsafe`.
ghost use Rattle.std.specs.Prelude.{◌≡◌, Option, None, Some, MatchOption};
ghost use Rattle.metroheap_c.specs.Held.{Kept, handle_owns};

use crate::parts::Parts;
use mh_embed::embedded::Embedded;
use std::alloc::Global;
use std::marker::Model;
use std::mem;
use std::ptr::null_mut;

/// A pointer that is null, of a closed handle, or that of a box.
#[repr(C)]
pub struct Handle {
    at: *mut u8,
    alloc: Global,
    pub ghost value: { Option Kept },
}

impl Model for Handle {
    ghost also_owns = { λ l. handle_owns l.alloc l.at l.value };
}

impl Handle {
    fn none(alloc: Global) -> Handle
        ensures { result.value ≡ None }
    {
        Handle {
            at: null_mut(),
            alloc,
        }
    }

    fn of_parts(parts: Parts<Embedded, Global>) -> Handle
        ensures { result.value ≡ Some parts.value }
    {
        let Parts { ptr, alloc } = parts;
        Handle {
            at: ptr as *mut u8,
            alloc,
        }
    }

    fn into_parts(self) -> Option<Parts<Embedded, Global>>
        ensures { MatchOption result (self.value ≡ None) (λ parts. self.value ≡ Some parts.value) }
    {
        let Handle { at, alloc } = self;
        if at.is_null() {
            return None;
        }
        Some(Parts {
            ptr: at as *mut Embedded,
            alloc,
        })
    }

    /// What is kept, which leaves the handle closed.
    pub fn take(&mut self, alloc: Global) -> Option<Box<Embedded>>
        ensures taken { MatchOption result (self.old.value ≡ None) (λ embedded. self.old.value ≡ Some embedded.value) }
        ensures closed { self.new.value ≡ None }
    {
        let taken = mem::replace(self, Handle::none(alloc));
        match taken.into_parts() {
            Some(parts) => Some(parts.into_box()),
            None => None,
        }
    }

    /// Keeps a box, and drops what was kept.
    pub fn keep(&mut self, embedded: Box<Embedded>)
        ensures { self.new.value ≡ Some embedded.value }
    {
        *self = Handle::of_parts(Parts::of(embedded));
    }
}

impl Drop for Handle {
    fn drop(self) {
        if let Some(parts) = self.into_parts() {
            drop(parts.into_box());
        }
    }
}

// The machine behind it may be used by one thread after another.
unsafe impl Send for Handle {}
