//! The handle of a C program.
ghost use Rattle.std.specs.Prelude.{◌≡◌, Some, None, true, false};
ghost use Rattle.mm_session.specs.Session.{SessionState};
ghost use Rattle.std.specs.declared.alloc.Global.{Global};

use crate::block::Block;
use crate::library::Library;
use std::alloc::Global;
use std::marker::Model;
use std::ptr::null_mut;

/// A handle: a pointer to a `Library`, and whether the handle is open.
#[repr(C)]
#[derive(Drop)]
pub struct Handle {
    at: *mut u8,
    is_open: bool,
    ghost heap: { Global },
    ghost value: { SessionState },
}

impl Model for Handle {
    ghost use Rattle.mmdb_c.specs.Owning.{handle_owns};
    ghost use Rattle.mmdb_c.specs.contracts.library.Library.{the_row};

    ghost also_owns = { λ h. handle_owns h.heap the_row h.is_open h.at h.value };
}

impl Handle {
    ghost use Rattle.std.specs.Borrow.{sem};
    ghost use Rattle.mmdb_c.specs.Lent.{handle_follows, held};

    /// Returns a closed handle.
    pub(crate) fn closed(alloc: Global) -> Handle
        ensures { held result ≡ None }
    {
        Handle {
            at: null_mut(),
            is_open: false,
        }
    }

    /// Returns whether the handle is open.
    pub(crate) fn is_open(&mut self) -> bool
        ensures { (result ≡ self.old.is_open) × (self.new ≡ self.old) }
    {
        self.is_open
    }

    /// Borrows the library of an open handle.
    pub(crate) fn as_mut(&mut self) -> &mut Library
        requires { self.old.is_open ≡ true }
        ensures* writes_back { sem 𝓛 (handle_follows self.entry result) }
        ensures value { result.now ≡ self.old.value }
    {
        let at = self.at as *mut Library;
        unsafe { &mut *at }
    }

    /// Returns an open handle that owns the block.
    pub(crate) fn of(block: Block<Library, Global>) -> Handle
        ensures { held result ≡ Some block.value }
    {
        let Block { at, alloc: _ } = block;
        Handle {
            at: at as *mut u8,
            is_open: true,
        }
    }

    /// Returns the block that an open handle owns.
    pub(crate) fn into_block(self, alloc: Global) -> Block<Library, Global>
        requires { self.is_open ≡ true }
        ensures { result.value ≡ self.value }
    {
        let Handle { at, is_open: _ } = self;
        Block {
            at: at as *mut Library,
            alloc,
        }
    }
}
