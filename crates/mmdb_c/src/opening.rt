//! The exported calls that open and close a handle.
ghost use Rattle.std.specs.Prelude.{◌≡◌, None, Some};
ghost use Rattle.mmdb_c.specs.Lent.{held};
ghost use Rattle.mmdb_c.specs.Calls.{Opens};

use crate::block::Block;
use crate::handle::Handle;
use crate::library::Library;
use crate::status::{DONE, MISUSE};
use mm_value::Refusal;
use std::alloc::Global;
use std::mem::replace;

/// Opens a closed handle with a new session. Returns `DONE`; `MISUSE` if the handle is open; or the number of `Memory`, and the handle
/// stays closed.
#[unsafe(no_mangle)]
pub extern "C" fn mmdb_open(alloc: Global, db: &mut Handle) -> u8
    ensures { Opens result (held db.old) (held db.new) }
{
    if db.is_open() {
        return MISUSE;
    }
    match Box::new(alloc, Library::new(alloc)) {
        Ok(library) => {
            *db = Handle::of(Block::from_box(library));
            DONE
        }
        Err(_) => Refusal::Memory.number(),
    }
}

/// Closes a handle, and frees its session. A closed handle stays closed.
#[unsafe(no_mangle)]
pub extern "C" fn mmdb_close(alloc: Global, db: &mut Handle)
    ensures { held db.new ≡ None }
{
    if db.is_open() {
        let open = replace(db, Handle::closed(alloc));
        drop(open.into_block(alloc).into_box());
    }
}
