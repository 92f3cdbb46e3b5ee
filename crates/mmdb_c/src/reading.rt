//! The exported calls that read the reply and the count of changed rows.
ghost use Rattle.std.specs.Prelude.{◌≡◌};
ghost use Rattle.mmdb_c.specs.Calls.{Counts, OnOpen, Reads, TellsChanges, TellsText};
ghost use Rattle.mmdb_c.specs.Lent.{held};
ghost use Rattle.mmdb_c.specs.Statuses.{misuse};

use crate::cell::Cell;
use crate::handle::Handle;
use crate::status::MISUSE;
use std::alloc::Global;

/// Returns the number of rows that the reply has or counts: 0 for any other reply, and if the handle is closed.
#[unsafe(no_mangle)]
pub extern "C" fn mmdb_count(db: &mut Handle) -> usize
    ensures { OnOpen (Counts result) (result ≡ 0) (held db.old) (held db.new) }
{
    if !db.is_open() {
        return 0;
    }
    db.as_mut().count()
}

/// Copies rows of the reply into cells, row by row from the first one on, as many whole rows as fit. Returns the number of rows copied.
#[unsafe(no_mangle)]
pub extern "C" fn mmdb_read(db: &mut Handle, first_row: usize, cells: &mut [Cell]) -> usize
    ensures { OnOpen (Reads first_row cells.old cells.new result) ((result ≡ 0) × (cells.new ≡ cells.old)) (held db.old) (held db.new) }
{
    if !db.is_open() {
        return 0;
    }
    db.as_mut().read(first_row, cells)
}

/// Copies as many bytes of the reply's text as fit, and writes its full length. Returns `DONE`, the number of `Memory`, or `MISUSE` if the
/// handle is closed. If it fails, nothing is written.
#[unsafe(no_mangle)]
pub extern "C" fn mmdb_text(
    alloc: Global,
    db: &mut Handle,
    bytes: &mut [u8],
    length: &mut usize,
) -> u8
    ensures { OnOpen (TellsText bytes.old bytes.new length.old length.new result)
        ((result ≡ misuse) × (bytes.new ≡ bytes.old) × (length.new ≡ length.old)) (held db.old) (held db.new) }
{
    if !db.is_open() {
        return MISUSE;
    }
    db.as_mut().text(alloc, bytes, length)
}

/// Returns the number of rows that all calls changed, modulo 2^64: 0 if the handle is closed.
#[unsafe(no_mangle)]
pub extern "C" fn mmdb_total_changes(db: &mut Handle) -> u64
    ensures { OnOpen (TellsChanges result) (result ≡ 0) (held db.old) (held db.new) }
{
    if !db.is_open() {
        return 0;
    }
    db.as_mut().total_changes()
}
