//! The exported calls about lines, scripts, columns to append and transactions.
ghost use Rattle.std.specs.Prelude.{◌≡◌, false};
ghost use Rattle.mmdb_c.specs.Lent.{held};
ghost use Rattle.mmdb_c.specs.Appending.{AppendsColumns};
ghost use Rattle.mmdb_c.specs.Calls.{Executes, FindsPlace, InTransaction, OnOpen, ReleasesName, TellsColumns};
ghost use Rattle.mmdb_c.specs.Loading.{LoadsScript};
ghost use Rattle.mmdb_c.specs.Statuses.{misuse};

use crate::column::ColumnCell;
use crate::handle::Handle;
use crate::status::MISUSE;
use mm_session::ColumnArray;
use std::alloc::Global;

/// Executes a line, stores the reply, and returns its status. Returns `MISUSE` if the handle is closed.
#[unsafe(no_mangle)]
pub extern "C" fn mmdb_execute(alloc: Global, db: &mut Handle, line: &[u8]) -> u8
    ensures { OnOpen (Executes line.now result) (result ≡ misuse) (held db.old) (held db.new) }
{
    if !db.is_open() {
        return MISUSE;
    }
    db.as_mut().execute(alloc, line)
}

/// Executes the lines of a script one after another, up to the first that is refused, and writes the number of lines before it. Stores the
/// reply to the last line. Returns `DONE`, the number of the refusal, or `MISUSE` if the handle is closed.
#[unsafe(no_mangle)]
pub extern "C" fn mmdb_load(alloc: Global, db: &mut Handle, script: &[u8], lines: &mut usize) -> u8
    ensures { OnOpen (LoadsScript script.now lines.new result) ((result ≡ misuse) × (lines.new ≡ 0)) (held db.old) (held db.new) }
{
    *lines = 0;
    if !db.is_open() {
        return MISUSE;
    }
    db.as_mut().load(alloc, script, lines)
}

/// Inserts the rows of columns into the table with a name, all or none, and stores the reply, which is that of the INSERT of these rows.
/// Returns the status of the reply. Returns `MISUSE` if the arrays are not columns of rows or the handle is closed; nothing changes then.
#[unsafe(no_mangle)]
pub extern "C" fn mmdb_append(
    alloc: Global,
    db: &mut Handle,
    table: &[u8],
    columns: &[ColumnArray<'_>],
) -> u8
    ensures { OnOpen (AppendsColumns table.now columns.now result) (result ≡ misuse) (held db.old) (held db.new) }
{
    if !db.is_open() {
        return MISUSE;
    }
    db.as_mut().append(alloc, table, columns)
}

/// Writes as many columns of the rows that a line returns as fit, and the number of all of them: 0 if it returns no rows. The line may
/// have holes. Returns `DONE`, the number of a refusal, or `MISUSE` if the handle is closed. If it fails, nothing is written.
#[unsafe(no_mangle)]
pub extern "C" fn mmdb_columns(
    alloc: Global,
    db: &mut Handle,
    line: &[u8],
    columns: &mut [ColumnCell],
    count: &mut usize,
) -> u8
    ensures { OnOpen (TellsColumns line.now columns.old columns.new count.old count.new result)
        ((result ≡ misuse) × (columns.new ≡ columns.old) × (count.new ≡ count.old)) (held db.old) (held db.new) }
{
    if !db.is_open() {
        return MISUSE;
    }
    db.as_mut().columns(alloc, line, columns, count)
}

/// Returns the byte offset in a line to show in the message of a refusal, as [`mm_session::Session::place_of_refusal`] does: a hint, and at
/// most the length of the line. Returns 0 if the status is no refusal or the handle is closed.
#[unsafe(no_mangle)]
pub extern "C" fn mmdb_place(alloc: Global, db: &mut Handle, line: &[u8], status: u8) -> usize
    ensures { OnOpen (FindsPlace line.now status result) (result ≡ 0) (held db.old) (held db.new) }
{
    if !db.is_open() {
        return 0;
    }
    db.as_mut().place(alloc, line, status)
}

/// Returns whether a transaction is open: false if the handle is closed.
#[unsafe(no_mangle)]
pub extern "C" fn mmdb_in_transaction(db: &mut Handle) -> bool
    ensures { OnOpen (InTransaction result) (result ≡ false) (held db.old) (held db.new) }
{
    db.is_open() && db.as_mut().is_in_transaction()
}

/// Releases the latest savepoint with a name, and all savepoints set after it. Returns `DONE`, the number of a refusal, or `MISUSE` if the
/// handle is closed. If it fails, nothing changes.
#[unsafe(no_mangle)]
pub extern "C" fn mmdb_release(db: &mut Handle, name: &[u8]) -> u8
    ensures { OnOpen (ReleasesName name.now result) (result ≡ misuse) (held db.old) (held db.new) }
{
    if !db.is_open() {
        return MISUSE;
    }
    db.as_mut().release(name)
}
