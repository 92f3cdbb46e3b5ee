//! The exported calls about prepared statements.
ghost use Rattle.std.specs.Prelude.{◌≡◌};
ghost use Rattle.mmdb_c.specs.Calls.{ExplainsCells, OnOpen, Prepares, Queries, RunsCells, RunsRows, TakesStatement};
ghost use Rattle.mmdb_c.specs.Calls.{TellsKind, TellsParameters, TellsStatementColumns};
ghost use Rattle.mmdb_c.specs.Lent.{held};
ghost use Rattle.mmdb_c.specs.Statuses.{misuse};

use crate::cell::Cell;
use crate::column::ColumnCell;
use crate::handle::Handle;
use crate::status::MISUSE;
use std::alloc::Global;

/// Prepares a line, and writes the number of the statement. Returns `DONE`, the number of a refusal, or `MISUSE` if the handle is closed.
/// If it fails, nothing is written.
#[unsafe(no_mangle)]
pub extern "C" fn mmdb_prepare(
    alloc: Global,
    db: &mut Handle,
    line: &[u8],
    statement: &mut usize,
) -> u8
    ensures { OnOpen (Prepares line.now statement.old statement.new result) ((result ≡ misuse) × (statement.new ≡ statement.old)) (held db.old) (held db.new) }
{
    if !db.is_open() {
        return MISUSE;
    }
    db.as_mut().prepare(alloc, line, statement)
}

/// Writes the number of holes of a statement. Returns `DONE`; or `MISUSE` if no statement has the number or the handle is closed, and
/// nothing is written.
#[unsafe(no_mangle)]
pub extern "C" fn mmdb_parameters(db: &mut Handle, statement: usize, count: &mut usize) -> u8
    ensures { OnOpen (TellsParameters statement count.old count.new result) ((result ≡ misuse) × (count.new ≡ count.old)) (held db.old) (held db.new) }
{
    if !db.is_open() {
        return MISUSE;
    }
    db.as_mut().parameters(statement, count)
}

/// Writes the number of a statement's kind. Returns `DONE`; or `MISUSE` if no statement has the number or the handle is closed, and
/// nothing is written.
#[unsafe(no_mangle)]
pub extern "C" fn mmdb_statement_kind(db: &mut Handle, statement: usize, kind: &mut u8) -> u8
    ensures { OnOpen (TellsKind statement kind.old kind.new result) ((result ≡ misuse) × (kind.new ≡ kind.old))
        (held db.old) (held db.new) }
{
    if !db.is_open() {
        return MISUSE;
    }
    db.as_mut().kind(statement, kind)
}

/// Writes as many columns of the rows that a statement returns as fit, and the number of all of them: 0 if it returns no rows. Returns
/// `DONE`, the number of `Memory`, or `MISUSE` if no statement has the number or the handle is closed. If it fails, nothing is written.
#[unsafe(no_mangle)]
pub extern "C" fn mmdb_statement_columns(
    alloc: Global,
    db: &mut Handle,
    statement: usize,
    columns: &mut [ColumnCell],
    count: &mut usize,
) -> u8
    ensures { OnOpen (TellsStatementColumns statement columns.old columns.new count.old count.new result)
        ((result ≡ misuse) × (columns.new ≡ columns.old) × (count.new ≡ count.old)) (held db.old) (held db.new) }
{
    if !db.is_open() {
        return MISUSE;
    }
    db.as_mut()
        .statement_columns(alloc, statement, columns, count)
}

/// Runs a statement with the values of cells, stores the reply, and returns its status. Returns `MISUSE` if no statement has the number,
/// the cells are not values for its holes, or the handle is closed, and the number of `Memory` if the values cannot be copied; nothing
/// changes then.
#[unsafe(no_mangle)]
pub extern "C" fn mmdb_run(alloc: Global, db: &mut Handle, statement: usize, values: &[Cell]) -> u8
    ensures { OnOpen (RunsCells statement values.now result) (result ≡ misuse) (held db.old) (held db.new) }
{
    if !db.is_open() {
        return MISUSE;
    }
    db.as_mut().run(alloc, statement, values)
}

/// Runs a statement as [`mmdb_run`] does, copies rows of the reply as `mmdb_read` does, and writes their number. Returns the status of the
/// run.
#[unsafe(no_mangle)]
pub extern "C" fn mmdb_query(
    alloc: Global,
    db: &mut Handle,
    statement: usize,
    values: &[Cell],
    cells: &mut [Cell],
    rows: &mut usize,
) -> u8
    ensures { OnOpen (Queries statement values.now cells.old cells.new rows.new result)
        ((result ≡ misuse) × (rows.new ≡ 0) × (cells.new ≡ cells.old)) (held db.old) (held db.new) }
{
    *rows = 0;
    if !db.is_open() {
        return MISUSE;
    }
    db.as_mut().query(alloc, statement, values, cells, rows)
}

/// Runs a statement with each row of values, `width` cells a row, up to the first run that fails, and writes the number of runs that
/// succeeded. Returns `DONE`, the status of the run that failed, or `MISUSE` if the width is 0 or the handle is closed.
#[unsafe(no_mangle)]
pub extern "C" fn mmdb_run_many(
    alloc: Global,
    db: &mut Handle,
    statement: usize,
    values: &[Cell],
    width: usize,
    runs: &mut usize,
) -> u8
    ensures { OnOpen (RunsRows statement width runs.new values.now result) ((result ≡ misuse) × (runs.new ≡ 0)) (held db.old) (held db.new) }
{
    *runs = 0;
    if !db.is_open() {
        return MISUSE;
    }
    db.as_mut().run_many(alloc, statement, values, width, runs)
}

/// Explains the query of a statement with the values of cells, stores the reply, and returns its status. Returns `MISUSE` as [`mmdb_run`]
/// does, and if the statement has no query. Returns the number of `Memory` if the values cannot be copied. Nothing changes then.
#[unsafe(no_mangle)]
pub extern "C" fn mmdb_explain(
    alloc: Global,
    db: &mut Handle,
    statement: usize,
    values: &[Cell],
) -> u8
    ensures { OnOpen (ExplainsCells statement values.now result) (result ≡ misuse) (held db.old) (held db.new) }
{
    if !db.is_open() {
        return MISUSE;
    }
    db.as_mut().explain(alloc, statement, values)
}

/// Deletes a statement. Returns `DONE`; or `MISUSE` if no statement has the number or the handle is closed.
#[unsafe(no_mangle)]
pub extern "C" fn mmdb_finalize(db: &mut Handle, statement: usize) -> u8
    ensures { OnOpen (TakesStatement statement result) (result ≡ misuse) (held db.old) (held db.new) }
{
    if !db.is_open() {
        return MISUSE;
    }
    db.as_mut().finalize(statement)
}
