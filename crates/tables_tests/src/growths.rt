//! Calls whose allocations fail, as `tests/refused_growths.py` lets them: in each run of a test one allocation, or all from one to the line
//! that reports a failed call. Then the tables are unchanged, and the call is repeated.
//!
//! Any other allocation that fails before that line ends the test, as passed.
ghost use Rattle.std.specs.Prelude.{IfOk};
ghost use Rattle.tables_tests.specs.Samples.{AreSample};

use crate::plain::{PlainRow, assert_records, assert_rows};
use crate::samples::{add_index, change, revert, stage, two_tables};
use mm_schema::IndexKind;
use mm_tables::{Edit, Tables};
use mm_value::RowRef;
use std::alloc::AllocError;
use std::io;
use std::process::Abort;
use std::test::Fail;

/// Writes to standard output that a tested call failed. All later allocations of the run succeed.
fn asked_again(rt: &impl Print) -> io::Result<()> {
    rt.println("refused")
}

/// Tables in an open transaction, and the row that it has inserted.
#[derive(Drop)]
struct Begun {
    tables: Tables,
    row: PlainRow,
}

/// Inserts the row of key 1 and digit 5 into the first table.
fn fill(rt: &(impl Abort + AllocGlobal), tables: &mut Tables) -> Result<RowRef, AllocError>
    requires { AreSample tables.old }
    ensures { AreSample tables.new }
{
    let at = stage(tables, rt.alloc(), 0, 1, 5)?;
    change(rt, tables, 0, Edit::Insert(at))?;
    Ok(at)
}

/// Returns a transaction that has inserted the row of key 1 into the first table.
fn begin(rt: &(impl Abort + AllocGlobal)) -> Result<Begun, AllocError>
    ensures { IfOk result (λ begun. AreSample begun.tables) }
{
    let mut tables = two_tables(rt.alloc())?;
    let at = fill(rt, &mut tables)?;
    let row = PlainRow {
        second: false,
        at,
        key: 1,
        digit: 5,
    };
    Ok(Begun { tables, row })
}

/// Asserts that the tables and the log are as the transaction left them.
fn assert_begun(rt: &impl Abort, begun: &Begun)
    requires { AreSample begun.now.tables }
{
    assert_rows(rt, &begun.tables, &[begun.row]);
    assert_records(rt, &begun.tables, 2);
}

/// Undoes the transaction, and asserts that no rows remain.
fn undo(rt: &impl Abort, begun: &mut Begun)
    requires { AreSample begun.old.tables }
{
    revert(rt, &mut begun.tables, 0);
    assert_rows(rt, &begun.tables, &[]);
    assert_records(rt, &begun.tables, 0);
}

/// Reserves capacity for 200 rows and edits, again if an allocation fails.
fn reserve_again(rt: &(impl Abort + AllocGlobal + Print), begun: &mut Begun) -> Result<(), Fail>
    requires { AreSample begun.old.tables }
    ensures { AreSample begun.new.tables }
{
    if begun.tables.reserve(rt.alloc(), 0, 200, 200).is_err() {
        asked_again(rt)?;
        assert_begun(rt, begun);
        begun.tables.reserve(rt.alloc(), 0, 200, 200)?;
    }
    Ok(())
}

#[test]
fn reserve_growths(rt: HostRuntime) -> Result<(), Fail> {
    let Ok(mut begun) = begin(&rt) else {
        return Ok(());
    };
    reserve_again(&rt, &mut begun)?;
    assert_begun(&rt, &begun);
    undo(&rt, &mut begun);
    Ok(())
}

/// Reserves capacity for 200 records of the log, again if the allocation fails.
fn reserve_log_again(rt: &(impl Abort + AllocGlobal + Print), begun: &mut Begun) -> Result<(), Fail>
    requires { AreSample begun.old.tables }
    ensures { AreSample begun.new.tables }
{
    if begun.tables.reserve_log(200).is_err() {
        asked_again(rt)?;
        assert_begun(rt, begun);
        begun.tables.reserve_log(200)?;
    }
    Ok(())
}

#[test]
fn reserve_log_growths(rt: HostRuntime) -> Result<(), Fail> {
    let Ok(mut begun) = begin(&rt) else {
        return Ok(());
    };
    reserve_log_again(&rt, &mut begun)?;
    assert_begun(&rt, &begun);
    undo(&rt, &mut begun);
    Ok(())
}

/// Appends an index to the first table, again if an allocation fails.
fn add_index_again(
    rt: &(impl Abort + AllocGlobal + Print),
    begun: &mut Begun,
    kind: IndexKind,
) -> Result<(), Fail>
    requires { AreSample begun.old.tables }
    ensures { AreSample begun.new.tables }
{
    if add_index(&mut begun.tables, rt.alloc(), 0, kind).is_err() {
        asked_again(rt)?;
        assert_begun(rt, begun);
        add_index(&mut begun.tables, rt.alloc(), 0, kind)?;
    }
    Ok(())
}

#[test]
fn add_tree_growths(rt: HostRuntime) -> Result<(), Fail> {
    let Ok(mut begun) = begin(&rt) else {
        return Ok(());
    };
    add_index_again(&rt, &mut begun, IndexKind::Tree)?;
    assert_begun(&rt, &begun);
    undo(&rt, &mut begun);
    Ok(())
}

#[test]
fn add_hash_growths(rt: HostRuntime) -> Result<(), Fail> {
    let Ok(mut begun) = begin(&rt) else {
        return Ok(());
    };
    add_index_again(&rt, &mut begun, IndexKind::Hash)?;
    assert_begun(&rt, &begun);
    undo(&rt, &mut begun);
    Ok(())
}
