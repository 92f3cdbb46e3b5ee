//! Partitions of rows, and the prefixes of a column.
ghost use Rattle.std.specs.Prelude.{◌≡◌, ◌≤◌, ◌∷◌, [], List, IfOk, OnOk};
ghost use Rattle.mm_value.specs.declared.col_type.ColType.TheVariants.{Text as OfText};
ghost use Rattle.mm_partition.specs.Places.{IsLive, IsUnchanged};
ghost use Rattle.mm_partition.specs.Types.{HasTypes};

use crate::assertions::{assert_same, assert_that};
use crate::growths::asked_again;
use mm_partition::{ColumnKeys, Partitions, RowView};
use mm_value::{ColType, Refusal, Row, RowRef, Text, Value, ValueRef};
use std::alloc::Global;
use std::process::Abort;
use std::test::Fail;

/// Returns the row of a text.
fn row_of(alloc: Global, text: &[u8]) -> Result<Row, Refusal>
    ensures { IfOk result (HasTypes (OfText ∷ [])) }
{
    let mut values = Vec::with_capacity(alloc, 1)?;
    values.push(Value::Text(Text::new(alloc, text)?))?;
    Ok(Row::new(values))
}

/// Inserts the row of `a`, and returns its reference.
fn place_a(alloc: Global, rows: &mut Partitions) -> Result<RowRef, Refusal>
    requires { rows.old.types ≡ OfText ∷ [] }
    ensures live { IfOk result (IsLive rows.new) }
    ensures types { rows.new.types ≡ rows.old.types }
{
    let row = row_of(alloc, b"a")?;
    rows.reserve(alloc, 1)?;
    row.is_storable();
    Ok(rows.place(row.into_values().as_mut_slice()))
}

/// Returns whether a row is that of a text.
fn is_row_of(row: RowView<'_>, text: &[u8]) -> bool {
    match row.get(0) {
        Some(ValueRef::Text(found)) => row.len() == 1 && found.bytes() == text,
        _ => false,
    }
}

/// Returns the prefixes of the first column, if they are kept.
fn prefixes_in(rows: &Partitions) -> Option<&[u64]> {
    match rows.keys(0) {
        ColumnKeys::Prefixes(prefixes) => Some(prefixes),
        _ => None,
    }
}

/// Asserts that the column is tracked, and the row of `a` is the only one.
fn assert_a(rt: &impl Abort, rows: &Partitions, first: RowRef)
    requires { IsLive rows.now first }
{
    assert_same(rt, rows.extent(), 1);
    assert_that(rt, is_row_of(rows.get(first), b"a"));
    assert_same(rt, prefixes_in(rows), Some(&[0xb080000000000000u64]));
}

/// Reserves capacity for 200 more rows and their prefixes, besides the row of `a`.
fn reserve(
    rt: &(impl Abort + AllocGlobal + Print),
    rows: &mut Partitions,
    first: RowRef,
) -> Result<(), Fail>
    requires { IsLive rows.old first }
    ensures room { OnOk result (200 ≤ rows.new.room) }
    ensures rows { IsUnchanged rows.old rows.new }
    ensures types { rows.new.types ≡ rows.old.types }
{
    if rows.reserve(rt.alloc(), 200).is_err() {
        asked_again(rt)?;
        assert_a(rt, rows, first);
        rows.reserve(rt.alloc(), 200)?;
    }
    Ok(())
}

/// Inserts the row of `b` after that of `a`, after reserving capacity for it.
fn place_b(
    rt: &(impl Abort + AllocGlobal + Print),
    rows: &mut Partitions,
    first: RowRef,
    b: Row,
) -> Result<(), Fail>
    requires live { IsLive rows.old first }
    requires typed { HasTypes rows.old.types b }
{
    reserve(rt, rows, first)?;
    b.is_storable();
    let second = rows.place(b.into_values().as_mut_slice());
    assert_that(rt, is_row_of(rows.get(first), b"a"));
    assert_that(rt, is_row_of(rows.get(second), b"b"));
    assert_same(
        rt,
        prefixes_in(rows),
        Some(&[0xb080000000000000u64, 0xb100000000000000]),
    );
    Ok(())
}

/// Inserts the rows of `a` and `b` into rows whose column is tracked, and reserves capacity in between.
fn reserve_between(
    rt: &(impl Abort + AllocGlobal + Print),
    rows: &mut Partitions,
) -> Result<(), Fail>
    requires { rows.old.types ≡ OfText ∷ [] }
{
    let Ok(first) = place_a(rt.alloc(), rows) else {
        return Ok(());
    };
    if rows.track(rt.alloc(), 0).is_err() {
        return Ok(());
    }
    match row_of(rt.alloc(), b"b") {
        Ok(b) => place_b(rt, rows, first, b),
        Err(_) => Ok(()),
    }
}

#[test]
fn reserve_growths(rt: HostRuntime) -> Result<(), Fail> {
    match Partitions::new(rt.alloc(), &[ColType::Text]) {
        Ok(mut rows) => reserve_between(&rt, &mut rows),
        Err(_) => Ok(()),
    }
}

/// Tracks the column of the row of `a`, again if an allocation fails.
fn track_a(rt: &(impl Abort + AllocGlobal + Print), rows: &mut Partitions) -> Result<(), Fail>
    requires { rows.old.types ≡ OfText ∷ [] }
{
    let Ok(first) = place_a(rt.alloc(), rows) else {
        return Ok(());
    };
    if rows.track(rt.alloc(), 0).is_err() {
        asked_again(rt)?;
        assert_that(rt, prefixes_in(rows).is_none());
        assert_that(rt, is_row_of(rows.get(first), b"a"));
        rows.track(rt.alloc(), 0)?;
    }
    assert_same(rt, prefixes_in(rows), Some(&[0xb080000000000000u64]));
    assert_that(rt, is_row_of(rows.get(first), b"a"));
    Ok(())
}

#[test]
fn track_growths(rt: HostRuntime) -> Result<(), Fail> {
    match Partitions::new(rt.alloc(), &[ColType::Text]) {
        Ok(mut rows) => track_a(&rt, &mut rows),
        Err(_) => Ok(()),
    }
}
