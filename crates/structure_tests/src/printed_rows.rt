//! The text of rows.
use crate::assertions::{assert_same, assert_that};
use crate::samples::text;
use mm_value::{Refusal, Row, Value, Watched, write_row};
use std::alloc::Global;
use std::process::Abort;
use std::test::Fail;

/// Appends two numbers and two texts with quotes.
fn push_four(alloc: Global, values: &mut Vec<Value>) -> Result<(), Refusal> {
    values.push(Value::Int(1))?;
    values.push(Value::Int(i64::MIN))?;
    values.push(text(alloc, b"'")?)?;
    values.push(text(alloc, b"it's '\xc3\xa9\xff'")?)?;
    Ok(())
}

/// Returns the row of two numbers and two texts with quotes.
fn row_of_four(alloc: Global) -> Result<Row, Refusal> {
    let mut values = Vec::new(alloc);
    push_four(alloc, &mut values)?;
    Ok(Row::new(values))
}

/// Asserts the bytes of a row's text.
fn assert_written(rt: &(impl Abort + AllocGlobal), row: &Row, want: &[u8]) {
    let mut out = Vec::new(rt.alloc());
    let mut writer = Watched::new(&mut out);
    assert_that(rt, write_row(row.values(), &mut writer).is_ok());
    assert_that(rt, !writer.failed());
    assert_same(rt, out.as_slice(), want);
}

#[test]
fn rows_are_written(rt: HostRuntime) -> Result<(), Fail> {
    let row = row_of_four(rt.alloc())?;
    assert_written(
        &rt,
        &row,
        b"(1, -9223372036854775808, '''', 'it''s ''\xc3\xa9\xff''')",
    );
    Ok(())
}

/// Asserts the text of a name and a number that is written from references to them, and that no values have an empty text.
fn assert_written_from_references(
    rt: &(impl Abort + AllocGlobal),
    name: &Value,
    number: &Value,
    want: &[u8],
) {
    let mut out = Vec::new(rt.alloc());
    let mut writer = Watched::new(&mut out);
    assert_that(rt, write_row(&[name, number, name], &mut writer).is_ok());
    assert_that(rt, write_row::<&Value, _>(&[], &mut writer).is_ok());
    assert_that(rt, !writer.failed());
    assert_same(rt, out.as_slice(), want);
}

#[test]
fn a_row_is_written_from_references(rt: HostRuntime) -> Result<(), Fail> {
    let name = text(rt.alloc(), b"it's")?;
    assert_written_from_references(&rt, &name, &Value::Int(-7), b"('it''s', -7, 'it''s')()");
    Ok(())
}

#[test]
fn an_empty_row_is_written(rt: HostRuntime) {
    let row = Row::new(Vec::new(rt.alloc()));
    assert_written(&rt, &row, b"()");
}
