//! Values and rows. Their texts exceed the 16 bytes that are stored inline.
use crate::assertions::{assert_same, assert_that};
use crate::growths::asked_again;
use crate::samples::{is_equal, text};
use mm_value::{Refusal, Row, Text, Value, read_literal};
use std::alloc::{AllocError, Global};
use std::process::Abort;
use std::test::Fail;

/// Writes that a call failed, and asserts that it failed with `Memory`.
fn assert_no_memory(rt: &(impl Abort + Print), refusal: Refusal) -> Result<(), Fail> {
    asked_again(rt)?;
    assert_same(rt, refusal, Refusal::Memory);
    Ok(())
}

/// Returns the text of these bytes, again if an allocation fails.
fn text_again(rt: &(impl Abort + AllocGlobal + Print), bytes: &[u8]) -> Result<Text, Fail> {
    match Text::new(rt.alloc(), bytes) {
        Ok(made) => Ok(made),
        Err(refusal) => {
            assert_no_memory(rt, refusal)?;
            Ok(Text::new(rt.alloc(), bytes)?)
        }
    }
}

#[test]
fn text_growths(rt: HostRuntime) -> Result<(), Fail> {
    let made = text_again(&rt, b"seventeen letters")?;
    assert_same(&rt, made.bytes(), b"seventeen letters".as_slice());
    Ok(())
}

/// Returns a copy of a text, again if an allocation fails.
fn copy_again(rt: &(impl Abort + AllocGlobal + Print), text: &Text) -> Result<Text, Fail> {
    match text.copy(rt.alloc()) {
        Ok(copy) => Ok(copy),
        Err(AllocError) => {
            asked_again(rt)?;
            Ok(text.copy(rt.alloc())?)
        }
    }
}

/// Asserts that a copy of a text has the text's bytes.
fn assert_text_copied(rt: &(impl Abort + AllocGlobal + Print), first: &Text) -> Result<(), Fail> {
    let copy = copy_again(rt, first)?;
    assert_same(rt, copy.bytes(), b"seventeen letters".as_slice());
    assert_same(rt, first.bytes(), b"seventeen letters".as_slice());
    Ok(())
}

#[test]
fn text_copy_growths(rt: HostRuntime) -> Result<(), Fail> {
    match Text::new(rt.alloc(), b"seventeen letters") {
        Ok(first) => assert_text_copied(&rt, &first),
        Err(_) => Ok(()),
    }
}

/// Returns a copy of a value, again if an allocation fails.
fn copy_value_again(rt: &(impl Abort + AllocGlobal + Print), value: &Value) -> Result<Value, Fail> {
    match value.copy(rt.alloc()) {
        Ok(copy) => Ok(copy),
        Err(AllocError) => {
            asked_again(rt)?;
            Ok(value.copy(rt.alloc())?)
        }
    }
}

/// Asserts that a copy of a value is equal to it.
fn assert_value_copied(rt: &(impl Abort + AllocGlobal + Print), first: &Value) -> Result<(), Fail> {
    let copy = copy_value_again(rt, first)?;
    assert_that(rt, is_equal(&copy, first));
    Ok(())
}

#[test]
fn value_copy_growths(rt: HostRuntime) -> Result<(), Fail> {
    match text(rt.alloc(), b"seventeen letters") {
        Ok(first) => assert_value_copied(&rt, &first),
        Err(_) => Ok(()),
    }
}

/// Returns a row of 7 and two long texts.
fn row(alloc: Global) -> Result<Row, Refusal> {
    let mut values = Vec::with_capacity(alloc, 3)?;
    values.push(Value::Int(7))?;
    values.push(text(alloc, b"seventeen letters")?)?;
    values.push(text(alloc, b"eighteen letters, ok")?)?;
    Ok(Row::new(values))
}

/// Returns whether two rows have the same values.
fn is_same(a: &Row, b: &Row) -> bool {
    a.len() == b.len()
        && a.values()
            .iter()
            .zip(b.values())
            .all(|(a, b)| is_equal(a, b))
}

/// Returns a copy of a row, again if an allocation fails; then the row still equals another one.
fn copy_row_again(
    rt: &(impl Abort + AllocGlobal + Print),
    row: &Row,
    same: &Row,
) -> Result<Row, Fail> {
    match row.copy(rt.alloc()) {
        Ok(copy) => Ok(copy),
        Err(AllocError) => {
            asked_again(rt)?;
            assert_that(rt, is_same(row, same));
            Ok(row.copy(rt.alloc())?)
        }
    }
}

/// Asserts that a copy of a row equals another row that equals the row.
fn assert_row_copied(
    rt: &(impl Abort + AllocGlobal + Print),
    first: &Row,
    same: &Row,
) -> Result<(), Fail> {
    let copy = copy_row_again(rt, first, same)?;
    assert_that(rt, is_same(&copy, same));
    Ok(())
}

#[test]
fn row_copy_growths(rt: HostRuntime) -> Result<(), Fail> {
    match (row(rt.alloc()), row(rt.alloc())) {
        (Ok(first), Ok(same)) => assert_row_copied(&rt, &first, &same),
        _ => Ok(()),
    }
}

/// Returns the reading of a literal, again if an allocation fails.
fn read_again(rt: &(impl Abort + AllocGlobal + Print), bytes: &[u8]) -> Result<Value, Fail> {
    match read_literal(rt.alloc(), bytes) {
        Ok(read) => Ok(read),
        Err(refusal) => {
            assert_no_memory(rt, refusal)?;
            Ok(read_literal(rt.alloc(), bytes)?)
        }
    }
}

/// Asserts the reading of a literal.
fn assert_read(
    rt: &(impl Abort + AllocGlobal + Print),
    bytes: &[u8],
    want: &Value,
) -> Result<(), Fail> {
    let read = read_again(rt, bytes)?;
    assert_that(rt, is_equal(&read, want));
    Ok(())
}

#[test]
fn literal_growths(rt: HostRuntime) -> Result<(), Fail> {
    match text(rt.alloc(), b"it's 17 bytes' of") {
        Ok(want) => assert_read(&rt, b"'it''s 17 bytes'' of'", &want),
        Err(_) => Ok(()),
    }
}
