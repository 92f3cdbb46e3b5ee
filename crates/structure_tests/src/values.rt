//! Values: hashes and prefixes computed elsewhere, and copies.
use crate::assertions::{assert_same, assert_that};
use crate::samples::{is_equal, text};
use mm_value::{
    ColType, MAX_TEXT_BYTES, Refusal, Row, Text, Value, hash64, order_prefix, orders_are_total,
    prefixes_keep_order,
};
use std::alloc::Global;
use std::process::Abort;
use std::test::Fail;

/// Asserts the hash of the text of these bytes.
fn assert_hash(rt: &(impl Abort + AllocGlobal), bytes: &[u8], want: u64) -> Result<(), Fail> {
    let value = text(rt.alloc(), bytes)?;
    assert_same(rt, hash64(&value), want);
    Ok(())
}

/// Asserts the hashes of numbers.
fn assert_hashes_of_numbers(rt: &impl Abort) {
    for (number, want) in [
        (1i64, 0xa8c7f732281a3812u64),
        (0, 0xa8c7f832281a39c5),
        (-1, 0x8cf51a8bfca3883d),
        (i64::MIN, 0x262b7cb79fbf4a45),
        (i64::MAX, 0x2338a5f81f5ba4bd),
    ] {
        assert_same(rt, hash64(&Value::Int(number)), want);
    }
}

#[test]
fn hashes_are_fnv_1a(rt: HostRuntime) -> Result<(), Fail> {
    for (bytes, want) in [
        (b"".as_slice(), 0xcbf29ce484222325u64),
        (b"a".as_slice(), 0xaf63dc4c8601ec8c),
        (b"foobar".as_slice(), 0x85944171f73967e8),
    ] {
        assert_hash(&rt, bytes, want)?;
    }
    assert_hashes_of_numbers(&rt);
    Ok(())
}

#[test]
fn prefixes_of_numbers_are_clipped(rt: HostRuntime) -> Result<(), Fail> {
    for (number, want) in [
        (i64::MIN, 0u64),
        (-0x4000000000000001, 0),
        (-0x4000000000000000, 0),
        (-0x3fffffffffffffff, 1),
        (-1, 0x3fffffffffffffff),
        (0, 0x4000000000000000),
        (0x3fffffffffffffff, 0x7fffffffffffffff),
        (0x4000000000000000, 0x7fffffffffffffff),
        (i64::MAX, 0x7fffffffffffffff),
    ] {
        assert_same(&rt, order_prefix(&Value::Int(number)), want);
    }
    Ok(())
}

/// Asserts the prefix of the text of these bytes.
fn assert_prefix(rt: &(impl Abort + AllocGlobal), bytes: &[u8], want: u64) -> Result<(), Fail> {
    let value = text(rt.alloc(), bytes)?;
    assert_same(rt, order_prefix(&value), want);
    Ok(())
}

#[test]
fn prefixes_of_texts_have_eight_bytes(rt: HostRuntime) -> Result<(), Fail> {
    for (bytes, want) in [
        (b"".as_slice(), 0x8000000000000000u64),
        (b"\x00", 0x8000000000000000),
        (b"\x01", 0x8080000000000000),
        (b"abcdefgh", 0xb0b131b232b333b4),
        // The last bit of the eighth byte is lost, and so are all later bits.
        (b"abcdefgi", 0xb0b131b232b333b4),
        (b"abcdefgj", 0xb0b131b232b333b5),
        (b"abcdefghijkl", 0xb0b131b232b333b4),
        (b"\xff\xff\xff\xff\xff\xff\xff\xff", 0xffffffffffffffff),
    ] {
        assert_prefix(&rt, bytes, want)?;
    }
    prefixes_keep_order();
    Ok(())
}

/// Returns a text of the greatest length.
fn longest(alloc: Global) -> Result<Text, Refusal> {
    let bytes = [b'x'; MAX_TEXT_BYTES];
    Text::new(alloc, &bytes)
}

/// Asserts that a text has 64 bytes, and that a copy of it has the same.
fn assert_text_copied(rt: &(impl Abort + AllocGlobal), text: &Text) -> Result<(), Fail> {
    assert_same(rt, text.bytes().len(), 64);
    let copy = text.copy(rt.alloc())?;
    assert_same(rt, copy.bytes(), text.bytes());
    Ok(())
}

#[test]
fn a_copy_of_a_text_is_equal(rt: HostRuntime) -> Result<(), Fail> {
    let text = longest(rt.alloc())?;
    assert_text_copied(&rt, &text)
}

/// Asserts that a value is a text, and that a copy of it is equal.
fn assert_value_copied(rt: &(impl Abort + AllocGlobal), value: &Value) -> Result<(), Fail> {
    assert_that(rt, value.col_type() == ColType::Text);
    let copy = value.copy(rt.alloc())?;
    assert_that(rt, is_equal(&copy, value));
    Ok(())
}

#[test]
fn a_copy_of_a_value_is_equal(rt: HostRuntime) -> Result<(), Fail> {
    let value = Value::Text(longest(rt.alloc())?);
    assert_value_copied(&rt, &value)
}

/// Returns the row of a number and the longest text.
fn row_of_two(alloc: Global) -> Result<Row, Refusal> {
    let mut values = Vec::new(alloc);
    values.push(Value::Int(7))?;
    values.push(Value::Text(longest(alloc)?))?;
    Ok(Row::new(values))
}

/// Asserts that two rows have the same two values.
fn assert_same_rows(rt: &impl Abort, row: &Row, copy: &Row) {
    assert_same(rt, copy.len(), 2);
    for (a, b) in row.values().iter().zip(copy.values()) {
        assert_that(rt, is_equal(a, b));
    }
}

/// Asserts that a copy of a row of two values has the same values.
fn assert_row_copied(rt: &(impl Abort + AllocGlobal), row: &Row) -> Result<(), Fail> {
    let copy = row.copy(rt.alloc())?;
    assert_same_rows(rt, row, &copy);
    Ok(())
}

#[test]
fn a_copy_of_a_row_is_equal(rt: HostRuntime) -> Result<(), Fail> {
    let row = row_of_two(rt.alloc())?;
    assert_row_copied(&rt, &row)
}

#[test]
fn orders_have_their_laws(_rt: HostRuntime) -> Result<(), Fail> {
    orders_are_total();
    Ok(())
}
