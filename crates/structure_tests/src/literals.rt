//! Literals and their readings.
use crate::assertions::{assert_same, assert_that};
use crate::samples::{is_equal, text};
use mm_value::{Refusal, Value, literals_are_exact, read_literal};
use std::alloc::Global;
use std::process::Abort;
use std::test::Fail;

/// Asserts that the bytes of a literal read as a number.
fn assert_number(rt: &(impl Abort + AllocGlobal), bytes: &[u8], want: i64) -> Result<(), Refusal> {
    let value = read_literal(rt.alloc(), bytes)?;
    assert!(rt; is_equal(&value, &Value::Int(want)), "{want}");
    Ok(())
}

/// Asserts the readings of numbers.
fn assert_numbers(rt: &(impl Abort + AllocGlobal)) -> Result<(), Refusal> {
    for (bytes, want) in [
        (b"-00".as_slice(), 0i64),
        (b"007".as_slice(), 7),
        (b"9223372036854775807".as_slice(), i64::MAX),
        (b"-9223372036854775808".as_slice(), i64::MIN),
        (b"00000000000000000000000000000000000012".as_slice(), 12),
    ] {
        assert_number(rt, bytes, want)?;
    }
    Ok(())
}

#[test]
fn literals_are_read(rt: HostRuntime) -> Result<(), Fail> {
    assert_numbers(&rt)?;
    for (bytes, want) in [
        (b"''".as_slice(), b"".as_slice()),
        (b"''''".as_slice(), b"'".as_slice()),
        (b"'a''b'".as_slice(), b"a'b".as_slice()),
        (b"'\xff -- \x00'".as_slice(), b"\xff -- \x00".as_slice()),
    ] {
        assert_that(&rt, is_text_of(rt.alloc(), bytes, want)?);
    }
    literals_are_exact();
    Ok(())
}

/// Returns whether bytes read as the text of other bytes.
fn is_text_of(alloc: Global, bytes: &[u8], want: &[u8]) -> Result<bool, Refusal> {
    let value = read_literal(alloc, bytes)?;
    Ok(is_equal(&value, &text(alloc, want)?))
}

/// Sixty-four letters in quotes.
const LONGEST: &[u8] = b"'xxxxxxxxxxxxxxxxxxxxxxxxxxxxxxxxxxxxxxxxxxxxxxxxxxxxxxxxxxxxxxxx'";

/// Sixty-four letters in quotes, followed by one quote, and by two.
const ONE_QUOTE_BEHIND: &[u8] =
    b"'xxxxxxxxxxxxxxxxxxxxxxxxxxxxxxxxxxxxxxxxxxxxxxxxxxxxxxxxxxxxxxxx''";

const TWO_QUOTES_BEHIND: &[u8] =
    b"'xxxxxxxxxxxxxxxxxxxxxxxxxxxxxxxxxxxxxxxxxxxxxxxxxxxxxxxxxxxxxxxx'''";

#[test]
fn texts_have_64_bytes_at_most(rt: HostRuntime) -> Result<(), Fail> {
    let alloc = rt.alloc();
    assert_that(&rt, is_text_of(alloc, LONGEST, &[b'x'; 64])?);
    assert_same(&rt, refusal(alloc, ONE_QUOTE_BEHIND), Some(Refusal::Syntax));
    assert_same(
        &rt,
        refusal(alloc, TWO_QUOTES_BEHIND),
        Some(Refusal::TextTooLong),
    );
    Ok(())
}

fn refusal(alloc: Global, bytes: &[u8]) -> Option<Refusal> {
    read_literal(alloc, bytes).err()
}

#[test]
fn other_bytes_are_refused(rt: HostRuntime) {
    for bytes in [
        b"".as_slice(),
        b"'".as_slice(),
        b"'a''".as_slice(),
        b"'a' ".as_slice(),
        b"'a'b'".as_slice(),
        b"'a\n'".as_slice(),
        b"- 5".as_slice(),
        b"-".as_slice(),
        b"--5".as_slice(),
        b"+5".as_slice(),
        b"1a".as_slice(),
        b"99999999999999999999a".as_slice(),
    ] {
        assert_same(&rt, refusal(rt.alloc(), bytes), Some(Refusal::Syntax));
    }
    for bytes in [
        b"9223372036854775808".as_slice(),
        b"-9223372036854775809".as_slice(),
        b"18446744073709551616".as_slice(),
        b"-18446744073709551617".as_slice(),
    ] {
        assert_same(
            &rt,
            refusal(rt.alloc(), bytes),
            Some(Refusal::NumberOutOfRange),
        );
    }
}
