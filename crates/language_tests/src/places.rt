//! The places in a line that error messages show.
use crate::assertions::assert_same;
use mm_lang::{names_in, place_of_limit, place_of_syntax_error};
use std::process::Abort;
use std::test::Fail;

#[test]
fn syntax_errors_stand_where_reading_stops(rt: HostRuntime) {
    let place_in = |line: &[u8]| place_of_syntax_error(rt.alloc(), line);
    assert_same(&rt, place_in(b"SCAN"), 4);
    assert_same(&rt, place_in(b"SCAN t u"), 7);
    assert_same(&rt, place_in(b"  insert t (1)"), 2);
    assert_same(&rt, place_in(b"INSERT t (1, )"), 13);
    assert_same(&rt, place_in(b"SELECT a.x FROM t a WHERE a.x = "), 32);
}

#[test]
fn limits_stand_at_their_literals(rt: HostRuntime) {
    let place_in = |line: &[u8]| place_of_limit(rt.alloc(), line);
    assert_same(&rt, place_in(b"INSERT t (1, 9223372036854775808, 2)"), 13);
    assert_same(&rt, place_in(b"INSERT t (1, 2)"), 0);
}

#[test]
fn names_have_places(rt: HostRuntime) -> Result<(), Fail> {
    let names = names_in(rt.alloc(), b"DELETE t WHERE  k_1 = 5")?;
    let places = names.iter().map(|found| found.place);
    assert!(rt; places.eq([7, 16]));
    Ok(())
}
