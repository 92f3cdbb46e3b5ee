//! The text of replies.
use crate::assertions::{assert_same, assert_that};
use mm_lang::write_reply;
use mm_query::{Reply, RowList};
use mm_value::{Few, Refusal, Tuple, Value, Watched};
use std::alloc::{AllocError, Global};
use std::process::Abort;
use std::test::Fail;

fn two_rows(alloc: Global) -> Result<RowList, AllocError> {
    let first = Tuple::copy_of(alloc, &[Value::Int(1), Value::Int(5)])?;
    let second = Tuple::copy_of(alloc, &[Value::Int(2), Value::Int(5)])?;
    let rows = vec![in alloc; first, second]?;
    Ok(RowList::new(Few::from_vec(rows)))
}

/// Asserts the text of a reply.
fn expect_written(rt: &(impl Abort + AllocGlobal), reply: &Reply, text: &str) -> Result<(), Fail> {
    let mut written: Vec<u8> = Vec::new(rt.alloc());
    write_reply(reply, &mut Watched::new(&mut written))?;
    assert_same(rt, written.as_slice(), text.as_bytes());
    Ok(())
}

/// Asserts the text of a reply that is passed by value.
fn expect_text(rt: &(impl Abort + AllocGlobal), reply: Reply, text: &str) -> Result<(), Fail> {
    let outcome = expect_written(rt, &reply, text);
    // Dropped in a call, so that this is proved once.
    drop(reply);
    outcome
}

#[test]
fn writes_each_reply(rt: HostRuntime) -> Result<(), Fail> {
    expect_text(&rt, Reply::Done, "ok\n")?;
    expect_text(&rt, Reply::Count(2), "ok 2\n")?;
    let rows = two_rows(rt.alloc())?;
    expect_text(&rt, Reply::Rows(rows), "(1, 5)\n(2, 5)\nrows 2\n")?;
    let no_rows = RowList::new(Few::from_vec(Vec::new(rt.alloc())));
    expect_text(&rt, Reply::Rows(no_rows), "rows 0\n")?;
    let refused = Reply::Refused(Refusal::DuplicateKey);
    expect_text(&rt, refused, "error 40 duplicate key\n")?;
    let refused = Reply::Refused(Refusal::NoSuchSavepoint);
    expect_text(&rt, refused, "error 53 no such savepoint\n")
}

/// Asserts that rows are written up to the end of a device of four bytes.
fn expect_stop(rt: &impl Abort, rows: RowList) {
    let mut room = [0; 4];
    let mut writer = Watched::new(&mut room[..]);
    assert_that(rt, write_reply(&Reply::Rows(rows), &mut writer).is_err());
    assert_that(rt, writer.failed());
    assert_same(rt, room.as_slice(), b"(1, ".as_slice());
}

#[test]
fn stops_at_a_full_device(rt: HostRuntime) -> Result<(), Fail> {
    expect_stop(&rt, two_rows(rt.alloc())?);
    Ok(())
}
