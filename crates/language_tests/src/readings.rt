//! The commands that lines read as.
use crate::assertions::assert_same;
use mm_lang::parse;
use mm_query::Command;
use mm_schema::Name;
use mm_value::Refusal;
use std::process::Abort;
use std::test::Fail;

/// Returns the name of the savepoint that a command sets or rolls back to, and whether it rolls back.
fn savepoint_of<'c>(command: &'c Command<'_>) -> Option<(&'c Name, bool)> {
    match command {
        Command::Savepoint(name) => Some((name, false)),
        Command::RollbackTo(name) => Some((name, true)),
        _other => None,
    }
}

/// Asserts that the command of a line sets the savepoint with a name, or rolls back to it.
fn expect_savepoint(
    rt: &impl Abort,
    command: &Command<'_>,
    line: &[u8],
    name: &[u8],
    goes_back: bool,
) -> Result<(), Fail> {
    let (found, back) = savepoint_of(command).ok_or("no savepoint")?;
    assert_same(rt, found.bytes(), name);
    assert_eq!(rt; back, goes_back, "at {line:?}");
    Ok(())
}

/// Asserts the same for a line.
fn expect_savepoint_of(
    rt: &(impl Abort + AllocGlobal),
    line: &[u8],
    name: &[u8],
    goes_back: bool,
) -> Result<(), Fail> {
    let command = parse(rt.alloc(), line)?;
    let outcome = expect_savepoint(rt, &command, line, name, goes_back);
    // Dropped in a call, so that this is proved once.
    drop(command);
    outcome
}

#[test]
fn savepoints_have_names(rt: HostRuntime) -> Result<(), Fail> {
    expect_savepoint_of(&rt, b"SAVEPOINT s", b"s", false)?;
    expect_savepoint_of(&rt, b"\tSAVEPOINT  to ", b"to", false)?;
    expect_savepoint_of(&rt, b"ROLLBACK TO s", b"s", true)?;
    expect_savepoint_of(&rt, b" ROLLBACK\tTO  savepoint", b"savepoint", true)
}

/// Asserts that a line is no command.
fn expect_no_command(rt: &(impl Abort + AllocGlobal), line: &[u8]) {
    let read = parse(rt.alloc(), line);
    let is_refused = matches!(read, Err(Refusal::Syntax));
    drop(read);
    assert!(rt; is_refused, "at {line:?}");
}

#[test]
fn savepoints_without_a_name_are_no_commands(rt: HostRuntime) {
    expect_no_command(&rt, b"SAVEPOINT");
    expect_no_command(&rt, b"SAVEPOINT S");
    expect_no_command(&rt, b"SAVEPOINT TO");
    expect_no_command(&rt, b"ROLLBACK TO");
    expect_no_command(&rt, b"ROLLBACK TO TO");
    expect_no_command(&rt, b"ROLLBACK s");
    expect_no_command(&rt, b"TO s");
}
