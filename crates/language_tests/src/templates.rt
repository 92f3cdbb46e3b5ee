//! The commands that lines with holes read as.
use crate::assertions::assert_same;
use mm_lang::{parse, prepare};
use mm_query::{Assignment, Command, Mutation, Operand};
use mm_schema::NameRef;
use mm_value::{Refusal, Value};
use std::process::Abort;
use std::test::Fail;

/// Asserts which literals of a line are holes, in written order.
fn expect_holes(rt: &(impl Abort + AllocGlobal), line: &[u8], holes: &[bool]) -> Result<(), Fail> {
    let template = prepare(rt.alloc(), line)?;
    assert_same(rt, template.holes.as_slice(), holes);
    // Dropped in a call, so that this is proved once.
    drop(template);
    Ok(())
}

/// Asserts that a line with holes is refused with this refusal.
fn expect_refused(rt: &(impl Abort + AllocGlobal), line: &[u8], refusal: Refusal) {
    let read = prepare(rt.alloc(), line);
    let is_refused = matches!(read, Err(found) if found == refusal);
    drop(read);
    assert!(rt; is_refused, "at {line:?}");
}

/// Asserts that a line is no command of a script.
fn expect_no_command(rt: &(impl Abort + AllocGlobal), line: &[u8]) {
    let read = parse(rt.alloc(), line);
    let is_refused = matches!(read, Err(Refusal::Syntax));
    drop(read);
    assert!(rt; is_refused, "at {line:?}");
}

#[test]
fn holes_stand_for_literals(rt: HostRuntime) -> Result<(), Fail> {
    let (hole, value) = (true, false);
    expect_holes(&rt, b"INSERT t (?)", &[hole])?;
    expect_holes(
        &rt,
        b"INSERT t (?, 'a?b', ?), (1,?,-2)",
        &[hole, value, hole, value, hole, value],
    )?;
    expect_holes(
        &rt,
        b"UPDATE t SET v = ?, w = 'x' WHERE k = ?",
        &[hole, value, hole],
    )?;
    expect_holes(&rt, b"DELETE t WHERE k=?AND v>=?", &[hole, hole])?;
    expect_holes(
        &rt,
        b"SELECT a.x FROM t a WHERE a.k = ? AND a.v < 5 ORDER 1",
        &[hole, value, value],
    )?;
    expect_holes(&rt, b"EXPLAIN SELECT a.x FROM t a WHERE a.k = ?", &[hole])
}

#[test]
fn holes_stand_for_digits_of_shifts(rt: HostRuntime) -> Result<(), Fail> {
    let (hole, value) = (true, false);
    expect_holes(&rt, b"UPDATE t SET v = v + ?, w = w - ?", &[hole, hole])?;
    expect_holes(&rt, b"UPDATE t SET v = v -?, w = w -7", &[hole, value])?;
    expect_holes(
        &rt,
        b"SELECT a.x FROM t a, u b WHERE a.k < b.k + ? AND a.k > b.k-1",
        &[hole, value],
    )
}

#[test]
fn lines_without_literals_have_no_holes(rt: HostRuntime) -> Result<(), Fail> {
    expect_holes(&rt, b"", &[])?;
    expect_holes(&rt, b"-- what?", &[])?;
    expect_holes(&rt, b"SCAN t", &[])?;
    expect_holes(&rt, b"TABLE t (k INT KEY)", &[])?;
    expect_holes(&rt, b"WATCH w SELECT a.k FROM t a", &[])?;
    expect_holes(&rt, b"BEGIN", &[])
}

#[test]
fn holes_stand_for_nothing_else(rt: HostRuntime) {
    expect_refused(&rt, b"?", Refusal::Syntax);
    expect_refused(&rt, b"SCAN ?", Refusal::Syntax);
    expect_refused(&rt, b"INSERT ? (1)", Refusal::Syntax);
    expect_refused(&rt, b"INSERT t (-?)", Refusal::Syntax);
    expect_refused(&rt, b"INSERT t (1?)", Refusal::Syntax);
    expect_refused(&rt, b"DELETE t WHERE ? = 1", Refusal::Syntax);
    expect_refused(&rt, b"DELETE t WHERE k ? 1", Refusal::Syntax);
    expect_refused(&rt, b"SELECT a.x FROM t a ORDER ?", Refusal::Syntax);
    expect_refused(&rt, b"TABLE t (k INT KEY) ?", Refusal::Syntax);
}

#[test]
fn changes_of_the_catalog_have_no_holes(rt: HostRuntime) {
    expect_refused(
        &rt,
        b"WATCH w SELECT a.x FROM t a WHERE a.k = ?",
        Refusal::Syntax,
    );
    expect_refused(
        &rt,
        b"WATCH w SELECT a.x FROM t a WHERE a.k = 9223372036854775808 AND a.v = ?",
        Refusal::Syntax,
    );
}

#[test]
fn lines_with_holes_keep_their_limits(rt: HostRuntime) {
    expect_refused(
        &rt,
        b"INSERT t (?, 9223372036854775808)",
        Refusal::NumberOutOfRange,
    );
    expect_refused(
        &rt,
        b"UPDATE t SET v = v - 9223372036854775809, w = w + ?",
        Refusal::NumberOutOfRange,
    );
    expect_refused(
        &rt,
        b"INSERT t (?, 'aaaaaaaaaaaaaaaaaaaaaaaaaaaaaaaaaaaaaaaaaaaaaaaaaaaaaaaaaaaaaaaaa')",
        Refusal::TextTooLong,
    );
    expect_refused(&rt, &[b'?'; 4097], Refusal::LineTooLong);
    expect_refused(&rt, &[b'?'; 4096], Refusal::Syntax);
}

#[test]
fn plain_lines_have_no_holes(rt: HostRuntime) {
    expect_no_command(&rt, b"INSERT t (?)");
    expect_no_command(&rt, b"INSERT t (9223372036854775808, ?)");
    expect_no_command(&rt, b"UPDATE t SET v = ? WHERE k = 'a?b'");
    expect_no_command(&rt, b"UPDATE t SET v = v + ?");
    expect_no_command(&rt, b"SELECT a.x FROM t a WHERE a.k = ?");
    expect_no_command(&rt, b"BEGIN ?");
}

/// Returns the assignments of an UPDATE.
fn assignments<'c, 'l>(command: &'c Command<'l>) -> Option<&'c [Assignment<NameRef<'l>>]> {
    match command {
        Command::Change(Mutation::Update { assignments, .. }) => Some(assignments.as_slice()),
        _other => None,
    }
}

/// Returns the number of an assignment: a literal, or that of a shift.
fn number_in(assignment: &Assignment<NameRef<'_>>) -> Option<i64> {
    match &assignment.source {
        Operand::Literal(Value::Int(number)) => Some(*number),
        Operand::Shifted(_column, by) => Some(*by),
        _other => None,
    }
}

/// Asserts the number of the only assignment of a line.
fn expect_number(rt: &(impl Abort + AllocGlobal), line: &[u8], number: i64) -> Result<(), Fail> {
    let template = prepare(rt.alloc(), line)?;
    let found = assignments(&template.command)
        .and_then(|assigned| assigned.first())
        .and_then(number_in);
    assert_same(rt, found, Some(number));
    drop(template);
    Ok(())
}

#[test]
fn numbers_stand_in_place_of_holes(rt: HostRuntime) -> Result<(), Fail> {
    expect_number(&rt, b"UPDATE t SET v = ?", 0)?;
    expect_number(&rt, b"UPDATE t SET v = v + ?", 1)?;
    expect_number(&rt, b"UPDATE t SET v = v - ?", -1)?;
    expect_number(&rt, b"UPDATE t SET v = v-?", -1)
}
