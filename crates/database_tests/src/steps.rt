//! Calls whose allocations fail, and the same calls repeated.
use crate::assertions::assert_same;
use crate::samples::{
    ask, ask_line, command, database, give, give_line, opened, sizes, text_of, told,
};
use mm_query::Command;
use mm_txn::{Answer, Db};
use mm_value::Refusal;
use std::alloc::AllocError;
use std::io;
use std::process::Abort;
use std::test::Fail;

/// Asserts that the refusal is `Memory`.
pub fn expect_memory(rt: &impl Abort, refusal: Refusal) {
    assert_same(rt, refusal, Refusal::Memory);
}

/// Ends a test, as passed, because an allocation before its calls failed. No other refusal is due.
pub fn end_refused(rt: &impl Abort, refusal: Refusal) -> Result<(), Fail> {
    expect_memory(rt, refusal);
    Ok(())
}

/// Ends a test, as passed, because an allocation failed before one of its calls was reached.
pub fn not_so_far(rt: &impl Abort, refusal: Refusal) -> Result<bool, Fail> {
    expect_memory(rt, refusal);
    Ok(false)
}

/// Writes that an allocation of a tested call failed. No other refusal is due.
pub fn tell_refused(rt: &(impl Abort + Print), refusal: Refusal) -> io::Result<()> {
    expect_memory(rt, refusal);
    println!(rt; "refused")
}

/// Parses a line, again if an allocation fails.
fn read_again<'l>(
    rt: &(impl Abort + AllocGlobal + Print),
    line: &'l str,
) -> Result<Command<'l>, Fail> {
    match command(rt.alloc(), line) {
        Ok(command) => Ok(command),
        Err(refusal) => {
            tell_refused(rt, refusal)?;
            Ok(command(rt.alloc(), line)?)
        }
    }
}

/// Returns the lengths of the lists in the command of a line, which is parsed again if an allocation fails.
fn sizes_in(rt: &(impl Abort + AllocGlobal + Print), line: &str) -> Result<[usize; 4], Fail> {
    let command = read_again(rt, line)?;
    let sizes = sizes(&command);
    drop(command);
    Ok(sizes)
}

/// Parses lines, each again if an allocation fails, and checks the lengths of the lists in their commands.
pub fn read_each(
    rt: &(impl Abort + AllocGlobal + Print),
    lines: &[(&str, [usize; 4])],
) -> Result<(), Fail> {
    for (line, expected) in lines {
        let found = sizes_in(rt, line)?;
        assert_eq!(rt; found, *expected, "at {line}");
    }
    Ok(())
}

/// Executes a line on a database, again if an allocation fails; then the database answered as before. Returns whether the line was
/// executed: false if an earlier allocation failed.
pub fn give_again(
    rt: &(impl Abort + AllocGlobal + Print),
    database: &mut Db,
    line: &str,
    questions: &[&str],
) -> Result<bool, Fail> {
    match told(rt.alloc(), database, questions) {
        Ok(before) => give_beside(rt, database, line, questions, &before),
        Err(refusal) => not_so_far(rt, refusal),
    }
}

/// Executes a line on a database, again if an allocation fails, given what the database answered before.
fn give_beside(
    rt: &(impl Abort + AllocGlobal + Print),
    database: &mut Db,
    line: &str,
    questions: &[&str],
    before: &[u8],
) -> Result<bool, Fail> {
    let given = match command(rt.alloc(), line) {
        Ok(given) => give(rt.alloc(), database, given),
        Err(refusal) => return not_so_far(rt, refusal),
    };
    if let Err(refusal) = given {
        tell_refused(rt, refusal)?;
        look_again(rt, database, line, questions, before)?;
        give_line(rt.alloc(), database, line)?;
    }
    Ok(true)
}

/// Asserts that a database answers as before a line that was refused.
fn look_again(
    rt: &(impl Abort + AllocGlobal),
    database: &Db,
    line: &str,
    questions: &[&str],
    before: &[u8],
) -> Result<(), Fail> {
    let still = told(rt.alloc(), database, questions)?;
    assert!(rt; still.as_slice() == before, "at {line}");
    Ok(())
}

/// Checks the answers of a database, unless an allocation for them fails.
pub fn look(rt: &(impl Abort + AllocGlobal), database: &Db, questions: &[&str], expected: &str) {
    match told(rt.alloc(), database, questions) {
        Ok(told) => assert_same(rt, told.as_slice(), expected.as_bytes()),
        Err(refusal) => expect_memory(rt, refusal),
    }
}

/// Executes lines on a database, each again if an allocation fails, and checks the answers of the database after each of them.
fn give_all_again(
    rt: &(impl Abort + AllocGlobal + Print),
    database: &mut Db,
    questions: &[&str],
    lines: &[(&str, &str)],
) -> Result<(), Fail> {
    for (line, expected) in lines {
        if !give_again(rt, database, line, questions)? {
            return Ok(());
        }
        look(rt, database, questions, expected);
    }
    Ok(())
}

/// Executes lines on the database after some other lines, each again if an allocation fails, and checks the answers after each of them.
pub fn give_each(
    rt: &(impl Abort + AllocGlobal + Print),
    made_by: &[&str],
    questions: &[&str],
    lines: &[(&str, &str)],
) -> Result<(), Fail> {
    match database(rt.alloc(), made_by) {
        Ok(mut database) => {
            let outcome = give_all_again(rt, &mut database, questions, lines);
            drop(database);
            outcome
        }
        Err(refusal) => end_refused(rt, refusal),
    }
}

/// Executes a line on a database, which fails if an allocation does. Returns whether the line was reached: false if an earlier allocation
/// failed.
fn give_once(
    rt: &(impl Abort + AllocGlobal + Print),
    database: &mut Db,
    line: &str,
) -> Result<bool, Fail> {
    let given = match command(rt.alloc(), line) {
        Ok(given) => give(rt.alloc(), database, given),
        Err(refusal) => return not_so_far(rt, refusal),
    };
    if let Err(refusal) = given {
        tell_refused(rt, refusal)?;
    }
    Ok(true)
}

/// Executes one more line on a database, which fails if an allocation does, and rolls back by `back` in either case. Then checks the
/// answers of the database.
fn give_and_roll_back(
    rt: &(impl Abort + AllocGlobal + Print),
    database: &mut Db,
    line: &str,
    back: &str,
    questions: &[&str],
    expected: &str,
) -> Result<(), Fail> {
    if give_once(rt, database, line)? {
        give_line(rt.alloc(), database, back)?;
        look(rt, database, questions, expected);
    }
    Ok(())
}

/// Executes one more line on the database after some lines, in a transaction that others opened, and rolls back by `back`. Then checks the
/// answers of the database.
pub fn roll_back(
    rt: &(impl Abort + AllocGlobal + Print),
    made_by: &[&str],
    inside: &[&str],
    line: &str,
    back: &str,
    questions: &[&str],
    expected: &str,
) -> Result<(), Fail> {
    match opened(rt.alloc(), made_by, inside) {
        Ok(mut database) => {
            let outcome = give_and_roll_back(rt, &mut database, line, back, questions, expected);
            drop(database);
            outcome
        }
        Err(refusal) => end_refused(rt, refusal),
    }
}

/// Asks the question of a line, again if an allocation fails, and checks the answer. Returns whether the check was reached: false if an
/// allocation before or after the call failed.
fn ask_again(
    rt: &(impl Abort + AllocGlobal + Print),
    database: &Db,
    line: &str,
    expected: &str,
) -> Result<bool, Fail> {
    let alloc = rt.alloc();
    let mut reads = 0;
    let outcome = match command(alloc, line) {
        Ok(question) => ask(alloc, database, question, &mut reads),
        Err(refusal) => return not_so_far(rt, refusal),
    };
    let answer = match outcome {
        Ok(answer) => answer,
        Err(refusal) => {
            tell_refused(rt, refusal)?;
            ask_line(alloc, database, line)?
        }
    };
    look_at(rt, answer, line, expected)
}

/// Checks the answer to the question of a line. Returns whether the check was reached: false if an allocation for its text failed.
fn look_at(
    rt: &(impl Abort + AllocGlobal),
    answer: Answer<'_>,
    line: &str,
    expected: &str,
) -> Result<bool, Fail> {
    match text_of(rt.alloc(), answer) {
        Ok(told) => {
            assert_eq!(rt; told.as_slice(), expected.as_bytes(), "at {line}");
            Ok(true)
        }
        Err(AllocError) => Ok(false),
    }
}

/// Asks a database questions, each again if an allocation fails, and checks the answers.
fn ask_all(
    rt: &(impl Abort + AllocGlobal + Print),
    database: &Db,
    questions: &[(&str, &str)],
) -> Result<(), Fail> {
    for (line, expected) in questions {
        if !ask_again(rt, database, line, expected)? {
            return Ok(());
        }
    }
    Ok(())
}

/// Asks the database after some lines questions, each again if an allocation fails, and checks the answers.
pub fn ask_each(
    rt: &(impl Abort + AllocGlobal + Print),
    made_by: &[&str],
    questions: &[(&str, &str)],
) -> Result<(), Fail> {
    match database(rt.alloc(), made_by) {
        Ok(database) => {
            let outcome = ask_all(rt, &database, questions);
            drop(database);
            outcome
        }
        Err(refusal) => end_refused(rt, refusal),
    }
}
