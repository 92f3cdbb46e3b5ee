//! Failed allocations in a transaction with savepoints, and for indexes that are created in one.
use crate::assertions::assert_that;
use crate::growths::{FILLED, FIRST_EMP, MOVED_EMP, NAMES, NO_NAME, OF_EMP};
use crate::samples::{give, opened};
use crate::steps::{end_refused, give_each, roll_back, tell_refused};
use mm_query::Command;
use mm_schema::Name;
use mm_txn::Db;
use mm_value::Refusal;
use std::process::Abort;
use std::test::Fail;

/// The plan of a question, and its answer.
const PLAN_AND_ANSWER: [&str; 2] = [
    "EXPLAIN SELECT e.id FROM emp e WHERE e.name = 'bob'",
    "SELECT e.id FROM emp e WHERE e.name = 'bob'",
];

/// Sets a savepoint, again if an allocation fails, and rolls back to it.
fn save_again(
    rt: &(impl Abort + AllocGlobal + Print),
    database: &mut Db,
    name: &Name,
) -> Result<(), Fail> {
    if let Err(refusal) = give(rt.alloc(), database, Command::Savepoint(name.copy())) {
        tell_refused(rt, refusal)?;
        let gone = give(rt.alloc(), database, Command::RollbackTo(name.copy()));
        assert_that(rt, matches!(gone, Err(Refusal::NoSuchSavepoint)));
        give(rt.alloc(), database, Command::Savepoint(name.copy()))?;
    }
    give(rt.alloc(), database, Command::RollbackTo(name.copy()))?;
    Ok(())
}

/// Sets a savepoint with each name, again if an allocation fails, and rolls back to it.
fn save_each(rt: &(impl Abort + AllocGlobal + Print), database: &mut Db) -> Result<(), Fail> {
    for bytes in NAMES {
        let name = Name::new(bytes).ok_or(NO_NAME)?;
        save_again(rt, database, &name)?;
    }
    Ok(())
}

#[test]
fn savepoint_growths(rt: HostRuntime) -> Result<(), Fail> {
    match opened(rt.alloc(), &FILLED, &["BEGIN", "DELETE emp"]) {
        Ok(mut database) => {
            let outcome = save_each(&rt, &mut database);
            drop(database);
            outcome
        }
        Err(refusal) => end_refused(&rt, refusal),
    }
}

#[test]
fn savepoint_line_growths(rt: HostRuntime) -> Result<(), Fail> {
    give_each(
        &rt,
        &FILLED,
        &OF_EMP,
        &[
            ("BEGIN", FIRST_EMP),
            ("SAVEPOINT s", FIRST_EMP),
            (
                "UPDATE emp SET name = 'ann of the second floor', d = 2 WHERE id = 10",
                MOVED_EMP,
            ),
            ("SAVEPOINT x", MOVED_EMP),
            ("SAVEPOINT s", MOVED_EMP),
            ("DELETE emp", "rows 0\nrows 0\n"),
            ("ROLLBACK TO s", MOVED_EMP),
            ("ROLLBACK TO x", MOVED_EMP),
            ("ROLLBACK TO s", FIRST_EMP),
            ("COMMIT", FIRST_EMP),
        ],
    )
}

#[test]
fn rollback_to_growths(rt: HostRuntime) -> Result<(), Fail> {
    roll_back(
        &rt,
        &FILLED,
        &[
            "BEGIN",
            "UPDATE emp SET name = 'ann of the second floor', d = 2 WHERE id = 10",
            "SAVEPOINT s",
            "UPDATE emp SET name = 'cat'",
        ],
        "UPDATE emp SET name = 'dan of the first floor', d = 1",
        "ROLLBACK TO s",
        &OF_EMP,
        MOVED_EMP,
    )
}

#[test]
fn index_in_a_transaction_growths(rt: HostRuntime) -> Result<(), Fail> {
    give_each(
        &rt,
        &FILLED,
        &PLAN_AND_ANSWER,
        &[
            ("BEGIN", "e scan\nsteps 1\n(11)\nrows 1\n"),
            ("DELETE emp WHERE id = 11", "e scan\nsteps 1\nrows 0\n"),
            ("INDEX i ON emp (name) HASH", "e hash i\nsteps 1\nrows 0\n"),
            ("INDEX j ON emp (name) TREE", "e hash i\nsteps 1\nrows 0\n"),
            ("DROP INDEX i", "e tree j =\nsteps 1\nrows 0\n"),
            ("ROLLBACK", "e tree j =\nsteps 1\n(11)\nrows 1\n"),
        ],
    )
}

#[test]
fn rollback_past_an_index_growths(rt: HostRuntime) -> Result<(), Fail> {
    roll_back(
        &rt,
        &FILLED,
        &["BEGIN", "DELETE emp WHERE id = 11"],
        "INDEX i ON emp (name) TREE",
        "ROLLBACK",
        &PLAN_AND_ANSWER[1..],
        "(11)\nrows 1\n",
    )
}

#[test]
fn rollback_to_past_an_index_growths(rt: HostRuntime) -> Result<(), Fail> {
    roll_back(
        &rt,
        &FILLED,
        &["BEGIN", "SAVEPOINT s", "DELETE emp WHERE id = 11"],
        "INDEX i ON emp (name) HASH",
        "ROLLBACK TO s",
        &PLAN_AND_ANSWER[1..],
        "(11)\nrows 1\n",
    )
}
