//! Failed allocations of deletes that cascade.
use crate::assertions::assert_that;
use crate::samples::{command, database, give};
use crate::steps::{end_refused, give_each, look, roll_back, tell_refused};
use mm_txn::Db;
use mm_value::Refusal;
use std::process::Abort;
use std::test::Fail;

/// Departments with their employees, and salaries of these, each for a department that may be another one. One of the two columns that
/// cascade has an index.
const FILLED: [&str; 8] = [
    "TABLE dept (id INT KEY)",
    "TABLE emp (id INT KEY, d INT REF dept CASCADE)",
    "TABLE pay (id INT KEY, e INT REF emp CASCADE, d INT REF dept)",
    "INDEX by_d ON emp (d) HASH",
    "WATCH paid SELECT e.id, p.id FROM emp e, pay p WHERE p.e = e.id",
    "INSERT dept (1), (2)",
    "INSERT emp (10, 1), (11, 2), (12, 1)",
    "INSERT pay (100, 10, 2), (101, 11, 2), (102, 12, 2), (103, 12, 1)",
];

/// Questions that show all rows, also along the index.
const QUESTIONS: [&str; 4] = [
    "SELECT e.id FROM emp e",
    "SELECT e.id FROM emp e WHERE e.d = 1",
    "SELECT p.id FROM pay p",
    "SHOW paid",
];

const ALL: &str =
    "(10)\n(11)\n(12)\nrows 3\n(10)\n(12)\nrows 2\n(100)\n(101)\n(102)\n(103)\nrows 4\n\
    (10, 100)\n(11, 101)\n(12, 102)\n(12, 103)\nrows 4\n";

const WITHOUT_FIRST: &str = "(11)\nrows 1\nrows 0\n(101)\nrows 1\n(11, 101)\nrows 1\n";

#[test]
fn cascade_growths(rt: HostRuntime) -> Result<(), Fail> {
    give_each(
        &rt,
        &FILLED,
        &QUESTIONS,
        &[("DELETE dept WHERE id = 1", WITHOUT_FIRST)],
    )
}

#[test]
fn rolled_back_cascade_growths(rt: HostRuntime) -> Result<(), Fail> {
    roll_back(
        &rt,
        &FILLED,
        &["BEGIN"],
        "DELETE dept WHERE id = 1",
        "ROLLBACK",
        &QUESTIONS,
        ALL,
    )
}

/// Makes a DELETE that is refused, by the rows or because an allocation fails, and checks all rows.
fn hinder(rt: &(impl Abort + AllocGlobal + Print), database: &mut Db) -> Result<(), Fail> {
    let outcome = match command(rt.alloc(), "DELETE dept WHERE id = 2") {
        Ok(given) => give(rt.alloc(), database, given),
        Err(refusal) => return end_refused(rt, refusal),
    };
    match outcome {
        Err(Refusal::Memory) => tell_refused(rt, Refusal::Memory)?,
        outcome => assert_that(rt, matches!(outcome, Err(Refusal::RowIsReferenced))),
    }
    look(rt, database, &QUESTIONS, ALL);
    Ok(())
}

#[test]
fn hindered_cascade_growths(rt: HostRuntime) -> Result<(), Fail> {
    match database(rt.alloc(), &FILLED) {
        Ok(mut database) => {
            let outcome = hinder(&rt, &mut database);
            drop(database);
            outcome
        }
        Err(refusal) => end_refused(&rt, refusal),
    }
}
