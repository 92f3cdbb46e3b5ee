//! The numbers of rows read that a database reports.
use crate::assertions::assert_that;
use crate::samples::{ask, command, database, execute};
use crate::steps::end_refused;
use mm_txn::Db;
use mm_value::Refusal;
use std::alloc::Global;
use std::process::Abort;
use std::test::Fail;

/// Two tables of four rows each, and an index on the second one. A standing query joins them.
const FILLED: [&str; 6] = [
    "TABLE t (id INT KEY, k INT)",
    "TABLE u (id INT KEY, k INT)",
    "INDEX by_k ON u (k) HASH",
    "INSERT t (1, 0), (2, 1), (3, 0), (4, 1)",
    "INSERT u (1, 0), (2, 1), (3, 0), (4, 1)",
    "WATCH w SELECT a.id, b.id FROM t a, u b WHERE b.k = a.k",
];

/// Questions, with the least and the largest number of rows that each reads. A scan reads all rows of its table, a look-up those with the
/// value, and both then those of the result once more.
const QUESTIONS: [(&str, u64, u64); 7] = [
    ("SCAN t", 0, 0),
    ("TABLES", 0, 0),
    ("SHOW w", 0, 0),
    ("EXPLAIN SELECT a.id FROM t a", 0, 0),
    ("SELECT a.id FROM t a WHERE a.k = 1", 6, 6),
    ("SELECT a.id FROM u a WHERE a.k = 1", 2, 4),
    ("SELECT a.id, b.id FROM t a, u b WHERE b.k = a.k", 12, 32),
];

/// Changes, with the largest number of rows that each reads for the list of the standing query: each deleted and each new row, and its
/// matches.
const CHANGES: [(&str, u64); 3] = [
    ("INSERT t (5, 0)", 3),
    ("UPDATE t SET k = 1 WHERE id = 5", 6),
    ("DELETE t WHERE id = 5", 3),
];

/// Returns the number of rows that a question reads.
fn asked(alloc: Global, database: &Db, line: &str) -> Result<u64, Refusal> {
    let mut reads = u64::MAX;
    drop(ask(alloc, database, command(alloc, line)?, &mut reads)?);
    Ok(reads)
}

/// Returns the number of rows that a change reads for the lists.
fn changed(alloc: Global, database: &mut Db, line: &str) -> Result<u64, Refusal> {
    let mut reads = u64::MAX;
    execute(alloc, database, command(alloc, line)?, &mut reads)?;
    Ok(reads)
}

/// Compares the number of rows that each question reads with its bounds.
fn ask_each(
    rt: &(impl Abort + AllocGlobal),
    database: &Db,
    questions: &[(&str, u64, u64)],
) -> Result<(), Refusal> {
    for (line, least, most) in questions {
        let reads = asked(rt.alloc(), database, line)?;
        assert_that(rt, reads >= *least && reads <= *most);
    }
    Ok(())
}

/// Compares the number of rows that each change reads for the lists with its bound.
fn change_each(
    rt: &(impl Abort + AllocGlobal),
    database: &mut Db,
    changes: &[(&str, u64)],
) -> Result<(), Refusal> {
    for (line, most) in changes {
        let reads = changed(rt.alloc(), database, line)?;
        assert_that(rt, reads > 0 && reads <= *most);
    }
    Ok(())
}

/// Compares the numbers of all questions, and then of all changes, with their bounds.
fn count_each(rt: &(impl Abort + AllocGlobal), database: &mut Db) -> Result<(), Refusal> {
    ask_each(rt, database, &QUESTIONS)?;
    change_each(rt, database, &CHANGES)
}

#[test]
fn counts_rows_read(rt: HostRuntime) -> Result<(), Fail> {
    match database(rt.alloc(), &FILLED) {
        Ok(mut database) => {
            let outcome = count_each(&rt, &mut database);
            drop(database);
            match outcome {
                Ok(()) => Ok(()),
                Err(refusal) => end_refused(&rt, refusal),
            }
        }
        Err(refusal) => end_refused(&rt, refusal),
    }
}
