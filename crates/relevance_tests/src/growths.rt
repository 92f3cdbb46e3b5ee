//! Searches for a cycle whose allocations fail, as `tests/refused_growths.py` lets them: in each run of a test one allocation, or all from
//! one to the line that reports a failed search. Then the search is repeated.
//!
//! Any other allocation that fails before that line ends the test, as passed.
use crate::assertions::assert_same;
use crate::samples::{between, is_ann, lower, row, text};
use mm_query::BoundQuery;
use mm_relevance::{Cycle, CycleEdge, irrelevant};
use mm_value::{Refusal, Row, Value};
use std::alloc::{AllocError, Global};
use std::process::Abort;
use std::test::Fail;

/// A query, and a row at its first place.
#[derive(Drop)]
struct Question {
    query: BoundQuery,
    row: Row,
}

/// Returns the cycle of a row. Repeats the search if an allocation fails.
fn search_again(
    rt: &(impl Abort + Print),
    alloc: Global,
    question: &Question,
) -> Result<Option<Cycle>, Fail> {
    match irrelevant(alloc, &question.query, 0, &question.row) {
        Ok(found) => Ok(found),
        Err(AllocError) => {
            rt.println("refused")?;
            Ok(irrelevant(alloc, &question.query, 0, &question.row)?)
        }
    }
}

/// Searches the cycle of a row, and asserts that it has these edges. Without edges, asserts that the row has no cycle.
fn search(
    rt: &(impl Abort + Print),
    alloc: Global,
    question: &Question,
    wanted: &[CycleEdge],
) -> Result<(), Fail> {
    match search_again(rt, alloc, question)? {
        Some(cycle) => assert_same(rt, cycle.edges.as_slice(), wanted),
        None => assert_same(rt, [].as_slice(), wanted),
    }
    Ok(())
}

/// Returns `between`, and a row of the number at its first place.
fn between_and_row(alloc: Global, number: i64) -> Result<Question, Refusal> {
    let query = between(alloc)?;
    let row = row(alloc, 1, Value::Int(number))?;
    Ok(Question { query, row })
}

#[test]
fn cycle_growths(rt: HostRuntime) -> Result<(), Fail> {
    let alloc = rt.alloc();
    match between_and_row(alloc, 4) {
        Ok(question) => search(&rt, alloc, &question, &[lower(0), lower(1)]),
        Err(_) => Ok(()),
    }
}

#[test]
fn no_cycle_growths(rt: HostRuntime) -> Result<(), Fail> {
    let alloc = rt.alloc();
    match between_and_row(alloc, 3) {
        Ok(question) => search(&rt, alloc, &question, &[]),
        Err(_) => Ok(()),
    }
}

/// Returns a row with the name bob.
fn bob(alloc: Global) -> Result<Row, Refusal> {
    row(alloc, 1, text(alloc, b"bob")?)
}

/// Returns the query of `is_ann`, and a row with another name.
fn is_ann_and_row(alloc: Global) -> Result<Question, Refusal> {
    let query = is_ann(alloc)?;
    let row = bob(alloc)?;
    Ok(Question { query, row })
}

#[test]
fn false_text_growths(rt: HostRuntime) -> Result<(), Fail> {
    let alloc = rt.alloc();
    match is_ann_and_row(alloc) {
        Ok(question) => search(&rt, alloc, &question, &[lower(0)]),
        Err(_) => Ok(()),
    }
}
