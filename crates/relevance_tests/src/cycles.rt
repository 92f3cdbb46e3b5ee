//! Cycles of worked examples.
use crate::assertions::{assert_same, assert_that};
use crate::samples::{atom, between, field, is_ann, lower, never, query, row, text};
use mm_query::{Atom, BoundQuery, Comparison, FieldPlace, Operand};
use mm_relevance::{CycleEdge, check_cycle, irrelevant};
use mm_value::{Refusal, Row, Value};
use std::alloc::{AllocError, Global};
use std::process::Abort;
use std::test::Fail;

/// Returns whether the cycle of a row of this value at the first place has exactly these edges. Without edges, returns whether there is no
/// cycle.
fn has_edges(
    alloc: Global,
    query: &BoundQuery,
    value: Value,
    wanted: &[CycleEdge],
) -> Result<bool, Refusal> {
    let row = row(alloc, 1, value)?;
    match irrelevant(alloc, query, 0, &row)? {
        Some(cycle) => Ok(!wanted.is_empty() && cycle.edges.as_slice() == wanted),
        None => Ok(wanted.is_empty()),
    }
}

/// Searches the cycles of rows of two numbers. Asserts that the first row's cycle has these edges, and that the second row has no cycle.
fn first_alone_has_edges(
    rt: &impl Abort,
    alloc: Global,
    query: &BoundQuery,
    first: i64,
    second: i64,
    wanted: &[CycleEdge],
) -> Result<(), Fail> {
    assert_that(rt, has_edges(alloc, query, Value::Int(first), wanted)?);
    assert_that(rt, has_edges(alloc, query, Value::Int(second), &[])?);
    Ok(())
}

#[test]
fn no_value_lies_between_4_and_5(rt: HostRuntime) -> Result<(), Fail> {
    let alloc = rt.alloc();
    let query = between(alloc)?;
    first_alone_has_edges(&rt, alloc, &query, 4, 3, &[lower(0), lower(1)])
}

/// Returns whether the cycle of one row passes the check for that row, and whether it does for another row.
fn is_accepted(
    alloc: Global,
    query: &BoundQuery,
    row: &Row,
    other: &Row,
) -> Result<(bool, bool), Refusal> {
    match irrelevant(alloc, query, 0, row)? {
        Some(cycle) => Ok((
            check_cycle(query, 0, row, &cycle),
            check_cycle(query, 0, other, &cycle),
        )),
        None => Ok((false, false)),
    }
}

#[test]
fn a_cycle_is_accepted_for_its_row_alone(rt: HostRuntime) -> Result<(), Fail> {
    let alloc = rt.alloc();
    let query = between(alloc)?;
    let far = row(alloc, 1, Value::Int(4))?;
    let near = row(alloc, 2, Value::Int(3))?;
    assert_same(&rt, is_accepted(alloc, &query, &far, &near)?, (true, false));
    Ok(())
}

#[test]
fn no_row_fits_a_query_that_nothing_fits(rt: HostRuntime) -> Result<(), Fail> {
    let alloc = rt.alloc();
    let query = never(alloc)?;
    assert_that(
        &rt,
        has_edges(alloc, &query, Value::Int(4), &[lower(0), lower(1)])?,
    );
    Ok(())
}

/// `a.v < 5`
fn below_5(alloc: Global) -> Result<BoundQuery, Refusal> {
    let five = Operand::Literal(Value::Int(5));
    let mut atoms = Vec::new(alloc);
    atoms.push(atom(field(0, 1), Comparison::Less, five))?;
    query(alloc, 2, atoms)
}

#[test]
fn a_constant_is_compared_with_the_row(rt: HostRuntime) -> Result<(), Fail> {
    let alloc = rt.alloc();
    let query = below_5(alloc)?;
    first_alone_has_edges(&rt, alloc, &query, 7, 4, &[lower(0)])
}

#[test]
fn a_text_is_compared_with_the_row(rt: HostRuntime) -> Result<(), Fail> {
    let alloc = rt.alloc();
    let query = is_ann(alloc)?;
    assert_that(
        &rt,
        has_edges(alloc, &query, text(alloc, b"bob")?, &[lower(0)])?,
    );
    assert_that(&rt, has_edges(alloc, &query, text(alloc, b"ann")?, &[])?);
    Ok(())
}

/// Adds the equality of a column and the sum of another one and a number.
fn add_equality(
    atoms: &mut Vec<Atom<FieldPlace>>,
    column: usize,
    other: usize,
    number: i64,
) -> Result<(), AllocError> {
    let sum = Operand::Shifted(field(1, other), number);
    atoms.push(atom(field(1, column), Comparison::Equal, sum))?;
    Ok(())
}

/// Adds the equalities of a ring.
fn add_ring(atoms: &mut Vec<Atom<FieldPlace>>, back: i64) -> Result<(), AllocError> {
    for column in 0..15 {
        add_equality(atoms, column, column + 1, 1)?;
    }
    add_equality(atoms, 15, 0, back)
}

/// `b.c0 = b.c1 + 1 AND b.c1 = b.c2 + 1 AND .. AND b.c14 = b.c15 + 1 AND b.c15 = b.c0 + back`
fn ring(alloc: Global, back: i64) -> Result<BoundQuery, Refusal> {
    let mut atoms = Vec::new(alloc);
    add_ring(&mut atoms, back)?;
    query(alloc, 2, atoms)
}

/// Returns the number of edges of the accepted cycle of a row of this number in such a ring, or `None` if there is none.
fn edges_in_ring(alloc: Global, back: i64, number: i64) -> Result<Option<usize>, Refusal> {
    let query = ring(alloc, back)?;
    let row = row(alloc, 1, Value::Int(number))?;
    match irrelevant(alloc, &query, 0, &row)? {
        Some(cycle) if check_cycle(&query, 0, &row, &cycle) => Ok(Some(cycle.edges.len())),
        _ => Ok(None),
    }
}

#[test]
fn a_ring_of_sixteen_equalities_holds_where_its_numbers_come_back(
    rt: HostRuntime,
) -> Result<(), Fail> {
    let alloc = rt.alloc();
    assert_same(&rt, edges_in_ring(alloc, -16, 4)?, Some(16));
    assert_same(&rt, edges_in_ring(alloc, -15, 4)?, None);
    assert_same(&rt, edges_in_ring(alloc, -14, 4)?, Some(16));
    Ok(())
}
