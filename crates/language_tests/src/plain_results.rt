//! Queries evaluated row by row.
use crate::assertions::{assert_same, assert_that};
use crate::samples::{catalog, field, number, put, query, text, with_atom};
use mm_query::{
    BoundQuery, Comparison, FieldName, Operand, PlainRows, Query, bind_query, plain_eval,
};
use mm_schema::NameRef;
use mm_value::{Refusal, Row, Value};
use std::process::Abort;

/// Returns rows of two whole numbers each.
fn pairs(rt: &(impl Abort + AllocGlobal), pairs: &[(i64, i64)]) -> Vec<Row> {
    let mut rows = Vec::new(rt.alloc());
    for (first, second) in pairs {
        let mut values = Vec::new(rt.alloc());
        put(rt, &mut values, Value::Int(*first));
        put(rt, &mut values, Value::Int(*second));
        put(rt, &mut rows, Row::new(values));
    }
    rows
}

/// Returns a query that is bound.
fn bound(rt: &(impl Abort + AllocGlobal), query: Query<'_>) -> BoundQuery {
    let catalog = catalog(rt);
    bind_query(rt.alloc(), &catalog, query)
        .expect(rt, "a query")
        .query
}

/// Adds the rows of a table. Repeats this once if an allocation fails.
fn add<'a>(rt: &impl Abort, rows: &mut PlainRows<'a>, table: &'a [Row]) {
    if rows.add(table).is_err() {
        let _ = rows.add(table).ok().expect(rt, "memory");
    }
}

/// Returns the multiset of a query's rows over the rows of its tables. Repeats this once if an allocation fails.
fn bag(rt: &(impl Abort + AllocGlobal), query: &BoundQuery, rows: &PlainRows<'_>) -> Vec<Row> {
    match plain_eval(rt.alloc(), query, rows) {
        Err(Refusal::Memory) => plain_eval(rt.alloc(), query, rows).expect(rt, "rows"),
        found => found.expect(rt, "rows"),
    }
}

/// Returns the multiset of a query's rows over the rows of one table or of two.
fn found(
    rt: &(impl Abort + AllocGlobal),
    query: &BoundQuery,
    first: &[Row],
    second: Option<&[Row]>,
) -> Vec<Row> {
    let mut rows = PlainRows::new(rt.alloc());
    add(rt, &mut rows, first);
    if let Some(second) = second {
        add(rt, &mut rows, second);
    }
    bag(rt, query, &rows)
}

/// Returns the whole number in a column of a row.
fn number_in(row: &Row, column: usize) -> Option<i64> {
    match row.values().get(column) {
        Some(Value::Int(number)) => Some(*number),
        _ => None,
    }
}

/// Asserts that a row has these whole numbers in its first two columns.
fn expect_row(rt: &impl Abort, row: &Row, first: i64, second: Option<i64>) {
    assert_same(rt, number_in(row, 0), Some(first));
    assert_same(rt, number_in(row, 1), second);
}

/// Asserts that the rows are these, of one or two whole numbers.
fn expect_rows(rt: &impl Abort, rows: &[Row], expected: &[(i64, Option<i64>)]) {
    assert_same(rt, rows.len(), expected.len());
    for (row, (first, second)) in rows.iter().zip(expected) {
        expect_row(rt, row, *first, *second);
    }
}

/// Asserts the multiset of a query's rows over the rows of one table or of two.
fn expect_found(
    rt: &(impl Abort + AllocGlobal),
    query: &BoundQuery,
    first: &[Row],
    second: Option<&[Row]>,
    expected: &[(i64, Option<i64>)],
) {
    expect_rows(rt, &found(rt, query, first, second), expected);
}

/// Returns the query that compares the field `a.k` in this way with another.
fn asked<'l>(
    rt: &(impl Abort + AllocGlobal),
    query: Query<'l>,
    comparison: Comparison,
    right: Operand<FieldName<NameRef<'l>>>,
) -> Query<'l> {
    with_atom(rt, query, field(rt, b"a", b"k"), comparison, right)
}

/// Returns the query of all pairs of rows of a table with the same k.
fn twice(rt: &(impl Abort + AllocGlobal)) -> Query<'static> {
    let pairs = query(
        rt,
        &[(b"t", b"a"), (b"t", b"b")],
        &[(b"a", b"id"), (b"b", b"id")],
    );
    let other = Operand::Column(field(rt, b"b", b"k"));
    asked(rt, pairs, Comparison::Equal, other)
}

#[test]
fn joins_a_table_with_itself(rt: HostRuntime) {
    let rows = pairs(&rt, &[(1, 5), (2, 5)]);
    expect_found(
        &rt,
        &bound(&rt, twice(&rt)),
        &rows,
        Some(rows.as_slice()),
        &[(1, Some(1)), (1, Some(2)), (2, Some(1)), (2, Some(2))],
    );
}

#[test]
fn adds_shifts_without_bound(rt: HostRuntime) {
    let rows = pairs(&rt, &[(1, i64::MIN), (2, i64::MAX)]);
    let all = query(&rt, &[(b"t", b"a")], &[(b"a", b"id")]);
    let more = Operand::Shifted(field(&rt, b"a", b"k"), 1);
    let all = bound(&rt, asked(&rt, all, Comparison::Less, more));
    expect_found(&rt, &all, &rows, None, &[(1, None), (2, None)]);
}

/// Returns the query of the keys of all pairs of a row of t and a row of u.
fn both(rt: &(impl Abort + AllocGlobal)) -> Query<'static> {
    query(
        rt,
        &[(b"t", b"a"), (b"u", b"b")],
        &[(b"a", b"id"), (b"b", b"id")],
    )
}

/// Returns the field v of u.
fn v(rt: &impl Abort) -> Operand<FieldName<NameRef<'static>>> {
    Operand::Column(field(rt, b"b", b"v"))
}

/// The keys of the rows of t and u whose k and v are 7.
const SEVENS: [(i64, Option<i64>); 6] = [
    (1, Some(1)),
    (1, Some(2)),
    (2, Some(1)),
    (2, Some(2)),
    (3, Some(1)),
    (3, Some(2)),
];

fn joins_by_equal(rt: &(impl Abort + AllocGlobal), t: &[Row], u: &[Row]) {
    let equal = bound(rt, asked(rt, both(rt), Comparison::Equal, v(rt)));
    expect_found(rt, &equal, t, Some(u), &SEVENS);
    expect_found(rt, &equal, t, Some(&[]), &[]);
}

fn joins_by_bounds(rt: &(impl Abort + AllocGlobal), t: &[Row], u: &[Row]) {
    let bounds = asked(rt, both(rt), Comparison::LessOrEqual, v(rt));
    let bounds = bound(rt, asked(rt, bounds, Comparison::GreaterOrEqual, v(rt)));
    expect_found(rt, &bounds, t, Some(u), &SEVENS);
}

#[test]
fn joins_by_equal_and_by_bounds(rt: HostRuntime) {
    let t = pairs(&rt, &[(1, 7), (2, 7), (3, 7), (4, 8)]);
    let u = pairs(&rt, &[(1, 7), (2, 7)]);
    joins_by_equal(&rt, &t, &u);
    joins_by_bounds(&rt, &t, &u);
}

/// Returns the query of the rows of t whose key is greater by nine than the key 1 of u.
fn nine_more(rt: &(impl Abort + AllocGlobal)) -> Query<'static> {
    let both = query(rt, &[(b"u", b"b"), (b"t", b"a")], &[(b"a", b"id")]);
    let nine_more = Operand::Shifted(field(rt, b"b", b"id"), 9);
    let both = with_atom(
        rt,
        both,
        field(rt, b"a", b"id"),
        Comparison::Equal,
        nine_more,
    );
    with_atom(
        rt,
        both,
        field(rt, b"b", b"id"),
        Comparison::Equal,
        number(1),
    )
}

#[test]
fn joins_by_a_shift(rt: HostRuntime) {
    let dept = pairs(&rt, &[(1, 0), (2, 0)]);
    let emp = pairs(&rt, &[(10, 2), (11, 2), (12, 1)]);
    expect_found(
        &rt,
        &bound(&rt, nine_more(&rt)),
        &dept,
        Some(emp.as_slice()),
        &[(10, None)],
    );
}

/// Returns the row of s with the key 1, the number 3 and a text.
fn row_with_text(rt: &(impl Abort + AllocGlobal)) -> Row {
    let mut values = Vec::new(rt.alloc());
    put(rt, &mut values, Value::Int(1));
    put(rt, &mut values, Value::Int(3));
    put(rt, &mut values, text(rt, b"b"));
    Row::new(values)
}

/// Returns the rows of the query for the texts and keys of those rows whose k is 3.
fn found_with_three(rt: &(impl Abort + AllocGlobal), rows: &[Row]) -> Vec<Row> {
    let all = query(rt, &[(b"s", b"a")], &[(b"a", b"s"), (b"a", b"id")]);
    let one = bound(rt, asked(rt, all, Comparison::Equal, number(3)));
    found(rt, &one, rows, None)
}

/// Asserts that a row has the text and then the key 1.
fn expect_text(rt: &impl Abort, row: &Row) {
    assert_same(rt, number_in(row, 1), Some(1));
    let shown = row.values().first().expect(rt, "a value");
    assert_that(
        rt,
        matches!(shown, Value::Text(text) if text.bytes() == b"b".as_slice()),
    );
}

#[test]
fn gives_texts(rt: HostRuntime) {
    let mut rows = Vec::new(rt.alloc());
    put(&rt, &mut rows, row_with_text(&rt));
    let found = found_with_three(&rt, &rows);
    expect_text(&rt, found.first().expect(&rt, "a row"));
}
