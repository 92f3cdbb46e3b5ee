//! The number of rows that a change reads.
use crate::assertions::{assert_same, assert_that};
use crate::case::Case;
use crate::samples::{key, number, numbers_compare, pairs};
use crate::three_lists::{put, watch_joined};
use mm_query::{Atom, BoundQuery, Comparison, Operand};
use mm_value::{Refusal, Value};
use std::alloc::Global;
use std::process::Abort;
use std::test::Fail;

/// If no value is between the new row's number and the bound, a checked cycle shows this, and only the new row is read.
const READS_OF_IRRELEVANT_ROW: u64 = 1;

/// The pairs of the rows 1, 2 and 3, and of the row 4 with itself.
const ALL_PAIRS: [&[i64]; 10] = [
    &[1, 1],
    &[1, 2],
    &[1, 3],
    &[2, 1],
    &[2, 2],
    &[2, 3],
    &[3, 1],
    &[3, 2],
    &[3, 3],
    &[4, 4],
];

/// Inserts a row into the first table, and asserts that at most this many rows are read and that the first list then shows exactly these
/// rows.
fn assert_reads(
    rt: &(impl Abort + AllocGlobal),
    case: &mut Case,
    row: (i64, i64),
    at_most: u64,
    rows: &[&[i64]],
) -> Result<(), Fail> {
    let (key, number) = row;
    case.add(rt.alloc(), 0, key, number)?;
    assert_that(rt, case.reads() <= at_most);
    assert_that(rt, case.shows(rt.alloc(), 0, rows)?);
    Ok(())
}

/// Asserts how many rows the last of four changes reads at most for the pairs of rows of the first table that have the same number.
fn join_with_itself(
    rt: &(impl Abort + AllocGlobal),
    case: &mut Case,
    at_most: u64,
) -> Result<(), Fail> {
    put(case, rt.alloc(), &[(0, 1, 5), (0, 2, 5), (0, 4, 9)])?;
    watch_joined(case, rt.alloc(), [0, 0])?;
    assert_reads(rt, case, (3, 5), at_most, &ALL_PAIRS)
}

#[test]
fn reads_are_few_along_an_index(rt: HostRuntime) -> Result<(), Fail> {
    let mut case = Case::new(rt.alloc(), true)?;
    join_with_itself(&rt, &mut case, 6)
}

#[test]
fn reads_are_few_without_an_index(rt: HostRuntime) -> Result<(), Fail> {
    let mut case = Case::new(rt.alloc(), false)?;
    join_with_itself(&rt, &mut case, 8)
}

/// Inserts a row with the key 1 into the second table, with the number 9 here and 4 in the other case. Then creates a standing query here,
/// with a list computed over the other case.
fn watch_elsewhere(case: &mut Case, elsewhere: &mut Case, alloc: Global) -> Result<(), Refusal> {
    elsewhere.add(alloc, 1, 1, 4)?;
    case.add(alloc, 1, 1, 9)?;
    let query = pairs(alloc, [key(0)], [numbers_compare(Comparison::Equal)])?;
    case.watch_elsewhere(alloc, elsewhere, query)
}

/// Asserts that a new row is combined with a row in the view, and not with one of the case over which the list was computed.
fn follow_the_view(
    rt: &(impl Abort + AllocGlobal),
    case: &mut Case,
    elsewhere: &mut Case,
) -> Result<(), Fail> {
    watch_elsewhere(case, elsewhere, rt.alloc())?;
    assert_same(rt, case.count(0)?, 0);
    assert_reads(rt, case, (1, 9), 2, &[&[1]])
}

/// Asserts that changes follow the view in a new case whose list was computed over the tables of another one.
fn follow_from(rt: &(impl Abort + AllocGlobal), elsewhere: &mut Case) -> Result<(), Fail> {
    let mut case = Case::new(rt.alloc(), false)?;
    follow_the_view(rt, &mut case, elsewhere)
}

#[test]
fn lists_follow_the_view(rt: HostRuntime) -> Result<(), Fail> {
    let mut elsewhere = Case::new(rt.alloc(), false)?;
    follow_from(&rt, &mut elsewhere)
}

/// Returns a query for the keys of the first table whose number is less than one of the second that is less than 5.
fn below_5(alloc: Global) -> Result<BoundQuery, Refusal> {
    let below_5 = Atom {
        left: number(1),
        comparison: Comparison::Less,
        right: Operand::Literal(Value::Int(5)),
    };
    let atoms = [numbers_compare(Comparison::Less), below_5];
    pairs(alloc, [key(0)], atoms)
}

/// Creates a standing query for those keys.
fn watch_below_5(case: &mut Case, alloc: Global) -> Result<(), Refusal> {
    let tables = vec![in alloc; 0, 1]?;
    case.watch(alloc, below_5(alloc)?, tables)
}

/// Asserts the number of rows read for an irrelevant row, and for one that matches the only row of the second table.
fn leave_out(rt: &(impl Abort + AllocGlobal), case: &mut Case) -> Result<(), Fail> {
    case.add(rt.alloc(), 1, 1, 4)?;
    watch_below_5(case, rt.alloc())?;
    assert_reads(rt, case, (1, 4), READS_OF_IRRELEVANT_ROW, &[])?;
    assert_reads(rt, case, (2, 3), 2, &[&[2]])
}

#[test]
fn irrelevant_rows_are_not_combined(rt: HostRuntime) -> Result<(), Fail> {
    let mut case = Case::new(rt.alloc(), false)?;
    leave_out(&rt, &mut case)
}

/// Creates a standing query for the pairs of rows with the same key, which reads no number.
fn watch_keys(case: &mut Case, alloc: Global) -> Result<(), Refusal> {
    let same_key = Atom {
        left: key(0),
        comparison: Comparison::Equal,
        right: Operand::Column(key(1)),
    };
    let query = pairs(alloc, [key(0), key(1)], [same_key])?;
    let tables = vec![in alloc; 0, 1]?;
    case.watch(alloc, query, tables)
}

/// Asserts that a row whose number changes is read, and no row that it is combined with.
fn renumber_unread(rt: &(impl Abort + AllocGlobal), case: &mut Case) -> Result<(), Fail> {
    put(case, rt.alloc(), &[(0, 1, 5), (1, 1, 6)])?;
    watch_keys(case, rt.alloc())?;
    case.renumber(rt.alloc(), 0, 1, 7)?;
    assert_same(rt, case.reads(), 1);
    assert_that(rt, case.shows(rt.alloc(), 0, &[&[1, 1]])?);
    Ok(())
}

#[test]
fn a_change_of_columns_that_no_list_reads_is_not_combined(rt: HostRuntime) -> Result<(), Fail> {
    let mut case = Case::new(rt.alloc(), false)?;
    renumber_unread(&rt, &mut case)
}
