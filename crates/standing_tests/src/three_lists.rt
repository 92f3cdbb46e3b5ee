//! Two tables with three lists over them.
use crate::case::Case;
use crate::samples::{joined, number, query};
use mm_query::BoundQuery;
use mm_value::Refusal;
use std::alloc::Global;

/// Inserts a row for each table, key and number, into one of the two tables.
pub fn put(case: &mut Case, alloc: Global, rows: &[(usize, i64, i64)]) -> Result<(), Refusal> {
    for (table, key, number) in rows {
        case.add(alloc, *table, *key, *number)?;
    }
    Ok(())
}

/// Creates a standing query for the pairs of keys of rows with the same number, of two tables.
pub fn watch_joined(case: &mut Case, alloc: Global, tables: [usize; 2]) -> Result<(), Refusal> {
    let tables = Vec::from_array(alloc, tables)?;
    case.watch(alloc, joined(alloc)?, tables)
}

/// Returns a query for the numbers of a table, each once or as often as it occurs.
fn numbers(alloc: Global, distinct: bool) -> Result<BoundQuery, Refusal> {
    let mut numbers = query(alloc, 1, [number(0)])?;
    numbers.distinct = distinct;
    Ok(numbers)
}

/// Creates a standing query for the numbers of the first table, each once or as often as it occurs.
fn watch_numbers(case: &mut Case, alloc: Global, distinct: bool) -> Result<(), Refusal> {
    let tables = vec![in alloc; 0]?;
    case.watch(alloc, numbers(alloc, distinct)?, tables)
}

/// Creates three standing queries: the keys of the first table with those of the second that have the same number; the numbers of the first
/// table, each as often as it occurs; and these numbers, each once.
fn watch_three(case: &mut Case, alloc: Global) -> Result<(), Refusal> {
    watch_joined(case, alloc, [0, 1])?;
    watch_numbers(case, alloc, false)?;
    watch_numbers(case, alloc, true)
}

/// Creates the rows and the lists of the sample.
fn fill(case: &mut Case, alloc: Global) -> Result<(), Refusal> {
    put(case, alloc, &[(0, 1, 5), (0, 2, 5), (1, 1, 5)])?;
    watch_three(case, alloc)
}

/// Returns a case with two rows of the number 5 in the first table and one in the second, with three lists over them.
pub fn sample(alloc: Global) -> Result<Case, Refusal> {
    let mut case = Case::new(alloc, true)?;
    fill(&mut case, alloc)?;
    Ok(case)
}

/// Returns whether the three lists show exactly these rows.
pub fn show(case: &Case, alloc: Global, lists: [&[&[i64]]; 3]) -> Result<bool, Refusal> {
    let [joined, all, distinct] = lists;
    Ok(
        case.shows(alloc, 0, joined)?
            && case.shows(alloc, 1, all)?
            && case.shows(alloc, 2, distinct)?,
    )
}

/// The rows of the sample's lists.
pub const SAMPLED: [&[&[i64]]; 3] = [&[&[1, 1], &[2, 1]], &[&[5], &[5]], &[&[5]]];

/// Returns whether the lists are those of the sample.
pub fn is_as_sampled(case: &Case, alloc: Global) -> Result<bool, Refusal> {
    show(case, alloc, SAMPLED)
}
