//! The limit of combinations of a query and of a standing query: 1,048,576, the number for 1,024 rows joined with themselves.
use crate::assertions::assert_same;
use crate::case::Case;
use crate::samples::{key, query};
use mm_value::Refusal;
use std::alloc::Global;
use std::process::Abort;
use std::test::Fail;

/// Inserts `count` rows into the first table.
fn fill(case: &mut Case, alloc: Global, count: i64) -> Result<(), Refusal> {
    for key in 0..count {
        case.add(alloc, 0, key, key)?;
    }
    Ok(())
}

/// Returns the refusals of the first table joined with itself, as a query and as a standing query.
fn refusals(case: &mut Case, alloc: Global) -> Result<[Option<Refusal>; 2], Refusal> {
    let joined = query(alloc, 2, [key(0)])?;
    let of_query = case.combinations(alloc, &joined, &[0, 0]).err();
    let of_list = case.watch(alloc, joined, vec![in alloc; 0, 0]?).err();
    Ok([of_query, of_list])
}

/// Fills the first table with one row too many, and asserts that the join with itself is refused.
fn overfill(rt: &(impl Abort + AllocGlobal), case: &mut Case) -> Result<(), Fail> {
    fill(case, rt.alloc(), 1025)?;
    let refused = [
        Some(Refusal::ResultTooLarge),
        Some(Refusal::StandingListTooLarge),
    ];
    assert_same(rt, refusals(case, rt.alloc())?, refused);
    assert_same(rt, &case.count(0), &Err(Refusal::NoSuchStandingQuery));
    Ok(())
}

#[test]
fn a_row_too_many_is_refused(rt: HostRuntime) -> Result<(), Fail> {
    let mut case = Case::new(rt.alloc(), false)?;
    overfill(&rt, &mut case)
}

/// Fills the list of the first table joined with itself, and asserts that a further row is refused.
fn fill_list(rt: &(impl Abort + AllocGlobal), case: &mut Case) -> Result<(), Fail> {
    fill(case, rt.alloc(), 1024)?;
    assert_same(rt, refusals(case, rt.alloc())?, [None, None]);
    assert_same(rt, case.count(0)?, 1_048_576);
    let refused = case.add(rt.alloc(), 0, 1024, 1024);
    assert_same(rt, &refused, &Err(Refusal::StandingListTooLarge));
    assert_same(rt, case.count(0)?, 1_048_576);
    Ok(())
}

#[test]
fn a_full_list_takes_no_row(rt: HostRuntime) -> Result<(), Fail> {
    let mut case = Case::new(rt.alloc(), false)?;
    fill_list(&rt, &mut case)
}
