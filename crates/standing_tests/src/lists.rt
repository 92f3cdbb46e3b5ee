//! The rows of lists, also after changes are undone.
use crate::assertions::{assert_same, assert_that};
use crate::case::Case;
use crate::three_lists::{SAMPLED, sample, show};
use mm_value::Refusal;
use std::alloc::Global;
use std::process::Abort;
use std::test::Fail;

/// Returns the numbers of rows of the three lists.
fn counts(case: &Case) -> Result<[usize; 3], Refusal> {
    Ok([case.count(0)?, case.count(1)?, case.count(2)?])
}

/// Asserts that the three lists show exactly these rows.
fn assert_shown(
    rt: &(impl Abort + AllocGlobal),
    case: &Case,
    lists: [&[&[i64]]; 3],
) -> Result<(), Fail> {
    assert_that(rt, show(case, rt.alloc(), lists)?);
    Ok(())
}

/// Asserts the numbers of rows and the rows of the three lists of the sample.
fn count_and_show(rt: &(impl Abort + AllocGlobal), case: &Case) -> Result<(), Fail> {
    assert_same(rt, counts(case)?, [2, 2, 1]);
    assert_shown(rt, case, SAMPLED)
}

#[test]
fn counts_with_and_without_distinct(rt: HostRuntime) -> Result<(), Fail> {
    let case = sample(rt.alloc())?;
    count_and_show(&rt, &case)
}

/// Inserts a row into the first table, and sets a mark. Then deletes all rows of the sample, and inserts one into the second table.
fn turn(case: &mut Case, alloc: Global) -> Result<(), Refusal> {
    case.add(alloc, 0, 3, 7)?;
    case.set_mark();
    case.remove(alloc, 0, 1)?;
    case.remove(alloc, 0, 2)?;
    case.add(alloc, 1, 2, 7)
}

/// The rows of the lists at the mark of `turn`.
const AT_MARK: [&[&[i64]]; 3] = [&[&[1, 1], &[2, 1]], &[&[5], &[5], &[7]], &[&[5], &[7]]];

/// The rows of the lists after the changes of `turn`.
const TURNED: [&[&[i64]]; 3] = [&[&[3, 2]], &[&[7]], &[&[7]]];

/// Makes the changes of `turn`, after which no row with the count 0 is shown, and undoes them.
fn turn_and_back(rt: &(impl Abort + AllocGlobal), case: &mut Case) -> Result<(), Fail> {
    turn(case, rt.alloc())?;
    assert_shown(rt, case, TURNED)?;
    case.go_back();
    assert_shown(rt, case, AT_MARK)?;
    case.go_back_to_start();
    assert_shown(rt, case, SAMPLED)
}

#[test]
fn lists_go_back(rt: HostRuntime) -> Result<(), Fail> {
    let mut case = sample(rt.alloc())?;
    turn_and_back(&rt, &mut case)
}

/// The rows of the sample's lists without its first row.
const ONE_LEFT: [&[&[i64]]; 3] = [&[&[2, 1]], &[&[5]], &[&[5]]];

/// Commits the deletion of a row, which then cannot be undone, and inserts the row again.
fn settle_and_add(rt: &(impl Abort + AllocGlobal), case: &mut Case) -> Result<(), Fail> {
    case.remove(rt.alloc(), 0, 1)?;
    case.settle();
    case.go_back_to_start();
    assert_shown(rt, case, ONE_LEFT)?;
    case.add(rt.alloc(), 0, 1, 5)?;
    assert_shown(rt, case, SAMPLED)
}

#[test]
fn settled_changes_stay(rt: HostRuntime) -> Result<(), Fail> {
    let mut case = sample(rt.alloc())?;
    settle_and_add(&rt, &mut case)
}

/// Drops a prepared change, and makes another.
fn drop_and_add(rt: &(impl Abort + AllocGlobal), case: &mut Case) -> Result<(), Fail> {
    case.prepare_and_drop(rt.alloc(), 0, 3, 7)?;
    assert_shown(rt, case, SAMPLED)?;
    case.add(rt.alloc(), 0, 4, 9)?;
    assert_that(rt, case.shows(rt.alloc(), 1, &[&[5], &[5], &[9]])?);
    Ok(())
}

#[test]
fn discarded_changes_are_not_made(rt: HostRuntime) -> Result<(), Fail> {
    let mut case = sample(rt.alloc())?;
    drop_and_add(&rt, &mut case)
}

/// Asserts that two lists show exactly these rows, and that there is no third list.
fn assert_two(
    rt: &(impl Abort + AllocGlobal),
    case: &Case,
    first: &[&[i64]],
    second: &[&[i64]],
) -> Result<(), Fail> {
    assert_that(rt, case.shows(rt.alloc(), 0, first)?);
    assert_that(rt, case.shows(rt.alloc(), 1, second)?);
    assert_same(rt, &case.count(2), &Err(Refusal::NoSuchStandingQuery));
    Ok(())
}

/// Drops the first standing query, and inserts a row.
fn unwatch_and_add(rt: &(impl Abort + AllocGlobal), case: &mut Case) -> Result<(), Fail> {
    case.unwatch(0);
    assert_two(rt, case, &[&[5], &[5]], &[&[5]])?;
    case.add(rt.alloc(), 0, 3, 7)?;
    assert_two(rt, case, &[&[5], &[5], &[7]], &[&[5], &[7]])
}

#[test]
fn lists_move_up(rt: HostRuntime) -> Result<(), Fail> {
    let mut case = sample(rt.alloc())?;
    unwatch_and_add(&rt, &mut case)
}

/// Inserts rows of these keys into the first table, each with its key as its number, and deletes all but the last.
fn grow_and_shrink(case: &mut Case, alloc: Global, first: i64, last: i64) -> Result<(), Refusal> {
    for key in first..last {
        case.add(alloc, 0, key, key)?;
    }
    case.add(alloc, 0, last, last)?;
    for key in first..last {
        case.remove(alloc, 0, key)?;
    }
    Ok(())
}

/// The rows of the lists after they grew and shrank once.
const SHRUNK: [&[&[i64]]; 3] = [&[&[1, 1], &[2, 1]], &[&[5], &[5], &[29]], &[&[5], &[29]]];

/// The rows of the lists after they grew and shrank twice.
const SHRUNK_TWICE: [&[&[i64]]; 3] = [
    &[&[1, 1], &[2, 1]],
    &[&[5], &[5], &[29], &[59]],
    &[&[5], &[29], &[59]],
];

/// Lets the lists grow and shrink in two transactions, the second of which reuses slots of the first. Asserts the rows of the lists within
/// the first transaction, after it, and within the second one.
fn shrink_twice(rt: &(impl Abort + AllocGlobal), case: &mut Case) -> Result<(), Fail> {
    grow_and_shrink(case, rt.alloc(), 10, 29)?;
    assert_same(rt, counts(case)?, [2, 3, 2]);
    assert_shown(rt, case, SHRUNK)?;
    case.settle();
    assert_shown(rt, case, SHRUNK)?;
    grow_and_shrink(case, rt.alloc(), 40, 59)?;
    assert_same(rt, counts(case)?, [2, 4, 3]);
    assert_shown(rt, case, SHRUNK_TWICE)
}

#[test]
fn lists_that_shrank_show_what_is_left(rt: HostRuntime) -> Result<(), Fail> {
    let mut case = sample(rt.alloc())?;
    shrink_twice(&rt, &mut case)
}
