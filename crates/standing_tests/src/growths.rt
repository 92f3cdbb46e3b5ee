//! Each allocation of a call fails in turn. Then everything that the call could have changed is as before, and the call succeeds when it is
//! repeated.
//!
//! One allocation fails in each run. If it is before or after the call, the test ends, since other runs fail those of the call.
ghost use Rattle.std.specs.Prelude.{◌≡◌};
ghost use Rattle.mm_partition.specs.Types.{HasTypes};
ghost use Rattle.store_tests.specs.SampleStore.{plain_types};

use crate::assertions::{assert_same, assert_that};
use crate::case::Case;
use crate::samples::{is_row_of, is_view_of, joined, row};
use crate::steps::TYPES;
use crate::three_lists::{is_as_sampled, sample, watch_joined};
use mm_delta::Signed;
use mm_multiset::Bag;
use mm_query::BoundQuery;
use mm_value::{Refusal, Row};
use std::alloc::{AllocError, Global};
use std::io;
use std::process::Abort;
use std::test::Fail;

/// Writes that a call is repeated. A run with failed allocations looks for this line.
fn asked_again(rt: &impl Print) -> io::Result<()> {
    rt.println("refused")
}

/// Asserts that a call failed with `Memory`, and writes that it is repeated.
fn memory_was_refused(rt: &(impl Abort + Print), refusal: Refusal) -> io::Result<()> {
    assert_same(rt, refusal, Refusal::Memory);
    asked_again(rt)
}

/// Asserts that a call on the sample failed with `Memory`, and that the lists are as before.
fn assert_unchanged(
    rt: &(impl Abort + AllocGlobal + Print),
    case: &Case,
    refusal: Refusal,
) -> Result<(), Fail> {
    memory_was_refused(rt, refusal)?;
    assert_that(rt, is_as_sampled(case, rt.alloc())?);
    Ok(())
}

/// Asserts that a list shows exactly these rows, unless an allocation fails.
fn look(rt: &(impl Abort + AllocGlobal), case: &Case, place: usize, rows: &[&[i64]]) {
    if let Ok(is_shown) = case.shows(rt.alloc(), place, rows) {
        assert_that(rt, is_shown);
    }
}

/// Creates a standing query, again if an allocation fails, and checks its list.
fn watch_again(rt: &(impl Abort + AllocGlobal + Print), case: &mut Case) -> Result<(), Fail> {
    if let Err(refusal) = watch_joined(case, rt.alloc(), [0, 1]) {
        assert_unchanged(rt, case, refusal)?;
        assert_that(rt, case.count(3).is_err());
        watch_joined(case, rt.alloc(), [0, 1])?;
    }
    look(rt, case, 3, &[&[1, 1], &[2, 1]]);
    Ok(())
}

#[test]
fn watch_growths(rt: HostRuntime) -> Result<(), Fail> {
    let Ok(mut case) = sample(rt.alloc()) else {
        return Ok(());
    };
    watch_again(&rt, &mut case)
}

/// Prepares an insert and drops it, again if an allocation fails, and checks the lists.
fn prepare_again(rt: &(impl Abort + AllocGlobal + Print), case: &mut Case) -> Result<(), Fail> {
    if let Err(refusal) = case.prepare_and_drop(rt.alloc(), 0, 3, 5) {
        assert_unchanged(rt, case, refusal)?;
        case.prepare_and_drop(rt.alloc(), 0, 3, 5)?;
    }
    if let Ok(is_shown) = is_as_sampled(case, rt.alloc()) {
        assert_that(rt, is_shown);
    }
    Ok(())
}

#[test]
fn prepare_growths(rt: HostRuntime) -> Result<(), Fail> {
    let Ok(mut case) = sample(rt.alloc()) else {
        return Ok(());
    };
    prepare_again(&rt, &mut case)
}

/// Inserts a row, again if an allocation fails, and checks a list.
fn add_again(rt: &(impl Abort + AllocGlobal + Print), case: &mut Case) -> Result<(), Fail> {
    if let Err(refusal) = case.add(rt.alloc(), 0, 3, 5) {
        assert_unchanged(rt, case, refusal)?;
        case.add(rt.alloc(), 0, 3, 5)?;
    }
    look(rt, case, 0, &[&[1, 1], &[2, 1], &[3, 1]]);
    Ok(())
}

#[test]
fn change_growths(rt: HostRuntime) -> Result<(), Fail> {
    let Ok(mut case) = sample(rt.alloc()) else {
        return Ok(());
    };
    add_again(&rt, &mut case)
}

/// Checks a list, again if an allocation fails.
fn look_again(rt: &(impl Abort + AllocGlobal + Print), case: &Case) -> Result<(), Fail> {
    let rows: &[&[i64]] = &[&[1, 1], &[2, 1]];
    match case.shows(rt.alloc(), 0, rows) {
        Ok(is_shown) => assert_that(rt, is_shown),
        Err(refusal) => {
            memory_was_refused(rt, refusal)?;
            assert_that(rt, case.shows(rt.alloc(), 0, rows)?);
        }
    }
    Ok(())
}

#[test]
fn list_growths(rt: HostRuntime) -> Result<(), Fail> {
    let Ok(case) = sample(rt.alloc()) else {
        return Ok(());
    };
    look_again(&rt, &case)
}

/// Returns whether the only change is that of the count of a row with these two numbers, by 1.
fn is_one_more(changes: &[Signed], numbers: &[i64]) -> bool {
    match changes {
        [change] => change.count == 1 && is_row_of(&change.row, numbers),
        _ => false,
    }
}

/// Returns whether an insert changes only the count of one row, by 1.
fn adds_one_row(case: &mut Case, alloc: Global, query: &BoundQuery) -> Result<bool, Refusal> {
    let changes = case.changes_of(alloc, query, &[0, 1], 0, 3, 5)?;
    Ok(is_one_more(changes.as_slice(), &[3, 1]))
}

/// Asserts the changes of counts by an insert, which are computed again if an allocation fails.
fn changes_again(
    rt: &(impl Abort + AllocGlobal + Print),
    case: &mut Case,
    query: &BoundQuery,
) -> Result<(), Fail> {
    match adds_one_row(case, rt.alloc(), query) {
        Ok(is_one) => assert_that(rt, is_one),
        Err(refusal) => {
            memory_was_refused(rt, refusal)?;
            assert_that(rt, adds_one_row(case, rt.alloc(), query)?);
        }
    }
    Ok(())
}

/// Asserts the changes of counts by an insert, for the pairs of keys of rows with the same number.
fn find_changes(rt: &(impl Abort + AllocGlobal + Print), case: &mut Case) -> Result<(), Fail> {
    let Ok(query) = joined(rt.alloc()) else {
        return Ok(());
    };
    changes_again(rt, case, &query)
}

#[test]
fn delta_growths(rt: HostRuntime) -> Result<(), Fail> {
    let Ok(mut case) = sample(rt.alloc()) else {
        return Ok(());
    };
    find_changes(&rt, &mut case)
}

/// Increments the count of the row of a key and a number.
fn count_row(bag: &mut Bag, alloc: Global, key: i64, number: i64) -> Result<(), AllocError>
    requires { bag.old.types ≡ plain_types }
    ensures { bag.new.types ≡ plain_types }
{
    bag.count_up(row(alloc, key, number)?)
}

/// Counts a row with one key once, and one with another key twice.
fn count_rows(bag: &mut Bag, alloc: Global) -> Result<(), AllocError>
    requires { bag.old.types ≡ plain_types }
    ensures { bag.new.types ≡ plain_types }
{
    count_row(bag, alloc, 1, 5)?;
    count_row(bag, alloc, 2, 5)?;
    count_row(bag, alloc, 2, 5)
}

/// Returns a bag with a row of one key once and one of another key twice.
fn bag(alloc: Global) -> Result<Bag, AllocError> {
    let mut bag = Bag::new(alloc, TYPES)?;
    count_rows(&mut bag, alloc)?;
    Ok(bag)
}

/// Returns whether a bag has exactly these rows, with these counts, in this order.
fn has_rows(bag: &Bag, rows: &[(&[i64], usize)]) -> bool {
    let mut entries = bag.entries();
    for (numbers, count) in rows {
        match entries.next() {
            Some((row, found)) if found == *count && is_view_of(row, numbers) => {}
            _ => return false,
        }
    }
    entries.next().is_none()
}

/// Counts a new row in an empty bag, again if an allocation fails.
fn count_again(rt: &(impl Abort + AllocGlobal + Print), bag: &mut Bag, new: Row) -> Result<(), Fail>
    requires types { bag.old.types ≡ plain_types }
    requires typed { HasTypes plain_types new }
{
    if let Err(AllocError) = bag.count_up(new) {
        asked_again(rt)?;
        assert_that(rt, has_rows(bag, &[]));
        assert_that(rt, count_row(bag, rt.alloc(), 3, 7).is_ok());
    }
    assert_same(rt, (bag.len(), bag.total()), (1, 1));
    assert_that(rt, has_rows(bag, &[(&[3, 7], 1)]));
    Ok(())
}

#[test]
fn count_up_growths(rt: HostRuntime) -> Result<(), Fail> {
    let Ok(mut bag) = Bag::new(rt.alloc(), TYPES) else {
        return Ok(());
    };
    match row(rt.alloc(), 3, 7) {
        Ok(new) => count_again(&rt, &mut bag, new),
        Err(_) => Ok(()),
    }
}

/// The contents of a bag with two rows and three counts.
const COUNTED: &[(&[i64], usize)] = &[(&[1, 5], 1), (&[2, 5], 2)];

/// Reserves capacity in such a bag, again if an allocation fails.
fn reserve_again(rt: &(impl Abort + Print), bag: &mut Bag) -> Result<(), Fail> {
    if let Err(AllocError) = bag.reserve(100) {
        asked_again(rt)?;
        assert_that(rt, has_rows(bag, COUNTED));
        assert_that(rt, bag.reserve(100).is_ok());
    }
    assert_same(rt, (bag.len(), bag.total()), (2, 3));
    assert_that(rt, has_rows(bag, COUNTED));
    Ok(())
}

#[test]
fn reserve_growths(rt: HostRuntime) -> Result<(), Fail> {
    let Ok(mut bag) = bag(rt.alloc()) else {
        return Ok(());
    };
    reserve_again(&rt, &mut bag)
}
