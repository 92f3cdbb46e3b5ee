//! Foreign keys.
ghost use Rattle.std.specs.Prelude.{◌≡◌, ◌≤◌, None, length, IfOk, OnOk};
ghost use Rattle.mm_value.specs.declared.row_ref.RowRef.{RowRef};
ghost use Rattle.mm_foreign_key.specs.Ties.{target_at, KeepsTargets};

use crate::assertions::{assert_same, assert_that};
use mm_foreign_key::ForeignKey;
use mm_value::RowRef;
use std::alloc::Global;
use std::process::Abort;
use std::test::Fail;

/// Reserves capacity in a foreign key. Tries again once if an allocation fails.
fn grow(alloc: Global, key: &mut ForeignKey, referrers: usize, targets: usize) -> Result<(), Fail>
    ensures referrers { OnOk result (referrers ≤ length key.new.targets) }
    ensures extent { OnOk result (targets ≤ key.new.extent) }
    ensures targets { KeepsTargets key.old key.new }
{
    if key.reserve(alloc, referrers, targets).is_err() {
        key.reserve(alloc, referrers, targets)?;
    }
    Ok(())
}

/// Returns a foreign key with entries for these numbers of rows of both tables, none of which refers to a row.
fn key_of(alloc: Global, referrers: usize, targets: usize) -> Result<ForeignKey, Fail>
    ensures referrers { IfOk result (λ key. referrers ≤ length key.targets) }
    ensures extent { IfOk result (λ key. targets ≤ key.extent) }
    ensures untied { IfOk result (λ key. (from : RowRef) → target_at key from ≡ None) }
{
    let mut key = ForeignKey::new(alloc);
    grow(alloc, &mut key, referrers, targets)?;
    Ok(key)
}

/// Ties the first row to a later one, and unties it.
fn tie_and_untie(rt: &impl Abort, key: &mut ForeignKey)
    requires referrers { 1 ≤ length key.old.targets }
    requires extent { 200 ≤ key.old.extent }
    requires untied { (from : RowRef) → target_at key.old from ≡ None }
{
    let from = RowRef { slot: 0 };
    let to = RowRef { slot: 199 };
    assert_same(rt, key.target(from), None);
    assert_that(rt, !key.is_referred(to));

    key.tie(from, to);
    assert_same(rt, key.target(from), Some(to));
    assert_that(rt, key.is_referred(to));
    assert_that(rt, !key.is_referred(RowRef { slot: 135 }));

    key.untie(from);
    assert_same(rt, key.target(from), None);
    assert_that(rt, !key.is_referred(to));
}

#[test]
fn follows_a_reference(rt: HostRuntime) -> Result<(), Fail> {
    let mut key = key_of(rt.alloc(), 1, 200)?;
    tie_and_untie(&rt, &mut key);
    Ok(())
}

/// Ties three rows and unties them, and ties the last one to another row.
fn untie_in_turn(rt: &impl Abort, key: &mut ForeignKey)
    requires referrers { 100 ≤ length key.old.targets }
    requires extent { 2 ≤ key.old.extent }
    requires untied { (from : RowRef) → target_at key.old from ≡ None }
{
    let one = RowRef { slot: 5 };
    let two = RowRef { slot: 69 };
    let three = RowRef { slot: 6 };
    let to = RowRef { slot: 1 };
    let beside = RowRef { slot: 0 };
    key.tie(one, to);
    key.tie(two, to);
    key.tie(three, beside);

    key.untie(one);
    assert_that(rt, key.is_referred(to));
    key.untie(two);
    assert_that(rt, !key.is_referred(to));
    assert_that(rt, key.is_referred(beside));
    assert_same(rt, key.target(three), Some(beside));

    // A row may refer to another row later, and be referred to again.
    key.untie(three);
    key.tie(three, to);
    assert_that(rt, key.is_referred(to));
    assert_that(rt, !key.is_referred(beside));
}

#[test]
fn a_row_is_referred_to_until_the_last_referrer_goes(rt: HostRuntime) -> Result<(), Fail> {
    let mut key = key_of(rt.alloc(), 100, 2)?;
    untie_in_turn(&rt, &mut key);
    Ok(())
}

/// Ties a row, reserves capacity, and ties a later row.
fn tie_and_grow(rt: &(impl Abort + AllocGlobal), key: &mut ForeignKey) -> Result<(), Fail>
    requires referrers { 1 ≤ length key.old.targets }
    requires extent { 1 ≤ key.old.extent }
    requires untied { (from : RowRef) → target_at key.old from ≡ None }
{
    let row = RowRef { slot: 0 };
    key.tie(row, row);
    grow(rt.alloc(), key, 1000, 500)?;
    assert_same(rt, key.target(row), Some(row));

    let from = RowRef { slot: 999 };
    let to = RowRef { slot: 499 };
    key.tie(from, to);
    assert_same(rt, key.target(from), Some(to));
    assert_same(rt, key.target(row), Some(row));
    assert_that(rt, key.is_referred(row));
    Ok(())
}

#[test]
fn keeps_references_when_it_grows(rt: HostRuntime) -> Result<(), Fail> {
    let mut key = key_of(rt.alloc(), 1, 1)?;
    tie_and_grow(&rt, &mut key)
}

/// Asserts that a foreign key for 64 rows of both tables has no ties past them, and that at most 2^32 - 1 entries can be reserved.
fn ask_past_its_entries(rt: &(impl Abort + AllocGlobal), key: &mut ForeignKey) {
    let alloc = rt.alloc();
    let past = RowRef { slot: u32::MAX };
    assert_same(rt, key.target(past), None);
    assert_same(rt, key.target(RowRef { slot: 64 }), None);
    assert_that(rt, !key.is_referred(past));
    assert_that(rt, key.reserve(alloc, u32::MAX as usize + 1, 0).is_err());
    assert_that(rt, key.reserve(alloc, 0, u32::MAX as usize + 1).is_err());
}

#[test]
fn past_its_entries_no_row_refers_or_is_referred_to(rt: HostRuntime) -> Result<(), Fail> {
    let mut key = key_of(rt.alloc(), 64, 64)?;
    ask_past_its_entries(&rt, &mut key);
    Ok(())
}
