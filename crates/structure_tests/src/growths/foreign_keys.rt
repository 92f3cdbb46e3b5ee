//! Foreign keys.
ghost use Rattle.std.specs.Prelude.{◌≤◌, length, OnOk};
ghost use Rattle.mm_foreign_key.specs.Ties.{KeepsTargets};

use crate::assertions::{assert_same, assert_that};
use crate::growths::asked_again;
use mm_foreign_key::ForeignKey;
use mm_value::RowRef;
use std::process::Abort;
use std::test::Fail;

const ROW: RowRef = RowRef { slot: 0 };

/// A row far after the first.
const FAR: RowRef = RowRef { slot: 499 };

/// Reserves capacity for rows and their targets, again if an allocation fails. Then the first row is tied as before.
fn reserve_again(rt: &(impl Abort + AllocGlobal + Print), key: &mut ForeignKey) -> Result<(), Fail>
    ensures referrers { OnOk result (500 ≤ length key.new.targets) }
    ensures extent { OnOk result (500 ≤ key.new.extent) }
    ensures targets { KeepsTargets key.old key.new }
{
    // One allocation for the entries of the referring rows, and one for the counts of their targets.
    if key.reserve(rt.alloc(), 500, 500).is_err() {
        asked_again(rt)?;
        assert_same(rt, key.target(ROW), Some(ROW));
        assert_that(rt, key.is_referred(ROW));
        key.reserve(rt.alloc(), 500, 500)?;
    }
    Ok(())
}

/// Ties the first row to itself, reserves capacity, and ties the far row to itself.
fn tie_both(rt: &(impl Abort + AllocGlobal + Print), key: &mut ForeignKey) -> Result<(), Fail> {
    if key.reserve(rt.alloc(), 1, 1).is_err() {
        return Ok(());
    }
    assert_same(rt, key.target(ROW), None);
    key.tie(ROW, ROW);
    reserve_again(rt, key)?;
    assert_same(rt, key.target(FAR), None);
    key.tie(FAR, FAR);
    assert_same(
        rt,
        (key.target(FAR), key.target(ROW)),
        (Some(FAR), Some(ROW)),
    );
    assert_that(rt, key.is_referred(FAR));
    Ok(())
}

#[test]
fn foreign_key_growths(rt: HostRuntime) -> Result<(), Fail> {
    let mut key = ForeignKey::new(rt.alloc());
    tie_both(&rt, &mut key)
}
