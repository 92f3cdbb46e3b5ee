//! Multisets of references by hash.
ghost use Rattle.mlhash.specs.Bag.{IsSmall};

use crate::assertions::{assert_same, assert_that};
use crate::references::are;
use mlhash::HashRefs;
use mm_value::RowRef;
use std::alloc::{AllocError, Global};
use std::process::Abort;
use std::test::Fail;

/// Returns a reference to one of the first slots.
pub fn slot(slot: u8) -> RowRef
    ensures { IsSmall result }
{
    RowRef {
        slot: u32::from(slot),
    }
}

/// Inserts a reference if there is capacity, and otherwise fails the test.
fn insert(rt: &impl Abort, refs: &mut HashRefs, hash: u64, reference: RowRef)
    requires { IsSmall reference }
{
    assert!(rt; refs.spare() > 0, "no room for {hash}");
    refs.insert(hash, reference);
}

/// Inserts two references of the hash 4 and one of the hash 8.
fn insert_three(rt: &impl Abort, refs: &mut HashRefs) {
    insert(rt, refs, 4, slot(1));
    insert(rt, refs, 4, slot(2));
    insert(rt, refs, 8, slot(3));
}

/// Returns a hash table with two references of the hash 4 and one of the hash 8.
fn of_three(rt: &impl Abort, alloc: Global) -> Result<HashRefs, AllocError> {
    let mut refs = HashRefs::new(alloc);
    refs.reserve(alloc, 3)?;
    insert_three(rt, &mut refs);
    Ok(refs)
}

/// Returns whether a hash table finds these references of a hash, in any order.
fn finds(alloc: Global, refs: &HashRefs, hash: u64, wanted: &[RowRef]) -> Result<bool, AllocError> {
    let mut found = Vec::new(alloc);
    refs.matches(alloc, hash, &mut found)?;
    Ok(are(&found, wanted))
}

/// Returns whether a hash table has exactly these references.
fn has(alloc: Global, refs: &HashRefs, wanted: &[RowRef]) -> Result<bool, AllocError> {
    let mut found = Vec::new(alloc);
    refs.copy_all(alloc, &mut found)?;
    Ok(are(&found, wanted))
}

/// Finds the two references of the hash 4, and all three.
fn find_three(rt: &(impl Abort + AllocGlobal), refs: &HashRefs) -> Result<(), Fail> {
    let alloc = rt.alloc();
    assert_same(rt, refs.len(), 3);
    assert_that(rt, finds(alloc, refs, 4, &[slot(1), slot(2)])?);
    assert_that(rt, has(alloc, refs, &[slot(1), slot(2), slot(3)])?);
    Ok(())
}

#[test]
fn finds_by_hash(rt: HostRuntime) -> Result<(), Fail> {
    let refs = of_three(&rt, rt.alloc())?;
    find_three(&rt, &refs)
}

/// Removes one of the two references of the hash 4.
fn remove_one(rt: &(impl Abort + AllocGlobal), refs: &mut HashRefs) -> Result<(), Fail> {
    let alloc = rt.alloc();
    assert_that(rt, refs.remove(4, slot(1)));
    assert_that(rt, !refs.remove(4, slot(1)));
    assert_that(rt, finds(alloc, refs, 4, &[slot(2)])?);
    assert_that(rt, has(alloc, refs, &[slot(2), slot(3)])?);
    Ok(())
}

#[test]
fn removes_one_of_its_hash(rt: HostRuntime) -> Result<(), Fail> {
    let mut refs = of_three(&rt, rt.alloc())?;
    remove_one(&rt, &mut refs)
}

#[test]
fn clears(rt: HostRuntime) -> Result<(), Fail> {
    let mut refs = of_three(&rt, rt.alloc())?;
    let room = refs.spare().wrapping_add(3);
    refs.clear();
    assert_same(&rt, (refs.len(), refs.spare()), (0, room));
    assert_that(&rt, has(rt.alloc(), &refs, &[])?);
    insert_three(&rt, &mut refs);
    find_three(&rt, &refs)
}

#[test]
fn an_empty_bag_has_no_room(rt: HostRuntime) -> Result<(), Fail> {
    let refs = HashRefs::new(rt.alloc());
    assert_same(&rt, (refs.len(), refs.spare()), (0, 0));
    Ok(())
}

/// Inserts 20 references into a hash table, five of each of the hashes below 4. Tries again once if a reservation fails, which changes
/// nothing.
fn fill(rt: &impl Abort, alloc: Global, refs: &mut HashRefs) -> Result<(), AllocError> {
    for hash in 0..20u8 {
        if refs.reserve(alloc, 1).is_err() {
            assert_same(rt, (refs.len(), refs.spare()), (usize::from(hash), 0));
            refs.reserve(alloc, 1)?;
        }
        insert(rt, refs, u64::from(hash % 4), slot(hash));
    }
    Ok(())
}

/// Appends the references of each hash below 4. Tries again once if an allocation fails; then nothing is appended.
fn append_by_hash(
    rt: &impl Abort,
    alloc: Global,
    refs: &HashRefs,
    found: &mut Vec<RowRef>,
) -> Result<(), AllocError> {
    for hash in 0..4u8 {
        let before = found.len();
        if refs.matches(alloc, u64::from(hash), found).is_err() {
            assert_same(rt, found.len(), before);
            refs.matches(alloc, u64::from(hash), found)?;
        }
        assert_same(rt, found.len(), usize::from(hash) * 5 + 5);
    }
    Ok(())
}

/// Appends all references. Tries again once if an allocation fails; then nothing is appended.
fn append_all(
    rt: &impl Abort,
    alloc: Global,
    refs: &HashRefs,
    found: &mut Vec<RowRef>,
) -> Result<(), AllocError> {
    let before = found.len();
    if refs.copy_all(alloc, found).is_err() {
        assert_same(rt, found.len(), before);
        refs.copy_all(alloc, found)?;
    }
    Ok(())
}

/// Removes the references of `fill`.
fn drain(rt: &impl Abort, refs: &mut HashRefs) {
    for hash in 0..20u8 {
        let held = refs.remove(u64::from(hash % 4), slot(hash));
        assert_same(rt, (hash, held), (hash, true));
    }
    assert_same(rt, refs.len(), 0);
}

/// Asserts that each reference of `fill` is found twice, and no other.
fn assert_twice(rt: &impl Abort, found: &[RowRef]) {
    assert_same(rt, found.len(), 40);
    for hash in 0..20u8 {
        let count = found.iter().filter(|r| **r == slot(hash)).count();
        assert_same(rt, (hash, count), (hash, 2));
    }
}

/// Finds each reference of `fill` by its hash, and then among all.
fn find_twice(rt: &impl Abort, alloc: Global, refs: &HashRefs) -> Result<(), AllocError> {
    let mut found = Vec::new(alloc);
    append_by_hash(rt, alloc, refs, &mut found)?;
    append_all(rt, alloc, refs, &mut found)?;
    assert_twice(rt, &found);
    Ok(())
}

// If one allocation of the run fails, the failed call has changed nothing, and the next one succeeds.
#[test]
fn a_refused_call_can_be_given_again(rt: HostRuntime) -> Result<(), Fail> {
    let alloc = rt.alloc();
    let mut refs = HashRefs::new(alloc);
    fill(&rt, alloc, &mut refs)?;
    find_twice(&rt, alloc, &refs)?;
    drain(&rt, &mut refs);
    Ok(())
}
